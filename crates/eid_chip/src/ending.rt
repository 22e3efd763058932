//! The ends of a step: refused, or carried out.
ghost use Rattle.std.specs.Prelude.{◌≡◌, ◌≤◌, Option, None};
ghost use Rattle.arrayvec.specs.ArrayVec.{array_vec_len};
ghost use Rattle.eid_apdu.specs.Answer.{plain_reply};
ghost use Rattle.eid_model.specs.Answers.{status_alone};
ghost use Rattle.eid_model.specs.Moments.{ends_session_by};
ghost use Rattle.eid_chip.specs.Transitions.{state_refused};
ghost use Rattle.eid_sm.specs.Keys.{ChannelState};
ghost use Rattle.eid_chip.specs.declared.session.Session.{Session};
ghost use Rattle.eid_chip.specs.Endings.{Answered, Lost, ended, reacted};
ghost use Rattle.eid_chip.specs.States.{state};
ghost use Rattle.eid_chip.specs.Steps.{state_left, state_due};

use crate::reaction::{Ending, Reaction};
use crate::refusal::Refusal;
use crate::session::{Run, Session};
use eid_apdu::Reply;
use eid_base::{Rule, Status};

/// Makes the reply one without data.
fn put_status(status: Status, reply: &mut Reply)
    ensures plain { plain_reply reply.new ≡ status_alone status.0 }
    ensures small { array_vec_len reply.new.content ≤ 2048 }
{
    reply.content.clear();
    reply.status = status;
}

/// Whether a refusal by this rule ends the session: objects of secure messaging that are missing or
/// wrong, and a fault of the coprocessor.
pub fn ends_session(rule: Rule) -> bool
    ensures { result ≡ ends_session_by rule.0 }
{
    rule.0 == 2 || rule.0 == 3 || rule.0 == 50
}

/// A command that is refused ends the run, and by some rules the session.
pub fn refused(refusal: Refusal, session: &mut Session, reply: &mut Reply) -> Reaction
    ensures rule { result.rule ≡ refusal.rule }
    ensures reply { plain_reply reply.new ≡ status_alone refusal.status.0 }
    ensures small { array_vec_len reply.new.content ≤ 2048 }
    ensures left { (channel : Option ChannelState)
        → state_left (reacted result session.new) channel ≡ state_due refusal.rule.0 (state_refused (state session.old channel)) }
    ensures idle { session.new.run ≡ Run.Idle }
{
    put_status(refusal.status, reply);
    if ends_session(refusal.rule) {
        session.forget();
    } else {
        session.end_run();
    }
    Reaction {
        rule: refusal.rule,
        opened: None,
    }
}

/// A command that is carried out and answers no data.
pub fn carried_out(reply: &mut Reply) -> Reaction
    ensures did { (result.rule.0 ≡ 0) × (plain_reply reply.new ≡ status_alone 0x9000) × (result.opened ≡ None) }
    ensures small { array_vec_len reply.new.content ≤ 2048 }
{
    carried_out_with(Status(0x9000), reply)
}

/// A command that is carried out, and answers this status.
pub fn carried_out_with(status: Status, reply: &mut Reply) -> Reaction
    ensures did { (result.rule.0 ≡ 0) × (plain_reply reply.new ≡ status_alone status.0) × (result.opened ≡ None) }
    ensures small { array_vec_len reply.new.content ≤ 2048 }
{
    put_status(status, reply);
    answered()
}

/// A command that is carried out, and whose answer stands already.
pub fn answered() -> Reaction
    ensures { (result.rule.0 ≡ 0) × (result.opened ≡ None) }
{
    Reaction {
        rule: Rule(0),
        opened: None,
    }
}

/// How a command ends in whose commit the power was cut, after so many others. Nothing is answered.
pub fn lost(finished: u8, reply: &mut Reply) -> Ending
    ensures ending { result ≡ Ending.Lost finished }
    ensures ended { (session : Session) → ended result session ≡ Lost finished }
    ensures small { array_vec_len reply.new.content ≤ 2048 }
{
    reply.content.clear();
    Ending::Lost { finished }
}

/// How a command ends after so many commits.
pub fn committed(reaction: Reaction, finished: u8) -> Ending
    ensures ending { result ≡ Ending.Answered reaction finished }
    ensures ended { (session : Session) → ended result session ≡ Answered (reacted reaction session) finished }
{
    Ending::Answered { reaction, finished }
}

/// How a command ends that commits nothing.
pub fn uncommitted(reaction: Reaction) -> Ending
    ensures ending { result ≡ Ending.Answered reaction 0 }
    ensures ended { (session : Session) → ended result session ≡ Answered (reacted reaction session) 0 }
{
    Ending::Answered {
        reaction,
        finished: 0,
    }
}
