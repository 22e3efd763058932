//! Requests that are sent in several commands (ISO/IEC 7816-4): their fragments, and the command that ends one.
ghost use Rattle.std.specs.Prelude.{◌≡◌, ◌≤◌, ℕ, true, false, List, Option, Some, None, IfOk, IfErr, if◌then◌else◌};
ghost use Rattle.arrayvec.specs.ArrayVec.{array_vec_len};
ghost use Rattle.eid_apdu.specs.Answer.{plain_reply};
ghost use Rattle.eid_apdu.specs.Chaining.{is_fragment};
ghost use Rattle.eid_apdu.specs.Command.{plain_command};
ghost use Rattle.eid_cells.specs.Device.{Device};
ghost use Rattle.eid_copro.specs.Seen.{CoproSeen};
ghost use Rattle.eid_sm.specs.Keys.{ChannelState};
ghost use Rattle.eid_store.specs.Store as stored;
ghost use Rattle.eid_model.specs.Runs.{is_piece_of_next};
ghost use Rattle.eid_chip.specs.Endings.{Answered, reacted};
ghost use Rattle.eid_chip.specs.Naming.{Passes};
ghost use Rattle.eid_chip.specs.Requests.{EndsNoRequest, EndsRequest};
ghost use Rattle.eid_chip.specs.States.{next_of, state};
ghost use Rattle.eid_chip.specs.Steps.{Reacts, refusal};
ghost use Rattle.eid_chip.specs.Transitions.{state_later, state_piece};
ghost use Rattle.eid_chip.specs.Worlds.{world};

use crate::ending::{carried_out, refused};
use crate::reaction::Reaction;
use crate::refusal::{BROKEN_CHAIN, LONG_REQUEST, Refusal};
use crate::session::{Authentication, Run, Session};
use eid_apdu::{Chain, Command, Fed, MAX_REQUEST, Reply};
use eid_store::Store;

/// Whether a fragment is one of the request that comes next in the run: only certificates come in fragments.
fn is_piece_of_next(session: &Session, c: &Command<'_>) -> bool
    requires fragment { is_fragment (plain_command c.now) ≡ true }
    ensures { result ≡ is_piece_of_next (next_of session.now) (Some (plain_command c.now)) }
{
    match &session.run {
        Run::Idle => match &session.authentication {
            Authentication::NotBegun => false,
            Authentication::Announced { .. } => false,
            Authentication::Challenged { .. } => false,
            Authentication::CaChosen(_) => false,
        },
        Run::Chosen(_) => false,
        Run::NonceSent(_) => false,
        Run::Mapped(_) => false,
        Run::Agreed(_) => false,
        Run::RiChosen => false,
        Run::KeyChosen(_) => c.ins == 0x2a && u16::from(c.p1) * 256 + u16::from(c.p2) == 0x00be,
    }
}

/// What a fragment leaves of the session: its run goes on where the request comes next in it.
fn leave_fragment(session: &mut Session, c: &Command<'_>)
    requires fragment { is_fragment (plain_command c.now) ≡ true }
    ensures { (channel : Option ChannelState)
        → state_later (state session.new channel) ≡ state_piece (plain_command c.now) (state session.old channel) }
{
    if !is_piece_of_next(session, c) {
        session.end_run();
    }
}

/// Takes a fragment, and answers 9000. Rule 7 is that it does not go on with the open chain, rule 8 that the request is then
/// too long. It ends the run, but one whose next step the request is.
pub fn take_fragment(
    session: &mut Session,
    chain: &mut Chain<MAX_REQUEST>,
    c: &Command<'_>,
    reply: &mut Reply,
) -> Reaction
    requires fragment { is_fragment (plain_command c.now) ≡ true }
    requires passes { Passes (plain_command c.now) }
    ensures reacts { (copro : CoproSeen) (store : Store) (device : Device) (cells : List ℕ) → stored.Fits store device cells
        → Reacts session.old chain.old.pending (plain_command c.now) (Answered (reacted result session.new) 0) (plain_reply reply.new)
        chain.new.pending (world copro store device cells) (world copro store device cells) }
    ensures small { array_vec_len reply.new.content ≤ 2048 }
{
    match chain.feed(c) {
        Fed::More => {
            leave_fragment(session, c);
            carried_out(reply)
        }
        Fed::Broken => refused(BROKEN_CHAIN, session, reply),
        Fed::TooLong => refused(LONG_REQUEST, session, reply),
        Fed::Whole => unreachable!(),
    }
}

/// Ends a request with its last command, and answers whether its body was joined to those of fragments before it; else the
/// command is the request, and nothing is copied. Rule 7 is that the command does not go on with the open chain, rule 8 that
/// the request is too long.
pub fn end_request(chain: &mut Chain<MAX_REQUEST>, c: &Command<'_>) -> Result<bool, Refusal>
    requires { is_fragment (plain_command c.now) ≡ false }
    ensures whole { IfOk result (λ is_joined. EndsRequest chain.old.pending (plain_command c.now) is_joined chain.new.body) }
    ensures refused { IfErr result (λ refused. EndsNoRequest chain.old.pending (plain_command c.now) (refusal refused)) }
    ensures closed { chain.new.pending ≡ None }
{
    if !chain.is_open() {
        if c.body.len() > MAX_REQUEST {
            return Err(LONG_REQUEST);
        }
        return Ok(false);
    }
    match chain.feed(c) {
        Fed::Whole => Ok(true),
        Fed::Broken => Err(BROKEN_CHAIN),
        Fed::TooLong => Err(LONG_REQUEST),
        Fed::More => unreachable!(),
    }
}

/// The request that a command ended: the body that was joined is its own, or else that of the command.
pub fn request_of<'a>(
    is_joined: bool,
    chain: &'a Chain<MAX_REQUEST>,
    c: &'a Command<'_>,
) -> Command<'a>
    ensures { plain_command result ≡ record (plain_command c.now) { body = if is_joined then chain.now.body else c.now.body.now } }
{
    let body = if is_joined { chain.body() } else { c.body };
    Command {
        cla: c.cla,
        ins: c.ins,
        p1: c.p1,
        p2: c.p2,
        body,
        ne: c.ne,
    }
}
