//! Terminal authentication (BSI TR-03110-3): the announcement, the challenge and the signature.
ghost use Rattle.std.specs.Prelude.{◌≡◌, ◌==◌, ◌≤◌, [], length, false, Option, Some, IfSome, IfNone};
ghost use Rattle.arrayvec.specs.ArrayVec.{array_vec_len};
ghost use Rattle.eid_apdu.specs.Answer.{plain_reply};
ghost use Rattle.eid_apdu.specs.Command.{plain_command};
ghost use Rattle.eid_record.specs.Plain.{FullRecord};
ghost use Rattle.eid_sm.specs.Keys.{ChannelState};
ghost use Rattle.eid_chip.specs.Endings.{reacted};
ghost use Rattle.eid_chip.specs.States.{next_in_authentication, state};
ghost use Rattle.eid_model.specs.Rules.{SIGNATURE_SIZE};
ghost use Rattle.eid_chip.specs.Steps.{IsAnsweredByKind, Stepped};

use crate::authentication::put_plain;
use crate::ending::{answered, carried_out, refused};
use crate::reaction::Reaction;
use crate::refusal::{
    BODY_FORM, FAULT, NO_CHAIN, NO_PACE, NO_STEP, NO_TEMPLATE, OTHER_TERMINAL, TERMINAL_IS_KNOWN,
    WRONG_SIGNATURE,
};
use crate::session::{Authentication, Session};
use eid_apdu::{Command, Reply};
use eid_base::Signature;
use eid_copro::Coprocessor;
use eid_model::Kind;
use eid_ta::{Announced, read_announcement, rules};

/// MSE:Set AT for terminal authentication: a run begins with what the terminal announces. Rule 10 is a body of another form,
/// rule 20 that there is no PACE, rule 21 that it had no template, rule 22 that a terminal has authenticated itself, rule
/// 24 that there is no chain of certificates, rule 25 that its terminal has another name.
pub fn announce_terminal(session: &mut Session, c: &Command<'_>, reply: &mut Reply) -> Reaction
    requires { length c.now.body.now ≤ 2048 }
    ensures told { (kept : FullRecord) (channel : Option ChannelState)
        → IsAnsweredByKind Kind.AnnounceTerminal kept (state session.old channel) (plain_command c.now) [] (reacted result session.new) (plain_reply reply.new) }
    ensures small { array_vec_len reply.new.content ≤ 2048 }
{
    let Ok(announcement) = read_announcement(c.body) else {
        return refused(BODY_FORM, session, reply);
    };
    let Some(pace) = &session.memory.pace else {
        return refused(NO_PACE, session, reply);
    };
    if pace.template.is_none() {
        return refused(NO_TEMPLATE, session, reply);
    }
    if session.memory.terminal.is_some() {
        return refused(TERMINAL_IS_KNOWN, session, reply);
    }
    let identity = pace.identity;
    match Announced::begin(announcement, &session.memory.certificates) {
        Ok(announced) => {
            session.authenticate(Authentication::Announced {
                identity,
                announced,
            });
            carried_out(reply)
        }
        Err(rules::NO_CHAIN) => refused(NO_CHAIN, session, reply),
        Err(_) => refused(OTHER_TERMINAL, session, reply),
    }
}

/// GET CHALLENGE: a challenge is drawn and sent. Rule 10 is a body, rule 50 a fault of the coprocessor.
pub fn get_challenge<C: Coprocessor>(
    session: &mut Session,
    copro: &mut C,
    c: &Command<'_>,
    reply: &mut Reply,
) -> Reaction
    requires room { 2 ≤ (C.seen copro.old).spare }
    requires turn { next_in_authentication session.old.authentication ≡ Some Kind.GetChallenge }
    ensures told { (kept : FullRecord) → Stepped (C.seen copro.old) (C.seen copro.new) Kind.GetChallenge kept session.old (plain_command c.now) (reacted result session.new)
        (plain_reply reply.new) }
    ensures small { array_vec_len reply.new.content ≤ 2048 }
{
    if !c.body.is_empty() {
        return refused(BODY_FORM, session, reply);
    }
    let Authentication::Announced {
        identity,
        announced,
    } = session.take_authentication()
    else {
        return refused(NO_STEP, session, reply);
    };
    match announced.challenge(copro) {
        Ok(given) => {
            let (challenged, challenge) = given;
            put_plain(&challenge, reply);
            session.authenticate(Authentication::Challenged {
                identity,
                challenged,
            });
            answered()
        }
        Err(_) => refused(FAULT, session, reply),
    }
}

/// The signature that a body is, where it is one.
fn signature_in(body: &[u8]) -> Option<Signature>
    ensures found { IfSome result (λ signature. (signature ≡ body.now) × (length body.now ≡ SIGNATURE_SIZE)) }
    ensures none { IfNone result ((length body.now == SIGNATURE_SIZE) ≡ false) }
{
    let mut signature = [0; 64];
    if body.len() != signature.len() {
        return None;
    }
    signature.copy_from_slice(body);
    Some(signature)
}

/// EXTERNAL AUTHENTICATE: where the signature is the terminal's, it is known from then on. Rule 10 is a body of another
/// size, rule 50 a fault of the coprocessor, rule 53 a wrong signature.
pub fn external_authenticate<C: Coprocessor>(
    session: &mut Session,
    copro: &mut C,
    c: &Command<'_>,
    reply: &mut Reply,
) -> Reaction
    requires room { 2 ≤ (C.seen copro.old).spare }
    requires turn { next_in_authentication session.old.authentication ≡ Some Kind.ExternalAuthenticate }
    ensures told { (kept : FullRecord) → Stepped (C.seen copro.old) (C.seen copro.new) Kind.ExternalAuthenticate kept session.old (plain_command c.now)
        (reacted result session.new) (plain_reply reply.new) }
    ensures small { array_vec_len reply.new.content ≤ 2048 }
{
    let Some(signature) = signature_in(c.body) else {
        return refused(BODY_FORM, session, reply);
    };
    let Authentication::Challenged {
        identity,
        challenged,
    } = session.take_authentication()
    else {
        return refused(NO_STEP, session, reply);
    };
    match challenged.verify(&identity, &signature, copro) {
        Ok(terminal) => {
            session.memory.terminal = Some(terminal);
            session.memory.chip_proven = false;
            carried_out(reply)
        }
        Err(rules::WRONG_SIGNATURE) => refused(WRONG_SIGNATURE, session, reply),
        Err(_) => refused(FAULT, session, reply),
    }
}
