//! Chip authentication (BSI TR-03110-3): its selection and its step.
ghost use Rattle.std.specs.Prelude.{◌≡◌, ◌≤◌, ◌++◌, [], length, true, false, Some, Option};
ghost use Rattle.arrayvec.specs.ArrayVec.{array_vec_len};
ghost use Rattle.eid_apdu.specs.Answer.{plain_reply};
ghost use Rattle.eid_apdu.specs.Command.{plain_command};
ghost use Rattle.eid_record.specs.Plain.{FullRecord};
ghost use Rattle.eid_sm.specs.Keys.{ChannelState};
ghost use Rattle.eid_chip.specs.Endings.{reacted};
ghost use Rattle.eid_chip.specs.States.{next_in_authentication, state};
ghost use Rattle.eid_record.specs.View.{record_view};
ghost use Rattle.eid_tlv.specs.Objects.{object};
ghost use Rattle.eid_ca.specs.View.{proven_view};
ghost use Rattle.eid_model.specs.Answers.{data_alone};
ghost use Rattle.eid_chip.specs.Steps.{IsAnsweredByKind, Stepped, state_left, state_with_chip};

use crate::authentication::{append, point_in, put_in_data};
use crate::ending::{carried_out, refused};
use crate::reaction::Reaction;
use crate::refusal::{
    BODY_FORM, CHIP_IS_PROVEN, FAULT, NO_PACE, NO_POINT, NO_STEP, NO_TERMINAL, OTHER_KEY,
};
use crate::session::{Authentication, Session};
use arrayvec::ArrayVec;
use eid_apdu::{Command, Reply};
use eid_base::Rule;
use eid_ca::{CaChosen, Proven, names_chip_authentication, rules};
use eid_copro::Coprocessor;
use eid_model::Kind;
use eid_record::Record;
use eid_sm::Channel;

/// MSE:Set AT for chip authentication: a run begins with its protocol, and the key that the terminal announced. Rule 10 is a
/// body of another form, rule 20 that there is no PACE, rule 26 that there is no terminal authentication, rule 27 that the
/// chip has authenticated itself already.
pub fn select_chip_authentication(
    session: &mut Session,
    c: &Command<'_>,
    reply: &mut Reply,
) -> Reaction
    ensures told { (kept : FullRecord) (channel : Option ChannelState)
        → IsAnsweredByKind Kind.SelectChipAuthentication kept (state session.old channel) (plain_command c.now) [] (reacted result session.new) (plain_reply reply.new) }
    ensures small { array_vec_len reply.new.content ≤ 2048 }
{
    if !names_chip_authentication(c.body) {
        return refused(BODY_FORM, session, reply);
    }
    if session.memory.pace.is_none() {
        return refused(NO_PACE, session, reply);
    }
    let Some(terminal) = &session.memory.terminal else {
        return refused(NO_TERMINAL, session, reply);
    };
    if session.memory.chip_proven {
        return refused(CHIP_IS_PROVEN, session, reply);
    }
    match CaChosen::select(c.body, terminal) {
        Ok(chosen) => {
            session.authenticate(Authentication::CaChosen(chosen));
            carried_out(reply)
        }
        Err(_) => refused(BODY_FORM, session, reply),
    }
}

/// Makes the reply the one of chip authentication: the nonce in 81 and the token in 82.
fn put_proof(proven: &Proven, reply: &mut Reply)
    ensures plain { plain_reply reply.new ≡ data_alone (object 0x7C (object 0x81 proven.now.nonce ++ object 0x82 proven.now.token)) }
    ensures small { array_vec_len reply.new.content ≤ 2048 }
{
    let mut inner = ArrayVec::<u8, 64>::new();
    append(&mut inner, 0x81, &proven.nonce);
    append(&mut inner, 0x82, &proven.token);
    put_in_data(inner.as_slice(), reply);
}

/// The step where the chip has proven its key: the nonce and the token are sent, and the channel has other keys from then
/// on.
fn accept(proven: Proven, session: &mut Session, reply: &mut Reply) -> Reaction
    ensures rule { result.rule.0 ≡ 0 }
    ensures reply { plain_reply reply.new ≡ data_alone (object 0x7C (object 0x81 proven.nonce ++ object 0x82 proven.token)) }
    ensures small { array_vec_len reply.new.content ≤ 2048 }
    ensures left { (channel : Option ChannelState) → state_left (reacted result session.new) channel ≡ state_with_chip session.old.memory (proven_view proven) }
{
    put_proof(&proven, reply);
    session.end_run();
    session.memory.chip_proven = true;
    Reaction {
        rule: Rule(0),
        opened: Some(Channel::new(proven.keys)),
    }
}

/// The GENERAL AUTHENTICATE of chip authentication, with the terminal's point in 80: a nonce is sent in 81, and the chip's
/// token in 82. Rule 10 is a body of another form, rule 41 a point other than the one announced, rule 50 a fault of the
/// coprocessor, rule 52 that what was agreed is no point.
pub fn authenticate_chip<C: Coprocessor>(
    session: &mut Session,
    kept: &Record,
    copro: &mut C,
    c: &Command<'_>,
    reply: &mut Reply,
) -> Reaction
    requires room { 2 ≤ (C.seen copro.old).spare }
    requires turn { next_in_authentication session.old.authentication ≡ Some Kind.AuthenticateChip }
    ensures told { (full : FullRecord) → full.fields ≡ record_view kept.now
        → Stepped (C.seen copro.old) (C.seen copro.new) Kind.AuthenticateChip full session.old (plain_command c.now) (reacted result session.new) (plain_reply reply.new) }
    ensures small { array_vec_len reply.new.content ≤ 2048 }
{
    let Some(point) = point_in(c.body, 0x80) else {
        return refused(BODY_FORM, session, reply);
    };
    let Authentication::CaChosen(chosen) = session.take_authentication() else {
        return refused(NO_STEP, session, reply);
    };
    match chosen.prove(kept, &point, copro) {
        Ok(proven) => accept(proven, session, reply),
        Err(rules::OTHER_KEY) => refused(OTHER_KEY, session, reply),
        Err(rules::NO_POINT) => refused(NO_POINT, session, reply),
        Err(_) => refused(FAULT, session, reply),
    }
}
