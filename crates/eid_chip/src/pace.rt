//! PACE (BSI TR-03110-2 and TR-03110-3): its selection and its four steps.
ghost use Rattle.std.specs.Prelude.{◌≡◌, ◌≤◌, ◌++◌, [], true, false, Option, Some};
ghost use Rattle.arrayvec.specs.ArrayVec.{array_vec_len};
ghost use Rattle.eid_apdu.specs.Answer.{plain_reply};
ghost use Rattle.eid_record.specs.View.{record_view};
ghost use Rattle.eid_tlv.specs.Objects.{object};
ghost use Rattle.eid_model.specs.Answers.{data_alone, previous_name};
ghost use Rattle.eid_apdu.specs.Command.{PlainCommand, plain_command};
ghost use Rattle.eid_record.specs.Plain.{FullRecord};
ghost use Rattle.eid_sm.specs.Keys.{ChannelState};
ghost use Rattle.eid_store.specs.Store as stored;
ghost use Rattle.eid_chip.specs.Held.{held};
ghost use Rattle.eid_copro.specs.Seen.{CoproSeen};
ghost use Rattle.eid_password.specs.Passwords.{is_pin};
ghost use Rattle.eid_pace.specs.View.{agreed_view, done_view};
ghost use Rattle.eid_chip.specs.Commits.{SameLayout};
ghost use Rattle.eid_chip.specs.Tries.{IsTryLeft};
ghost use Rattle.eid_chip.specs.Worlds.{world};
ghost use Rattle.eid_model.specs.Sessions.{channel_after, keys_of, memory_of};
ghost use Rattle.eid_chip.specs.declared.session.Authentication.{Authentication};
ghost use Rattle.eid_chip.specs.Endings.{ended, reacted};
ghost use Rattle.eid_chip.specs.States.{memory, next_in_run, state};
ghost use Rattle.eid_chip.specs.Steps.{Stepped, IsAnsweredByKind, IsEndedByKind, Performed, SendsToken, at_tokens, state_left, state_with_pace};

use crate::authentication::{append, is_no_data, point_in, put_data, put_in_data, token_in};
use crate::ending::{answered, carried_out_with, committed, lost, refused, uncommitted};
use crate::pin::LAST_NUMBER;
use crate::reaction::{Ending, Reaction};
use crate::refusal::{
    BODY_FORM, FAULT, NO_NUMBER, NO_PASSWORD, NO_POINT, NO_STEP, SAME_POINT, WRONG_TOKEN,
    start_refusal, wrong_pin,
};
use crate::session::{LastPace, Run, Session};
use arrayvec::ArrayVec;
use eid_apdu::{Command, Reply};
use eid_base::Rule;
use eid_cells::Eeprom;
use eid_copro::Coprocessor;
use eid_cvc::ChainState;
use eid_model::Kind;
use eid_pace::{Agreed, Chosen, Done, rules};
use eid_password::select_status;
use eid_record::{Effect, Password, Record};
use eid_sm::Channel;
use eid_store::Store;

/// MSE:Set AT for PACE: a run begins with the password and the template that were chosen, and the status tells of the
/// PIN that it is deactivated, or how many tries are left. Rule 10 is a body of another form, rule 11 a reference of no
/// password.
pub fn select_pace(
    session: &mut Session,
    kept: &Record,
    c: &Command<'_>,
    reply: &mut Reply,
) -> Reaction
    ensures told { (full : FullRecord) (channel : Option ChannelState) → full.fields ≡ record_view kept.now
        → IsAnsweredByKind Kind.SelectPace full (state session.old channel) (plain_command c.now) [] (reacted result session.new) (plain_reply reply.new) }
    ensures small { array_vec_len reply.new.content ≤ 2048 }
{
    match Chosen::select(c.body) {
        Ok(chosen) => {
            let status = select_status(kept, chosen.password());
            session.go_on(Run::Chosen(chosen));
            carried_out_with(status, reply)
        }
        Err(rules::BODY_FORM) => refused(BODY_FORM, session, reply),
        Err(_) => refused(NO_PASSWORD, session, reply),
    }
}

/// The first step: a nonce is drawn, and sent encrypted in 80. Rule 10 is a body other than the empty 7C; the rules 15,
/// 16 and 17 are that the PIN is deactivated, blocked or suspended; rule 50 is a fault of the coprocessor.
pub fn encrypted_nonce<E: Eeprom, C: Coprocessor>(
    session: &mut Session,
    store: &Store,
    cells: &E,
    copro: &mut C,
    c: &Command<'_>,
    reply: &mut Reply,
) -> Reaction
    requires fits { stored.Fits store.now (E.device cells.now) (E.cells cells.now) }
    requires room { 2 ≤ (C.seen copro.old).spare }
    requires turn { next_in_run session.old.run ≡ Some Kind.EncryptedNonce }
    ensures told { Stepped (C.seen copro.old) (C.seen copro.new) Kind.EncryptedNonce (held (E.cells cells.now)) session.old (plain_command c.now) (reacted result session.new)
        (plain_reply reply.new) }
    ensures small { array_vec_len reply.new.content ≤ 2048 }
{
    let _ = cells;
    if !is_no_data(c.body) {
        return refused(BODY_FORM, session, reply);
    }
    let by_can = session.memory.was_with_can();
    let Run::Chosen(chosen) = session.take_run() else {
        return refused(NO_STEP, session, reply);
    };
    match chosen.send_nonce(store.kept(), by_can, copro) {
        Ok(given) => {
            let (sent, encrypted) = given;
            put_data(0x80, &encrypted, reply);
            session.go_on(Run::NonceSent(sent));
            answered()
        }
        Err(rule) => refused(start_refusal(rule), session, reply),
    }
}

/// The second step: the nonce is mapped to a base with the terminal's point in 81, and the chip's point is
/// sent in 82. Rule 10 is a body of another form, rule 50 a fault of the coprocessor, rule 52 that the
/// mapping is no point.
pub fn map_nonce<C: Coprocessor>(
    session: &mut Session,
    copro: &mut C,
    c: &Command<'_>,
    reply: &mut Reply,
) -> Reaction
    requires room { 2 ≤ (C.seen copro.old).spare }
    requires turn { next_in_run session.old.run ≡ Some Kind.MapNonce }
    ensures told { (kept : FullRecord) → Stepped (C.seen copro.old) (C.seen copro.new) Kind.MapNonce kept session.old (plain_command c.now) (reacted result session.new)
        (plain_reply reply.new) }
    ensures small { array_vec_len reply.new.content ≤ 2048 }
{
    let Some(peer) = point_in(c.body, 0x81) else {
        return refused(BODY_FORM, session, reply);
    };
    let Run::NonceSent(sent) = session.take_run() else {
        return refused(NO_STEP, session, reply);
    };
    match sent.map(&peer, copro) {
        Ok(given) => {
            let (mapped, public) = given;
            put_data(0x82, &public, reply);
            session.go_on(Run::Mapped(mapped));
            answered()
        }
        Err(rules::NO_POINT) => refused(NO_POINT, session, reply),
        Err(_) => refused(FAULT, session, reply),
    }
}

/// The third step: a secret is agreed with the terminal's ephemeral point in 83, and the chip's is sent in 84.
/// Rule 10 is a body of another form, rule 50 a fault of the coprocessor, rule 51 that both points are the
/// same, rule 52 that what was agreed is no point.
pub fn perform_key_agreement<C: Coprocessor>(
    session: &mut Session,
    copro: &mut C,
    c: &Command<'_>,
    reply: &mut Reply,
) -> Reaction
    requires room { 2 ≤ (C.seen copro.old).spare }
    requires turn { next_in_run session.old.run ≡ Some Kind.PerformKeyAgreement }
    ensures told { (kept : FullRecord) → Stepped (C.seen copro.old) (C.seen copro.new) Kind.PerformKeyAgreement kept session.old (plain_command c.now) (reacted result session.new)
        (plain_reply reply.new) }
    ensures small { array_vec_len reply.new.content ≤ 2048 }
{
    let Some(peer) = point_in(c.body, 0x83) else {
        return refused(BODY_FORM, session, reply);
    };
    let Run::Mapped(mapped) = session.take_run() else {
        return refused(NO_STEP, session, reply);
    };
    match mapped.agree(&peer, copro) {
        Ok(given) => {
            let (agreed, public) = given;
            put_data(0x84, &public, reply);
            session.go_on(Run::Agreed(agreed));
            answered()
        }
        Err(rules::SAME_POINT) => refused(SAME_POINT, session, reply),
        Err(rules::NO_POINT) => refused(NO_POINT, session, reply),
        Err(_) => refused(FAULT, session, reply),
    }
}

/// What the last reply holds in 7C: the chip's token in 86, and in 87 and 88 the names of the trust points.
fn token_content(token: &[u8; 8], kept: &Record) -> ArrayVec<u8, 64>
    ensures items { result.items ≡ object 0x86 token.now ++ object 0x87 (record_view kept.now).current.name ++ previous_name (record_view kept.now).previous }
    ensures size { array_vec_len result ≤ 64 }
{
    let mut content = ArrayVec::new();
    append(&mut content, 0x86, token);
    append(&mut content, 0x87, kept.current.name.as_slice());
    if let Some(previous) = &kept.previous {
        append(&mut content, 0x88, previous.name.as_slice());
    }
    content
}

/// Makes the reply the last one.
fn put_token(token: &[u8; 8], kept: &Record, reply: &mut Reply)
    ensures plain { plain_reply reply.new ≡ data_alone (object 0x7C (object 0x86 token.now ++ object 0x87
        (record_view kept.now).current.name ++ previous_name (record_view kept.now).previous)) }
    ensures small { array_vec_len reply.new.content ≤ 2048 }
{
    let inner = token_content(token, kept);
    put_in_data(inner.as_slice(), reply);
}

/// What is kept of a PACE.
fn last_pace(done: &Done) -> LastPace
    ensures { memory result ≡ memory_of (done_view done.now) }
{
    let identity = done.identity;
    LastPace {
        password: done.password,
        template: done.template,
        identity,
    }
}

/// The channel that a PACE opens.
fn channel_of(done: &Done) -> Channel
    ensures { result ≡ channel_after 0 (keys_of (done_view done.now)) }
{
    Channel::new(done.keys)
}

/// The last step where the terminal's token was right: the chip's is sent in 86 with the names of the trust points in 87
/// and 88, and the channel is opened.
fn accept(
    done: &Done,
    token: &[u8; 8],
    kept: &Record,
    session: &mut Session,
    reply: &mut Reply,
) -> Reaction
    ensures rule { result.rule.0 ≡ 0 }
    ensures reply { plain_reply reply.new ≡ data_alone (object 0x7C (object 0x86 token.now ++ object 0x87
        (record_view kept.now).current.name ++ previous_name (record_view kept.now).previous)) }
    ensures small { array_vec_len reply.new.content ≤ 2048 }
    ensures left { (channel : Option ChannelState)
        → state_left (reacted result session.new) channel ≡ state_with_pace session.old.memory (done_view done.now) }
    ensures idle { session.new.run ≡ Run.Idle }
{
    put_token(token, kept, reply);
    session.end_run();
    session.memory.pace = Some(last_pace(done));
    session.memory.certificates = ChainState::new();
    session.memory.terminal = None;
    session.memory.chip_proven = false;
    Reaction {
        rule: Rule(0),
        opened: Some(channel_of(done)),
    }
}

/// The tokens of a PACE with another password than the PIN.
fn prove(
    agreed: Agreed,
    token: &[u8; 8],
    session: &mut Session,
    kept: &Record,
    reply: &mut Reply,
) -> Reaction
    requires other { is_pin (agreed_view agreed).choice.password ≡ false }
    ensures told { (full : FullRecord) (channel : Option ChannelState) (c : PlainCommand) (begun : Authentication)
        → full.fields ≡ record_view kept.now → SendsToken c token.now
        → IsAnsweredByKind Kind.MutualAuthentication full (state (at_tokens agreed begun session.old.memory) channel) c [] (reacted result session.new)
        (plain_reply reply.new) }
    ensures idle { session.new.run ≡ Run.Idle }
    ensures small { array_vec_len reply.new.content ≤ 2048 }
{
    let Ok(given) = agreed.check(token, None) else {
        return refused(WRONG_TOKEN, session, reply);
    };
    let (done, own_token) = given;
    accept(&done, &own_token, kept, session, reply)
}

/// The tokens of a PACE with the PIN. A try is spent before they are compared, and that commit's receipt pays for it; a
/// right token gives all tries back before it is answered. Rule 54 is that there is no commit number left, rule 55 that
/// the token is wrong.
fn prove_pin<E: Eeprom>(
    agreed: Agreed,
    token: &[u8; 8],
    session: &mut Session,
    store: &mut Store,
    cells: &mut E,
    reply: &mut Reply,
) -> Ending
    requires fits { stored.Fits store.old (E.device cells.old) (E.cells cells.old) }
    requires pin { is_pin (agreed_view agreed).choice.password ≡ true }
    requires try_left { 1 ≤ (stored.fields_of store.old).tries }
    requires idle { session.old.run ≡ Run.Idle }
    ensures ended { (copro : CoproSeen) (channel : Option ChannelState) (c : PlainCommand) (begun : Authentication) → SendsToken c token.now
        → IsEndedByKind Kind.MutualAuthentication (state (at_tokens agreed begun session.old.memory) channel) c [] (ended result session.new)
        (plain_reply reply.new)
        (world copro store.old (E.device cells.old) (E.cells cells.old)) (world copro store.new (E.device cells.new) (E.cells cells.new)) }
    ensures layout { SameLayout (E.cells cells.old) (E.cells cells.new) }
    ensures idle { session.new.run ≡ Run.Idle }
    ensures small { array_vec_len reply.new.content ≤ 2048 }
{
    if store.kept().number > LAST_NUMBER {
        return uncommitted(refused(NO_NUMBER, session, reply));
    }
    let Ok(receipt) = store.commit(cells, &Effect::Spend) else {
        return lost(0, reply);
    };
    let wrong = wrong_pin(store.kept().tries);
    let Ok(given) = agreed.check(token, Some(receipt)) else {
        return committed(refused(wrong, session, reply), 1);
    };
    let Ok(_) = store.commit(cells, &Effect::Refill) else {
        return lost(1, reply);
    };
    let (done, own_token) = given;
    committed(accept(&done, &own_token, store.kept(), session, reply), 2)
}

/// The last step: the terminal's token in 85 is compared, the chip's is sent in 86 with the names of the trust
/// points in 87 and 88, and the channel is opened. Rule 10 is a body of another form, rule 54 that there is no commit
/// number left for the tries of the PIN, rule 55 that the token is wrong.
pub fn mutual_authentication<E: Eeprom>(
    session: &mut Session,
    store: &mut Store,
    cells: &mut E,
    c: &Command<'_>,
    reply: &mut Reply,
) -> Ending
    requires fits { stored.Fits store.old (E.device cells.old) (E.cells cells.old) }
    requires turn { next_in_run session.old.run ≡ Some Kind.MutualAuthentication }
    requires try_left { IsTryLeft session.old.run (stored.fields_of store.old) }
    ensures performed { (copro : CoproSeen)
        → Performed Kind.MutualAuthentication session.old (plain_command c.now) (ended result session.new) (plain_reply reply.new)
        (world copro store.old (E.device cells.old) (E.cells cells.old)) (world copro store.new (E.device cells.new) (E.cells cells.new)) }
    ensures idle { session.new.run ≡ Run.Idle }
    ensures small { array_vec_len reply.new.content ≤ 2048 }
{
    let Some(token) = token_in(c.body) else {
        return uncommitted(refused(BODY_FORM, session, reply));
    };
    let Run::Agreed(agreed) = session.take_run() else {
        return uncommitted(refused(NO_STEP, session, reply));
    };
    match agreed.password() {
        Password::Pin => prove_pin(agreed, &token, session, store, cells, reply),
        _ => uncommitted(prove(agreed, &token, session, store.kept(), reply)),
    }
}
