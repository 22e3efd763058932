//! The management of the PIN by RESET RETRY COUNTER (BSI TR-03110-3), and what commits one effect.
ghost use Rattle.std.specs.Prelude.{◌≡◌, ◌≤◌, List, true, false, IfSome, IfNone, Option, Some};
ghost use Rattle.std.specs.List.{list_all};
ghost use Rattle.arrayvec.specs.ArrayVec.{array_vec_len};
ghost use Rattle.eid_apdu.specs.Answer.{plain_reply};
ghost use Rattle.eid_apdu.specs.Command.{PlainCommand, plain_command};
ghost use Rattle.eid_copro.specs.Seen.{CoproSeen};
ghost use Rattle.eid_copro.specs.declared.ask.Ask.{Ask};
ghost use Rattle.eid_record.specs.Effect.{CanApply};
ghost use Rattle.eid_record.specs.EffectView.{effect_view};
ghost use Rattle.std.specs.Char.{is_ascii_digit};
ghost use Rattle.eid_record.specs.Valid.{AreDigits};
ghost use Rattle.eid_sm.specs.Keys.{ChannelState};
ghost use Rattle.eid_store.specs.Store as stored;
ghost use Rattle.eid_model.specs.Rules.{is_formed};
ghost use Rattle.eid_chip.specs.Commits.{SameLayout};
ghost use Rattle.eid_chip.specs.Granting.{activation};
ghost use Rattle.eid_chip.specs.Held.{held};
ghost use Rattle.eid_chip.specs.Endings.{ended};
ghost use Rattle.eid_chip.specs.States.{state};
ghost use Rattle.eid_chip.specs.Steps.{CommitsOne, IsEndedByKind, Performed};
ghost use Rattle.eid_chip.specs.Worlds.{world};

use crate::ending::{carried_out, committed, lost, refused, uncommitted};
use crate::reaction::Ending;
use crate::refusal::{BODY_FORM, NO_NUMBER};
use crate::rights::{check_change, check_manager, check_unblocking, was_with_puk};
use crate::session::{Change, Run, Session};
use eid_apdu::{Command, Reply};
use eid_cells::Eeprom;
use eid_model::Kind;
use eid_record::Effect;
use eid_store::Store;

/// The greatest commit number after which commits are made: the last step of PACE may make two more.
pub const LAST_NUMBER: u32 = 4_294_967_293;

/// How many digits a PIN has.
const PIN_SIZE: usize = 6;

/// Whether these bytes are ASCII digits.
fn are_digits(bytes: &[u8]) -> bool
    ensures { result ≡ list_all is_ascii_digit bytes.now }
{
    bytes.iter().all(|byte| byte.is_ascii_digit())
}

/// The PIN that a body is, where it is one.
fn pin_in(body: &[u8]) -> Option<[u8; PIN_SIZE]>
    ensures found { IfSome result (λ pin. (pin ≡ body.now) × AreDigits 6 pin × (is_formed (Some Kind.ChangePin) body.now ≡ true)) }
    ensures none { IfNone result (is_formed (Some Kind.ChangePin) body.now ≡ false) }
{
    if body.len() != PIN_SIZE {
        return None;
    }
    if !are_digits(body) {
        return None;
    }
    let mut pin = [0; PIN_SIZE];
    pin.copy_from_slice(body);
    Some(pin)
}

/// The end of a command that commits one effect, and of which nothing else is to be refused: it is committed, and 9000
/// answered, and the session changed with it. Rule 54 is that there is no commit number left.
pub fn commit_one<E: Eeprom>(
    effect: &Effect<'_>,
    change: Change,
    session: &mut Session,
    store: &mut Store,
    cells: &mut E,
    reply: &mut Reply,
) -> Ending
    requires fits { stored.Fits store.old (E.device cells.old) (E.cells cells.old) }
    requires effect { CanApply (effect_view effect.now) (stored.fields_of store.old) }
    ensures ended { (before after : CoproSeen) (channel : Option ChannelState) (kind : Kind) (c : PlainCommand) (asks : List Ask)
        → CommitsOne kind (held (E.cells cells.old)) (state session.old channel) c asks (effect_view effect.now) change
        → IsEndedByKind kind (state session.old channel) c asks (ended result session.new) (plain_reply reply.new)
        (world before store.old (E.device cells.old) (E.cells cells.old)) (world after store.new (E.device cells.new) (E.cells cells.new)) }
    ensures layout { SameLayout (E.cells cells.old) (E.cells cells.new) }
    ensures idle { session.new.run ≡ Run.Idle }
    ensures small { array_vec_len reply.new.content ≤ 2048 }
{
    if store.kept().number > LAST_NUMBER {
        return uncommitted(refused(NO_NUMBER, session, reply));
    }
    session.leave(change);
    let Ok(_) = store.commit(cells, effect) else {
        return lost(0, reply);
    };
    committed(carried_out(reply), 1)
}

/// RESET RETRY COUNTER with a new PIN, in a channel that the PIN opened, or by a terminal that may manage the PIN. Rule 10 is
/// a body other than six digits, rule 20 that there is no PACE, rule 29 that it was with another password and no such
/// terminal is there, rule 54 that there is no commit number left.
pub fn change_pin<E: Eeprom>(
    session: &mut Session,
    store: &mut Store,
    cells: &mut E,
    c: &Command<'_>,
    reply: &mut Reply,
) -> Ending
    requires fits { stored.Fits store.old (E.device cells.old) (E.cells cells.old) }
    ensures performed { (copro : CoproSeen) → Performed Kind.ChangePin session.old (plain_command c.now) (ended result session.new) (plain_reply reply.new)
        (world copro store.old (E.device cells.old) (E.cells cells.old)) (world copro store.new (E.device cells.new) (E.cells cells.new)) }
    ensures idle { session.new.run ≡ Run.Idle }
    ensures small { array_vec_len reply.new.content ≤ 2048 }
{
    let Some(pin) = pin_in(c.body) else {
        return uncommitted(refused(BODY_FORM, session, reply));
    };
    if let Err(refusal) = check_change(&session.memory) {
        return uncommitted(refused(refusal, session, reply));
    }
    commit_one(
        &Effect::SetPin(pin),
        Change::Nothing,
        session,
        store,
        cells,
        reply,
    )
}

/// RESET RETRY COUNTER without data, in a channel that the PUK opened, or by a terminal that may manage the PIN: the tries of
/// the PIN are given back. Rule 10 is a body, rule 20 that there is no PACE, rule 29 that it was with another password and
/// no such terminal is there, rule 30 that no unblocking by the PUK is left, rule 54 that there is no commit number left.
pub fn unblock_pin<E: Eeprom>(
    session: &mut Session,
    store: &mut Store,
    cells: &mut E,
    c: &Command<'_>,
    reply: &mut Reply,
) -> Ending
    requires fits { stored.Fits store.old (E.device cells.old) (E.cells cells.old) }
    ensures performed { (copro : CoproSeen) → Performed Kind.UnblockPin session.old (plain_command c.now) (ended result session.new) (plain_reply reply.new)
        (world copro store.old (E.device cells.old) (E.cells cells.old)) (world copro store.new (E.device cells.new) (E.cells cells.new)) }
    ensures idle { session.new.run ≡ Run.Idle }
    ensures small { array_vec_len reply.new.content ≤ 2048 }
{
    if !c.body.is_empty() {
        return uncommitted(refused(BODY_FORM, session, reply));
    }
    if let Err(refusal) = check_unblocking(&session.memory, store.kept().unblocks) {
        return uncommitted(refused(refusal, session, reply));
    }
    let by_puk = was_with_puk(&session.memory);
    commit_one(
        &Effect::Unblock { by_puk },
        Change::Nothing,
        session,
        store,
        cells,
        reply,
    )
}

/// RESET RETRY COUNTER with a new card access number, by a terminal that may manage it. Rule 10 is a body other than six
/// digits, rule 20 that there is no PACE, the rules 26, 28, 31 and 33 are those of `check_manager`, rule 54 that there is no
/// commit number left.
pub fn change_can<E: Eeprom>(
    session: &mut Session,
    store: &mut Store,
    cells: &mut E,
    c: &Command<'_>,
    reply: &mut Reply,
) -> Ending
    requires fits { stored.Fits store.old (E.device cells.old) (E.cells cells.old) }
    ensures performed { (copro : CoproSeen) → Performed Kind.ChangeCan session.old (plain_command c.now) (ended result session.new) (plain_reply reply.new)
        (world copro store.old (E.device cells.old) (E.cells cells.old)) (world copro store.new (E.device cells.new) (E.cells cells.new)) }
    ensures idle { session.new.run ≡ Run.Idle }
    ensures small { array_vec_len reply.new.content ≤ 2048 }
{
    let Some(can) = pin_in(c.body) else {
        return uncommitted(refused(BODY_FORM, session, reply));
    };
    if let Err(refusal) = check_manager(&session.memory) {
        return uncommitted(refused(refusal, session, reply));
    }
    commit_one(
        &Effect::SetCan(can),
        Change::Nothing,
        session,
        store,
        cells,
        reply,
    )
}

/// ACTIVATE and DEACTIVATE of the PIN, by a terminal that may manage it. Rule 10 is a body, rule 20 that there is no PACE, the
/// rules 26, 28, 31 and 33 are those of `check_manager`, rule 54 that there is no commit number left.
pub fn set_active<E: Eeprom>(
    active: bool,
    session: &mut Session,
    store: &mut Store,
    cells: &mut E,
    c: &Command<'_>,
    reply: &mut Reply,
) -> Ending
    requires fits { stored.Fits store.old (E.device cells.old) (E.cells cells.old) }
    ensures performed { (copro : CoproSeen) → Performed (activation active) session.old (plain_command c.now) (ended result session.new) (plain_reply reply.new)
        (world copro store.old (E.device cells.old) (E.cells cells.old)) (world copro store.new (E.device cells.new) (E.cells cells.new)) }
    ensures idle { session.new.run ≡ Run.Idle }
    ensures small { array_vec_len reply.new.content ≤ 2048 }
{
    if !c.body.is_empty() {
        return uncommitted(refused(BODY_FORM, session, reply));
    }
    if let Err(refusal) = check_manager(&session.memory) {
        return uncommitted(refused(refusal, session, reply));
    }
    commit_one(
        &Effect::Active(active),
        Change::Nothing,
        session,
        store,
        cells,
        reply,
    )
}
