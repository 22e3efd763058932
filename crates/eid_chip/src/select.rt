//! SELECT and READ BINARY (ISO/IEC 7816-4).
ghost use Rattle.std.specs.Prelude.{◌≡◌, ◌≤◌, ◌-◌, [], length, true, false, Option, Some, option_map, if◌then◌else◌};
ghost use Rattle.arrayvec.specs.ArrayVec.{array_vec_len};
ghost use Rattle.eid_apdu.specs.Answer.{plain_reply};
ghost use Rattle.eid_apdu.specs.Command.{plain_command};
ghost use Rattle.eid_record.specs.Plain.{FullRecord};
ghost use Rattle.eid_store.specs.Store as stored;
ghost use Rattle.eid_files.specs.Names.{file_of_short};
ghost use Rattle.eid_model.specs.Kinds.{is_by_short};
ghost use Rattle.eid_model.specs.Rules.{file_meant, offset_meant};
ghost use Rattle.eid_chip.specs.Held.{held};
ghost use Rattle.eid_sm.specs.Keys.{ChannelState};
ghost use Rattle.eid_chip.specs.Endings.{reacted};
ghost use Rattle.eid_chip.specs.States.{state};
ghost use Rattle.eid_chip.specs.Steps.{IsAnsweredByKind, known};

use crate::ending::{answered, carried_out, refused};
use crate::files::{file_length, put_answer};
use crate::reaction::Reaction;
use crate::refusal::{BODY_FORM, NO_CURRENT_FILE, NO_FILE, NOT_NAMED, OFFSET};
use crate::rights::check_reading;
use crate::session::{Change, Session};
use eid_apdu::{Command, Reply};
use eid_cells::Eeprom;
use eid_files::{file_of_id, file_of_short, read_range};
use eid_model::Kind;
use eid_record::FileNo;
use eid_store::Store;

/// The identifier of the eID application (BSI TR-03110-4).
const APPLICATION_ID: [u8; 9] = [0xe8, 0x07, 0x04, 0x00, 0x7f, 0x00, 0x07, 0x03, 0x02];

/// SELECT of the application.
pub fn select_application(session: &mut Session, c: &Command<'_>, reply: &mut Reply) -> Reaction
    ensures told { (kept : FullRecord) (channel : Option ChannelState)
        → IsAnsweredByKind Kind.SelectApplication kept (state session.old channel) (plain_command c.now) [] (reacted result session.new) (plain_reply reply.new) }
    ensures small { array_vec_len reply.new.content ≤ 2048 }
{
    if c.body.is_empty() || c.body.len() > 16 {
        return refused(BODY_FORM, session, reply);
    }
    if c.body != APPLICATION_ID.as_slice() {
        return refused(NOT_NAMED, session, reply);
    }
    session.end_run();
    session.memory.selected = true;
    session.memory.current = None;
    carried_out(reply)
}

/// SELECT of the master file.
pub fn select_master_file(session: &mut Session, c: &Command<'_>, reply: &mut Reply) -> Reaction
    ensures told { (kept : FullRecord) (channel : Option ChannelState)
        → IsAnsweredByKind Kind.SelectMasterFile kept (state session.old channel) (plain_command c.now) [] (reacted result session.new) (plain_reply reply.new) }
    ensures small { array_vec_len reply.new.content ≤ 2048 }
{
    if !c.body.is_empty() && c.body != [0x3f, 0x00].as_slice() {
        return refused(BODY_FORM, session, reply);
    }
    session.end_run();
    session.memory.selected = false;
    session.memory.current = None;
    carried_out(reply)
}

/// SELECT of a file. It never tells whether the file is there.
pub fn select_file(session: &mut Session, c: &Command<'_>, reply: &mut Reply) -> Reaction
    ensures told { (kept : FullRecord) (channel : Option ChannelState)
        → IsAnsweredByKind Kind.SelectFile kept (state session.old channel) (plain_command c.now) [] (reacted result session.new) (plain_reply reply.new) }
    ensures small { array_vec_len reply.new.content ≤ 2048 }
{
    let [high, low] = c.body else {
        return refused(BODY_FORM, session, reply);
    };
    let Some(file) = file_of_id(u16::from(*high) * 256 + u16::from(*low)) else {
        return refused(NOT_NAMED, session, reply);
    };
    session.leave(Change::Current(file));
    carried_out(reply)
}

/// The file that READ BINARY or UPDATE BINARY means: of its short identifier, or the current one.
#[tactic(auto, unfolding(eid_model::specs::Rules::file_meant))]
pub fn meant_file(session: &Session, c: &Command<'_>) -> Option<FileNo>
    ensures file { (kind : Kind) (kept : FullRecord) (channel : Option ChannelState)
        → file_meant (known kind kept (state session.now channel) (plain_command c.now) []) ≡ option_map (λ file. file.0) result }
    ensures current { is_by_short (plain_command c.now) ≡ false → result ≡ session.now.memory.current }
    ensures named { is_by_short (plain_command c.now) ≡ true → file_of_short (c.now.p1 - 0x80) ≡ option_map (λ file. file.0) result }
{
    if c.p1 < 0x80 {
        session.memory.current
    } else {
        file_of_short(c.p1 - 0x80)
    }
}

/// The offset that it begins at: P2 behind a short identifier, else P1 and P2.
pub fn meant_offset(c: &Command<'_>) -> u16
    ensures { result ≡ offset_meant (plain_command c.now) }
{
    if c.p1 < 0x80 {
        u16::from(c.p1) * 256 + u16::from(c.p2)
    } else {
        u16::from(c.p2)
    }
}

/// What a READ BINARY or UPDATE BINARY of a file changes in the session: a short identifier names it.
pub fn naming(c: &Command<'_>, file: FileNo) -> Change
    ensures { result ≡ (if is_by_short (plain_command c.now) then Change.Current file else Change.Nothing) }
{
    if c.p1 < 0x80 {
        Change::Nothing
    } else {
        Change::Current(file)
    }
}

/// READ BINARY. Without PACE only EF.CardAccess is readable, and a data group only by a terminal that has the right. Rule 10 is
/// a body, rule 12 that there is no current file, rule 13 an unknown identifier, the rules 20, 26, 28, 31, 32 and 33 are those
/// of `check_reading`, rule 37 is that the file is absent, rule 38 an offset behind its end.
pub fn read_binary<E: Eeprom>(
    session: &mut Session,
    store: &Store,
    cells: &E,
    c: &Command<'_>,
    reply: &mut Reply,
) -> Reaction
    requires { stored.Fits store.now (E.device cells.now) (E.cells cells.now) }
    ensures told { (channel : Option ChannelState)
        → IsAnsweredByKind Kind.ReadBinary (held (E.cells cells.now)) (state session.old channel) (plain_command c.now) [] (reacted result session.new) (plain_reply reply.new) }
    ensures small { array_vec_len reply.new.content ≤ 2048 }
{
    if !c.body.is_empty() {
        return refused(BODY_FORM, session, reply);
    }
    if c.p1 < 0x80 && session.memory.current.is_none() {
        return refused(NO_CURRENT_FILE, session, reply);
    }
    let Some(file) = meant_file(session, c) else {
        return refused(NOT_NAMED, session, reply);
    };
    if let Err(refusal) = check_reading(&session.memory, file) {
        return refused(refusal, session, reply);
    }
    let Some(length) = file_length(store, cells, file) else {
        return refused(NO_FILE, session, reply);
    };
    let offset = meant_offset(c);
    let Ok((count, status)) = read_range(length, offset, c.ne) else {
        return refused(OFFSET, session, reply);
    };
    put_answer(store, cells, file, offset, count, status, reply);
    session.leave(naming(c, file));
    answered()
}
