//! UPDATE BINARY (ISO/IEC 7816-4).
ghost use Rattle.std.specs.Prelude.{◌≡◌, ◌≤◌, length, if◌then◌else◌};
ghost use Rattle.arrayvec.specs.ArrayVec.{array_vec_len};
ghost use Rattle.eid_apdu.specs.Answer.{plain_reply};
ghost use Rattle.eid_apdu.specs.Command.{plain_command};
ghost use Rattle.eid_bits.specs.Date.{is_between};
ghost use Rattle.eid_copro.specs.Seen.{CoproSeen};
ghost use Rattle.eid_store.specs.Store as stored;
ghost use Rattle.eid_model.specs.Rules.{group_of};
ghost use Rattle.eid_chip.specs.Endings.{ended};
ghost use Rattle.eid_chip.specs.Steps.{Performed};
ghost use Rattle.eid_chip.specs.Worlds.{world};

use crate::ending::{refused, uncommitted};
use crate::files::file_length;
use crate::pin::commit_one;
use crate::reaction::Ending;
use crate::refusal::{BODY_FORM, NO_CURRENT_FILE, NO_FILE, NOT_NAMED, NOT_WRITABLE, bad_range};
use crate::rights::check_writing;
use crate::select::{meant_file, meant_offset, naming};
use crate::session::{Run, Session};
use eid_apdu::{Command, Reply};
use eid_cells::Eeprom;
use eid_files::{data_group_of, write_range};
use eid_model::Kind;
use eid_record::{Effect, FileNo};
use eid_store::Store;

/// The first data group that may be written (BSI TR-03110-4); the last one is the last that there is.
const FIRST_WRITABLE: u8 = 17;

/// Whether the file is a data group that may be written: 17 to 21.
fn is_writable(file: FileNo) -> bool
    ensures { result ≡ is_between 17 21 (group_of file.0) }
{
    match data_group_of(file) {
        Some(group) => FIRST_WRITABLE <= group,
        None => false,
    }
}

/// UPDATE BINARY. Rule 10 is an empty body, rule 12 that there is no current file, rule 13 an unknown identifier, rule 14 a
/// file that may not be written, the rules 20, 26, 28, 31, 32 and 33 are those of `check_writing`, rule 37 is that the file
/// is absent, rule 38 an offset behind its end, rule 39 more bytes than there are from there on, rule 54 that there is no
/// commit number left.
pub fn update_binary<E: Eeprom>(
    session: &mut Session,
    store: &mut Store,
    cells: &mut E,
    c: &Command<'_>,
    reply: &mut Reply,
) -> Ending
    requires fits { stored.Fits store.old (E.device cells.old) (E.cells cells.old) }
    requires short { length c.now.body.now ≤ 2048 }
    ensures performed { (copro : CoproSeen) → Performed Kind.UpdateBinary session.old (plain_command c.now) (ended result session.new) (plain_reply reply.new)
        (world copro store.old (E.device cells.old) (E.cells cells.old)) (world copro store.new (E.device cells.new) (E.cells cells.new)) }
    ensures idle { session.new.run ≡ Run.Idle }
    ensures small { array_vec_len reply.new.content ≤ 2048 }
{
    if c.body.is_empty() {
        return uncommitted(refused(BODY_FORM, session, reply));
    }
    if c.p1 < 0x80 && session.memory.current.is_none() {
        return uncommitted(refused(NO_CURRENT_FILE, session, reply));
    }
    let Some(file) = meant_file(session, c) else {
        return uncommitted(refused(NOT_NAMED, session, reply));
    };
    if !is_writable(file) {
        return uncommitted(refused(NOT_WRITABLE, session, reply));
    }
    if let Err(refusal) = check_writing(&session.memory, file) {
        return uncommitted(refused(refusal, session, reply));
    }
    let Some(length) = file_length(store, cells, file) else {
        return uncommitted(refused(NO_FILE, session, reply));
    };
    let offset = meant_offset(c);
    if let Err(rule) = write_range(length, offset, c.body.len() as u16) {
        return uncommitted(refused(bad_range(rule), session, reply));
    }
    let effect = Effect::Write {
        file,
        offset,
        bytes: c.body,
    };
    commit_one(&effect, naming(c, file), session, store, cells, reply)
}
