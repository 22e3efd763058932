//! The bytes of files (BSI TR-03110-3 and -4).
ghost use Rattle.std.specs.Prelude.{◌≡◌, ◌+◌, ◌≤◌, [], None, option_map, unwrap_or, length, IfSome, IsSomeAnd, slice_index_or, slice_range};
ghost use Rattle.arrayvec.specs.ArrayVec.{array_vec_len};
ghost use Rattle.eid_record.specs.View.{record_view};
ghost use Rattle.eid_store.specs.Store as stored;
ghost use Rattle.eid_chip.specs.Held.{held_file};

use arrayvec::ArrayVec;
use eid_apdu::{MAX_CONTENT, Reply};
use eid_base::Status;
use eid_cells::Eeprom;
use eid_record::{FileNo, Record};
use eid_store::Store;

/// How many bytes a file has at most.
const MAX_FILE: usize = 2048;

/// What is read over.
const BLANK: [u8; MAX_FILE] = [0; MAX_FILE];

/// EF.CardAccess (BSI TR-03110-3).
pub const CARD_ACCESS: FileNo = FileNo(0);

/// EF.CardSecurity (BSI TR-03110-3).
pub const CARD_SECURITY: FileNo = FileNo(1);

/// The length of a file that a record keeps.
fn kept_length(kept: &Record, file: FileNo) -> Option<u16>
    ensures { result ≡ slice_index_or (record_view kept.now).lengths file.0 None }
{
    match kept.lengths.get(usize::from(file.0)) {
        Some(length) => *length,
        None => None,
    }
}

/// How many bytes a file has, where it is there.
pub fn file_length<E: Eeprom>(store: &Store, cells: &E, file: FileNo) -> Option<u16>
    requires { stored.Fits store.now (E.device cells.now) (E.cells cells.now) }
    ensures length { option_map (λ bytes. length bytes) (held_file (E.cells cells.now) file.0) ≡ result }
    ensures entry { slice_index_or (stored.fields_of store.now).lengths file.0 None ≡ result }
    ensures small { IfSome result (λ n. n ≤ 2048) }
{
    let _ = cells;
    kept_length(store.kept(), file)
}

/// Bytes of a file from an offset on, so many of them.
fn read_part<E: Eeprom>(store: &Store, cells: &E, file: FileNo, offset: u16, into: &mut [u8])
    requires fits { stored.Fits store.now (E.device cells.now) (E.cells cells.now) }
    requires there { IsSomeAnd (held_file (E.cells cells.now) file.0) (λ bytes. offset + length into.old ≤ length bytes) }
    ensures { into.new ≡ slice_range (unwrap_or (held_file (E.cells cells.now) file.0) []) offset (offset + length into.old) }
{
    store.read_file(cells, file, offset, into);
}

/// Makes the content so many bytes to be read over.
fn blank(content: &mut ArrayVec<u8, MAX_CONTENT>, count: usize)
    requires { count ≤ 2048 }
    ensures { array_vec_len content.new ≡ count }
{
    content.clear();
    content.try_extend_from_slice(&BLANK[..count]).unwrap();
}

/// Makes bytes of a file from an offset on the content of a reply.
fn put_content<E: Eeprom>(
    store: &Store,
    cells: &E,
    file: FileNo,
    offset: u16,
    count: usize,
    content: &mut ArrayVec<u8, MAX_CONTENT>,
)
    requires fits { stored.Fits store.now (E.device cells.now) (E.cells cells.now) }
    requires there { IsSomeAnd (held_file (E.cells cells.now) file.0) (λ bytes. offset + count ≤ length bytes) }
    requires small { count ≤ 2048 }
    ensures items { content.new.items ≡ slice_range (unwrap_or (held_file (E.cells cells.now) file.0) []) offset (offset + count) }
    ensures size { array_vec_len content.new ≡ count }
{
    blank(content, count);
    read_part(store, cells, file, offset, content.as_mut_slice());
}

/// Makes the reply what READ BINARY answers: so many bytes of a file from an offset on, and this status.
pub fn put_answer<E: Eeprom>(
    store: &Store,
    cells: &E,
    file: FileNo,
    offset: u16,
    count: u16,
    status: Status,
    reply: &mut Reply,
)
    requires fits { stored.Fits store.now (E.device cells.now) (E.cells cells.now) }
    requires there { IsSomeAnd (held_file (E.cells cells.now) file.0) (λ bytes. offset + count ≤ length bytes) }
    requires small { count ≤ 2048 }
    ensures content { reply.new.content.items ≡ slice_range (unwrap_or (held_file (E.cells cells.now) file.0) []) offset (offset + count) }
    ensures status { reply.new.status ≡ status }
    ensures small { array_vec_len reply.new.content ≤ 2048 }
{
    put_content(
        store,
        cells,
        file,
        offset,
        usize::from(count),
        &mut reply.content,
    );
    reply.status = status;
}

/// Makes the whole file the content of a reply, or nothing where it is absent.
pub fn put_file<E: Eeprom>(
    store: &Store,
    cells: &E,
    file: FileNo,
    content: &mut ArrayVec<u8, MAX_CONTENT>,
)
    requires fits { stored.Fits store.now (E.device cells.now) (E.cells cells.now) }
    ensures { content.new.items ≡ unwrap_or (held_file (E.cells cells.now) file.0) [] }
{
    match file_length(store, cells, file) {
        Some(length) => put_content(store, cells, file, 0, usize::from(length), content),
        None => content.clear(),
    }
}
