//! New cells, and the layout that cells name.
ghost use Rattle.std.specs.Prelude.{◌≡◌, ◌+◌, ◌++◌, ◌<◌, ◌≤◌, Some, length};
ghost use Rattle.eid_record.specs.Files.{full_of, total};
ghost use Rattle.eid_record.specs.Layout.{fixed_bytes};
ghost use Rattle.eid_record.specs.Valid.{IsValid};
ghost use Rattle.eid_record.specs.View.{record_view};
ghost use Rattle.eid_cells.specs.Cells.{patched};
ghost use Rattle.eid_store.specs.Layouts.{layout_of, two_slot_layout};
ghost use Rattle.eid_store.specs.NewCells.{blank, new_cells};
ghost use Rattle.eid_store.specs.Stands.{stands};

use crate::slot::{FILES_FROM, OPEN, Slot};
use eid_record::{FIXED, Record, write_record};

/// The layout that cells name, in the first of them.
pub fn layout_of(cells: &[u8]) -> u8
    requires { 0 < length cells.now }
    ensures { result ≡ layout_of cells.now }
{
    cells[0]
}

/// Puts these bytes at this place.
fn put(cells: &mut [u8], place: u32, bytes: &[u8])
    requires { place + length bytes.now ≤ length cells.old }
    ensures bytes { cells.new ≡ patched place bytes.now cells.old }
    ensures long { length cells.new ≡ length cells.old }
{
    let from = place as usize;
    cells[from..from + bytes.len()].copy_from_slice(bytes);
}

/// Puts the layout, a record and the bytes of its files, one file behind the other, into new cells, which are 00
/// throughout.
pub fn put_new(layout: u8, kept: &Record, files: &[u8], cells: &mut [u8])
    requires layout { layout ≡ two_slot_layout }
    requires valid { IsValid (record_view kept.now) }
    requires files { length files.now ≡ total (record_view kept.now).lengths }
    requires blank { cells.old ≡ blank }
    ensures cells { cells.new ≡ new_cells layout (fixed_bytes (record_view kept.now) ++ files.now) }
    ensures size { length cells.new ≡ 65536 }
    ensures stands { stands cells.new ≡ Some (full_of (record_view kept.now) files.now) }
{
    let mut fixed = [0; FIXED];
    write_record(kept, &mut fixed);
    put(cells, 0, &[layout]);
    put(cells, Slot::A.gate(), &[OPEN]);
    put(cells, Slot::A.record(), &fixed);
    put(cells, Slot::A.record() + FILES_FROM, files);
}
