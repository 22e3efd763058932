//! The pages of a record, written to a slot.

ghost use Rattle.std.specs.Prelude.{◌≡◌, ℕ, List, ◌+◌, ◌*◌, ◌/◌, ◌≤◌, ◌<◌, length, slice_index, IsTrue, OnOk};
ghost use Rattle.eid_cells.specs.Cells.{SameOutside, patched};
ghost use Rattle.eid_record.specs.Layout.{replaced};
ghost use Rattle.eid_store.specs.Cost.{Costs, page_count};
ghost use Rattle.eid_store.specs.Pages.{filled, page_of};
ghost use Rattle.eid_store.specs.Slots.{record_of, other_of, room_of};
ghost use Rattle.eid_store.specs.NewRecord.{IsReady, next_bytes};

use crate::next::NewRecord;
use crate::slot::{FILES_FROM, PAGE, Slot};
use eid_cells::{Cut, Eeprom};

/// The byte of the files at this place after the change, where before it this one stands there: 00 behind the last file.
fn new_byte(stands: u8, place: u32, next: &NewRecord<'_>) -> u8
    requires { IsReady next.now }
    ensures { (files : List ℕ) → length files ≡ next.now.size
        → (place < next.now.size → stands ≡ slice_index files place)
        → result ≡ slice_index (replaced next.now.change_at next.now.change.now files) place }
{
    if place >= next.size {
        return 0;
    }
    if place < next.change_at {
        return stands;
    }
    match next.change.get((place - next.change_at) as usize) {
        Some(byte) => *byte,
        None => stands,
    }
}

/// A page of the new record. Its bytes behind the fixed ones come from the slot that the record is in.
fn page<E: Eeprom>(cells: &E, source: Slot, next: &NewRecord<'_>, index: u32) -> [u8; 64]
    requires power { IsTrue (E.device cells.now).has_power }
    requires ready { IsReady next.now }
    requires index { index < page_count next.now.size }
    ensures { result ≡ page_of index
        (filled (page_count next.now.size) (next_bytes next.now (room_of source (E.cells cells.now)))) }
{
    let start = PAGE * index;
    let mut page = [0; 64];
    if start < FILES_FROM {
        let from = start as usize;
        let fixed = next.fixed;
        page.copy_from_slice(&fixed[from..from + 64]);
        return page;
    }
    cells.read(source.record() + start, &mut page);
    change_page(&mut page, start - FILES_FROM, next);
    page
}

/// Changes what stands at this place of the files to the new record's bytes.
fn change_page(page: &mut [u8; 64], place: u32, next: &NewRecord<'_>)
    requires ready { IsReady next.now }
    requires inside { place ≤ 24000 }
    ensures { (files : List ℕ) → length files ≡ next.now.size
        → ((k : ℕ) → k < 64 → place + k < next.now.size → slice_index page.old k ≡ slice_index files (place + k))
        → (k : ℕ) → k < 64 → slice_index page.new k ≡ slice_index (replaced next.now.change_at next.now.change.now files) (place + k) }
{
    let mut at = place;
    for byte in page.iter_mut() {
        *byte = new_byte(*byte, at, next);
        at += 1;
    }
}

/// How many pages a record has whose files have so many bytes.
fn page_count(size: u32) -> u32
    requires { size ≤ 24000 }
    ensures { result ≡ page_count size }
{
    (FILES_FROM + size).div_ceil(PAGE)
}

/// Writes the new record to the other slot than the one that it is in, in rising order.
pub fn write_pages<E: Eeprom>(cells: &mut E, source: Slot, next: &NewRecord<'_>) -> Result<(), Cut>
    requires power { IsTrue (E.device cells.old).has_power }
    requires ready { IsReady next.now }
    ensures written { OnOk result (E.cells cells.new ≡ patched (record_of (other_of source))
        (filled (page_count next.now.size) (next_bytes next.now (room_of source (E.cells cells.old))))
        (E.cells cells.old)) }
    ensures same { SameOutside (record_of (other_of source)) 24448 (E.cells cells.old) (E.cells cells.new) }
    ensures cost { Costs (page_count next.now.size)
        (E.device cells.old) (E.device cells.new) result }
{
    let target = source.other();
    let pages = page_count(next.size);
    for index in 0..pages {
        let page = page(cells, source, next, index);
        cells.write(target.record() + PAGE * index, &page)?;
    }
    Ok(())
}
