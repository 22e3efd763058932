//! The command `show`.
ghost use Rattle.std.specs.Prelude.{◌≡◌, Some, IfOk, IsSome, length, slice_index};
ghost use Rattle.eid_record.specs.Plain.{FullRecord};
ghost use Rattle.eid_store.specs.Stands.{stands};
ghost use Rattle.eid_perso.specs.Show.{shown};
ghost use Rattle.eid.specs.Commands.{Show};
ghost use Rattle.eid.specs.Works.{Meets, NamesFaults};

use eid_base::{Folder, NoMemory, Sink};
use eid_cells::{Eeprom, MemoryEeprom};
use eid_inputs::{Exit, load_image};
use eid_perso::show_text;
use eid_store::Store;
use std::alloc::Global;

/// The text that shows the record which these cells stand for. They are mounted on a device of their own.
fn text_of(alloc: Global, cells: Vec<u8>) -> Result<Vec<u8>, NoMemory>
    requires size { length cells.items ≡ 65536 }
    requires stands { IsSome (stands cells.items) }
    ensures { IfOk result (λ text. (full : FullRecord) → stands cells.items ≡ Some full → text.items ≡ shown (slice_index cells.items 0) full.fields) }
{
    let layout = cells[0];
    let mut device = MemoryEeprom::new(cells);
    device.power(true);
    let Ok(store) = Store::mount(&mut device) else {
        unreachable!()
    };
    show_text(alloc, store.kept(), layout)
}

/// Shows an image: reads and checks it, and prints its record as text. Changes no file.
pub fn show<F: Folder, K: Sink>(alloc: Global, image: &str, folder: &mut F, out: &mut K) -> Exit
    ensures meets { Meets (Show image.now) (F.seen folder.old) (F.seen folder.new) (K.seen out.old) (K.seen out.new) result }
    ensures faults { NamesFaults (F.seen folder.old) (F.seen folder.new) (K.seen out.old) (K.seen out.new) result }
{
    let cells = match load_image(alloc, folder, image) {
        Ok(cells) => cells,
        Err(exit) => return exit,
    };
    let Ok(text) = text_of(alloc, cells) else {
        return Exit::NoMemory;
    };
    match out.put(text.as_slice()) {
        Ok(()) => Exit::Done,
        Err(error) => Exit::of_put(error),
    }
}
