//! Single cells of a device.

ghost use Rattle.std.specs.Prelude.{◌≡◌, ◌<◌, IsTrue, slice_index};

use eid_cells::Eeprom;

/// The byte of one cell.
pub fn cell<E: Eeprom>(cells: &E, place: u32) -> u8
    requires power { IsTrue (E.device cells.now).has_power }
    requires inside { place < 65536 }
    ensures { result ≡ slice_index (E.cells cells.now) place }
{
    let mut byte = [0];
    cells.read(place, &mut byte);
    byte[0]
}
