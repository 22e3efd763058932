//! The gates of the slots.

ghost use Rattle.std.specs.Prelude.{◌≡◌, true, false, IsTrue, OnOk, OnErr, slice_index};
ghost use Rattle.eid_cells.specs.Cells.{SameOutside};
ghost use Rattle.eid_store.specs.Cost.{Costs, once};
ghost use Rattle.eid_store.specs.Slots.{gate_of, is_open};

use crate::device::cell;
use crate::slot::{CLOSED, OPEN, Slot};
use eid_cells::{Cut, Eeprom};

pub fn is_open<E: Eeprom>(cells: &E, slot: Slot) -> bool
    requires { IsTrue (E.device cells.now).has_power }
    ensures { result ≡ is_open slot (E.cells cells.now) }
{
    cell(cells, slot.gate()) == OPEN
}

/// Closes the slot's gate where it is open.
pub fn close_gate<E: Eeprom>(cells: &mut E, slot: Slot) -> Result<(), Cut>
    requires { IsTrue (E.device cells.old).has_power }
    ensures closed { OnOk result (is_open slot (E.cells cells.new) ≡ false) }
    ensures was_open { OnErr result (is_open slot (E.cells cells.old) ≡ true) }
    ensures same { SameOutside (gate_of slot) 1 (E.cells cells.old) (E.cells cells.new) }
    ensures cost { Costs (once (is_open slot (E.cells cells.old)))
        (E.device cells.old) (E.device cells.new) result }
{
    if !is_open(cells, slot) {
        return Ok(());
    }
    write_gate(cells, slot, CLOSED)
}

/// Opens the slot's gate.
pub fn open_gate<E: Eeprom>(cells: &mut E, slot: Slot) -> Result<(), Cut>
    requires { IsTrue (E.device cells.old).has_power }
    ensures opened { OnOk result (is_open slot (E.cells cells.new) ≡ true) }
    ensures same { SameOutside (gate_of slot) 1 (E.cells cells.old) (E.cells cells.new) }
    ensures cost { Costs 1 (E.device cells.old) (E.device cells.new) result }
{
    write_gate(cells, slot, OPEN)
}

fn write_gate<E: Eeprom>(cells: &mut E, slot: Slot, value: u8) -> Result<(), Cut>
    requires { IsTrue (E.device cells.old).has_power }
    ensures written { OnOk result (slice_index (E.cells cells.new) (gate_of slot) ≡ value) }
    ensures same { SameOutside (gate_of slot) 1 (E.cells cells.old) (E.cells cells.new) }
    ensures cost { Costs 1 (E.device cells.old) (E.device cells.new) result }
{
    cells.write(slot.gate(), &[value])
}
