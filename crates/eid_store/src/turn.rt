//! From the current slot to the other one.

ghost use Rattle.std.specs.Prelude.{◌≡◌, IsTrue, OnOk, OnErr};
ghost use Rattle.eid_store.specs.Cost.{Costs, turn_cost};
ghost use Rattle.eid_store.specs.Layouts.{layout_of};
ghost use Rattle.eid_store.specs.NewRecord.{IsReady};
ghost use Rattle.eid_store.specs.Turn.{SameSlot, IsTurned, WasTurning};

use crate::gates::{close_gate, open_gate};
use crate::next::NewRecord;
use crate::pages::write_pages;
use crate::slot::Slot;
use eid_cells::{Cut, Eeprom};

/// Closes the other slot where it is open, writes the new record there, and opens it.
pub fn turn<E: Eeprom>(cells: &mut E, slot: Slot, next: &NewRecord<'_>) -> Result<(), Cut>
    requires power { IsTrue (E.device cells.old).has_power }
    requires ready { IsReady next.now }
    ensures turned { OnOk result (IsTurned slot next.now (E.cells cells.old) (E.cells cells.new)) }
    ensures cut { OnErr result (WasTurning slot next.now (E.cells cells.old) (E.cells cells.new)) }
    ensures same { SameSlot slot (E.cells cells.old) (E.cells cells.new) }
    ensures layout { layout_of (E.cells cells.new) ≡ layout_of (E.cells cells.old) }
    ensures cost { Costs (turn_cost slot next.now.size (E.cells cells.old))
        (E.device cells.old) (E.device cells.new) result }
{
    let other = slot.other();
    close_gate(cells, other)?;
    write_pages(cells, slot, next)?;
    open_gate(cells, other)
}
