ghost use Rattle.std.specs.Prelude.{◌≡◌, ℕ, ◌+◌, ◌<◌, ◌≤◌, ◌↔◌, false, List, length, IsTrue, IsErr, OnOk, OnErr, slice_index, slice_range};
ghost use Rattle.eid_cells.specs.Cells.{IsInOnePage, patched, SameOutside};
ghost use Rattle.eid_cells.specs.Device.{Device, planned_at, WasCut, written_once};

use crate::tear::Tear;

/// The power was cut while a write was under way.
#[derive(Clone, Copy)]
pub struct Cut;

/// A device of 65,536 cells of a byte each, in pages of 64. Its power may be cut in a write, and
/// then only the range that was being written may differ.
pub trait Eeprom {
    /// The byte of each cell, from place 0 on.
    ghost cells: { Self → List ℕ };

    /// Power, plan and count of cuts.
    ghost device: { Self → Device };

    /// Whether the device has power.
    fn powered(&self) -> bool
        ensures { result ≡ (device self.now).has_power };

    /// Gives the device power or takes it away. Neither the cells nor a planned cut change.
    fn power(&mut self, on: bool)
        ensures cells { cells self.new ≡ cells self.old }
        ensures device { device self.new ≡ record (device self.old) { has_power = on } };

    /// Reads the cells from `place` on into the whole of `into`.
    fn read(&self, place: u32, into: &mut [u8])
        requires power { IsTrue (device self.now).has_power }
        requires inside { place + length into.old ≤ 65536 }
        ensures { into.new ≡ slice_range (cells self.now) place (place + length into.old) };

    /// Writes 1 to 64 bytes from `place` on, all in one page. `Cut` comes only where the device's
    /// count of cuts rose; where the device tells which write it will cut, exactly at that one.
    fn write(&mut self, place: u32, bytes: &[u8]) -> Result<(), Cut>
        requires power { IsTrue (device self.old).has_power }
        requires range { IsInOnePage place (length bytes.now) }
        ensures written { OnOk result (cells self.new ≡ patched place bytes.now (cells self.old)) }
        ensures outside { SameOutside place (length bytes.now) (cells self.old) (cells self.new) }
        ensures steady { OnOk result (device self.new ≡ written_once (device self.old)) }
        ensures cut { OnErr result (WasCut (device self.old) (device self.new)) }
        ensures as_planned { IsTrue (device self.old).told → (IsErr result ↔ ((device self.old).planned ≡ 1)) };

    /// Plans the cut of the write with this number, counted from 1 for the next one. The plan takes
    /// the place of an earlier one. A device that does not tell its plan may ignore it.
    fn plan_cut(&mut self, write: u32, tear: Tear)
        requires { 1 ≤ write }
        ensures cells { cells self.new ≡ cells self.old }
        ensures device { device self.new ≡ planned_at write (device self.old) };

    /// There are 65,536 cells.
    ghost count: { (x : Self) → length (cells x) ≡ 65536 };

    /// Each of them is a byte.
    ghost bytes: { (x : Self) (place : ℕ) → slice_index (cells x) place < 256 };

    /// A plan that is not told is seen as none.
    ghost untold: { (x : Self) → (device x).told ≡ false → (device x).planned ≡ 0 };
}
