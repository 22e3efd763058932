ghost use Rattle.std.specs.Prelude.{◌≡◌, ℕ, ◌+◌, ◌-◌, ◌^◌, ◌<◌, ◌≤◌, ◌↔◌, length, true, false, IsTrue, IsErr, OnOk, OnErr, nat_lt, slice_index, slice_range, if◌then◌else◌};
ghost use Rattle.eid_cells.specs.Cells.{IsInOnePage, patched, SameOutside};
ghost use Rattle.eid_cells.specs.Device.{Device, planned_at, WasCut, written_once};
ghost use Rattle.eid_cells.specs.Tears.{torn};

use crate::eeprom::{Cut, Eeprom};
use crate::tear::Tear;

/// A device in memory. Its power is cut at the planned write and at no other. The plan counts
/// writes across power cycles.
#[derive(Drop)]
pub struct MemoryEeprom {
    cells: Vec<u8>,
    powered: bool,
    planned: u32,
    tear: Tear,
    cuts: u64,
    pub ghost count: { length cells.items ≡ 65536 },
    pub ghost bytes: { (place : ℕ) → slice_index cells.items place < 256 },
    pub ghost counted: { 0 < planned → cuts < 2 ^ 64 - 1 },
}

impl MemoryEeprom {
    ghost use Rattle.eid_cells.specs.Memory.{memory_cells, memory_device, planned_tear};

    /// The device with these cells, 65,536 of them, without power and without a plan.
    pub fn new(cells: Vec<u8>) -> MemoryEeprom
        requires { length cells.items ≡ 65536 }
        ensures cells { memory_cells result ≡ cells.items }
        ensures device { memory_device result ≡ record { has_power = false; told = true; planned = 0; cuts = 0 } }
    {
        MemoryEeprom {
            cells,
            powered: false,
            planned: 0,
            tear: Tear::Old,
            cuts: 0,
        }
    }

    /// The cells, from place 0 on.
    pub fn cells(&self) -> &[u8]
        ensures { result.now ≡ memory_cells self.now }
    {
        &self.cells
    }

    /// The cells, from place 0 on, of a device that is given up.
    pub fn into_cells(self) -> Vec<u8>
        ensures { result.items ≡ memory_cells self }
    {
        self.cells
    }

    // Leaves in the range of `bytes` what a write cut with that tear leaves there.
    fn change(&mut self, place: u32, tear: Tear, bytes: &[u8])
        requires { place + length bytes.now ≤ 65536 }
        ensures cells { memory_cells self.new
            ≡ patched place (torn tear (slice_range (memory_cells self.old) place (place + length bytes.now)) bytes.now) (memory_cells self.old) }
        ensures device { memory_device self.new ≡ memory_device self.old }
        ensures tear { planned_tear self.new ≡ planned_tear self.old }
    {
        let start = place as usize;
        tear.leave(&mut self.cells[start..start + bytes.len()], bytes);
    }
}

impl Eeprom for MemoryEeprom {
    ghost use Rattle.eid_cells.specs.Memory.{memory_cells, memory_device, planned_tear};

    ghost cells = { memory_cells };

    ghost device = { memory_device };

    fn powered(&self) -> bool {
        self.powered
    }

    fn power(&mut self, on: bool)
        ensures cells { memory_cells self.new ≡ memory_cells self.old }
        ensures device { memory_device self.new ≡ record (memory_device self.old) { has_power = on } }
        ensures tear { planned_tear self.new ≡ planned_tear self.old }
    {
        self.powered = on;
    }

    fn read(&self, place: u32, into: &mut [u8]) {
        let start = place as usize;
        into.copy_from_slice(&self.cells[start..start + into.len()]);
    }

    /// A cut leaves in the range what the plan's tear says.
    fn write(&mut self, place: u32, bytes: &[u8]) -> Result<(), Cut>
        requires power { IsTrue (memory_device self.old).has_power }
        requires range { IsInOnePage place (length bytes.now) }
        ensures written { OnOk result (memory_cells self.new ≡ patched place bytes.now (memory_cells self.old)) }
        ensures outside { SameOutside place (length bytes.now) (memory_cells self.old) (memory_cells self.new) }
        ensures steady { OnOk result (memory_device self.new ≡ written_once (memory_device self.old)) }
        ensures cut { OnErr result (WasCut (memory_device self.old) (memory_device self.new)) }
        ensures as_planned { IsErr result ↔ ((memory_device self.old).planned ≡ 1) }
        ensures torn { OnErr result (memory_cells self.new
            ≡ patched place (torn (planned_tear self.old) (slice_range (memory_cells self.old) place (place + length bytes.now)) bytes.now)
            (memory_cells self.old)) }
        ensures tear { planned_tear self.new ≡ planned_tear self.old }
    {
        if self.planned == 1 {
            self.change(place, self.tear, bytes);
            self.powered = false;
            self.planned = 0;
            self.cuts += 1;
            return Err(Cut);
        }
        self.change(place, Tear::New, bytes);
        self.planned = self.planned.saturating_sub(1);
        Ok(())
    }

    /// Ignored where the count of cuts is at its end.
    fn plan_cut(&mut self, write: u32, tear: Tear)
        requires { 1 ≤ write }
        ensures cells { memory_cells self.new ≡ memory_cells self.old }
        ensures device { memory_device self.new ≡ planned_at write (memory_device self.old) }
        ensures tear { planned_tear self.new ≡ (if nat_lt (memory_device self.old).cuts (2 ^ 64 - 1) then tear else planned_tear self.old) }
    {
        if self.cuts < u64::MAX {
            self.planned = write;
            self.tear = tear;
        }
    }

    ghost count = { λ memory. memory.count };

    ghost bytes = { λ memory. memory.bytes };

    ghost untold = { λ memory untold. Prim.cc };
}
