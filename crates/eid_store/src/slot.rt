//! The two slots of layout 1. A slot has a gate, a cell that says whether the slot counts, and behind it the bytes
//! of a record in 382 pages. The layout is this project's own.

ghost use Rattle.std.specs.Prelude.{◌≡◌};

use eid_record::{FIXED, MAX_FILES};

/// Layout 1, which the first cell names: two slots.
pub const TWO_SLOTS: u8 = 1;
/// The value of a gate that is open; each other value is closed.
pub const OPEN: u8 = 0xA5;
/// The value that closes a gate.
pub const CLOSED: u8 = 0;
/// The cells of one page, which a write does not cross.
pub const PAGE: u32 = 64;
/// The cells that a slot has for its record.
pub const ROOM: u32 = FILES_FROM + MAX_FILES;
/// Where the bytes of the files begin, counted from the record's first byte.
pub const FILES_FROM: u32 = FIXED as u32;

/// One of the two slots.
#[derive(Clone, Copy)]
pub enum Slot {
    A,
    B,
}

impl Slot {
    ghost use Rattle.eid_store.specs.Slots.{gate_of, record_of, other_of};

    /// The place of the gate.
    pub fn gate(self) -> u32
        ensures { result ≡ gate_of self }
    {
        match self {
            Slot::A => PAGE,
            Slot::B => 384 * PAGE,
        }
    }

    /// The place of the record's first byte.
    pub fn record(self) -> u32
        ensures { result ≡ record_of self }
    {
        match self {
            Slot::A => 2 * PAGE,
            Slot::B => 385 * PAGE,
        }
    }

    /// The slot that this one is not.
    pub fn other(self) -> Slot
        ensures { result ≡ other_of self }
    {
        match self {
            Slot::A => Slot::B,
            Slot::B => Slot::A,
        }
    }
}
