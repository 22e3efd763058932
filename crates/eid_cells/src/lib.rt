//! The EEPROM of the chip: 65,536 cells in pages of 64, a write of which may be cut by a loss of
//! power. This project's own.
#![tactic(auto)]

mod eeprom;
mod memory;
mod tear;

pub use eeprom::{Cut, Eeprom};
pub use memory::MemoryEeprom;
pub use tear::Tear;
