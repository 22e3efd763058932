//! The chip's record in its cells: mounting, reading files, and commits that a power cut leaves whole or undone.
#![tactic(auto)]

mod device;
mod durable;
mod files;
mod gates;
mod law;
mod new_cells;
mod next;
mod pages;
mod receipt;
mod slot;
mod store;
mod turn;
mod two_slot;

pub use durable::{Durable, MountError};
pub use law::{law_complete, law_fits};
pub use new_cells::{layout_of, put_new};
pub use receipt::Receipt;
pub use slot::TWO_SLOTS;
pub use store::Store;
pub use two_slot::TwoSlot;
