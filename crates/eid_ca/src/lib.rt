//! Chip authentication, the chip's side (BSI TR-03110-2 and TR-03110-3, version 2): a selection and one step, which
//! consumes the state that the selection left.
#![tactic(auto)]

mod chosen;
pub mod keys;
mod protocol;
pub mod rules;
mod selection;

pub use chosen::{CaChosen, Proven};
pub use keys::token;
pub use protocol::Protocol;
pub use selection::{law_named, names_chip_authentication, protocol_named};
