//! PACE, the chip's side (BSI TR-03110-2 and TR-03110-3, generic mapping): a selection and four steps,
//! each of which consumes the state that the step before it left.
#![tactic(auto)]

mod agreed;
mod choice;
mod chosen;
pub mod keys;
mod mapped;
mod nonce_sent;
mod protocol;
pub mod rules;
mod selection;

pub use agreed::{Agreed, Done};
pub use chosen::Chosen;
pub use keys::token;
pub use mapped::Mapped;
pub use nonce_sent::NonceSent;
pub use protocol::Protocol;
pub use selection::law_selection;
