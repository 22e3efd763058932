//! The certificate chain of terminal authentication (BSI TR-03110-3): who signs under a name, when a certificate is
//! accepted, and what it changes.
#![tactic(auto)]

mod accepting;
mod changes;
mod judging;
mod signing;

pub use accepting::{Accepted, accept};
pub use signing::signer;
