//! Terminal authentication, the chip's side (BSI TR-03110-2 and TR-03110-3): an announcement and two steps, each of
//! which consumes the state that the step before it left.
#![tactic(auto)]

mod announced;
mod announcement;
mod auxiliary;
mod challenged;
mod objects;
pub mod rules;

pub use announced::Announced;
pub use announcement::{Announcement, law_announcement, read_announcement};
pub use challenged::Challenged;
