//! The chips, the terminals and the certificates of sessions that are generated from their numbers.
#![tactic(auto)]

mod certificates;
mod generated;
mod spelling;

pub use certificates::Certificates;
pub use generated::{image_for, plan_for};
pub use spelling::six_digits;
