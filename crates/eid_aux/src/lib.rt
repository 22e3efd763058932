//! The comparisons of auxiliary data (BSI TR-03110-2 and -3): age, document validity and community.
#![tactic(auto)]

mod compared;

pub use compared::{Compared, compare_birth, compare_community, compare_expiry};
