//! The passwords of the eID chip, as PACE takes them (BSI TR-03110-2).
#![tactic(auto)]

mod passwords;

pub use passwords::{digits, may_start, select_status};
