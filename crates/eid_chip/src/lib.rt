//! The chip: one command after the other, by the rules.
#![tactic(auto)]

mod authentication;
mod certificates;
mod chip;
mod chip_authentication;
mod ending;
mod exchange;
mod files;
mod incoming;
mod naming;
mod pace;
mod pin;
mod reaction;
mod refusal;
mod request;
mod restricted_identification;
mod rights;
mod running;
mod select;
mod session;
mod terminal;
mod update;
mod verify;

pub use chip::Chip;
pub use exchange::{Exchange, Handled, HandledIn};
