//! The terminal that talks to the chip (BSI TR-03110-2 and TR-03110-3): what it is to do, and what it does.
#![tactic(auto)]

mod action;
mod authentication;
mod bodies;
mod certificates;
mod chip;
mod going;
mod headers;
mod law;
mod line;
mod pace;
mod plan;
mod replies;
mod requests;
mod state;
mod terminal;
mod turns;

pub use action::{Action, Deed, Message, Step};
pub use law::{MAX_TURNS, law_few_turns, law_has_sizes, law_one_next};
pub use plan::{Plan, Request};
pub use replies::value_in;
pub use terminal::Terminal;
