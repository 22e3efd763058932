//! A chip that is run step by step over its device: each line is carried out, and told, before the next one is known.
#![tactic(auto)]

mod moment;
mod stepper;
mod writing;

pub use stepper::Stepper;
pub use writing::print;
