//! Running scripts over a chip and its device, and terminals with a chip.
#![tactic(auto)]

mod big;
mod law;
mod quiet;
mod report;
mod run;
mod session;
mod tally;

pub use big::big_workload;
pub use law::{law_one_promise, law_one_walk};
pub use run::run_script;
pub use session::run_session;
