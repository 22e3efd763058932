//! Scripts: what happens to the chip line by line, power on and off, commands, and power cuts
//! that are planned. This project's own.
#![tactic(auto)]

mod law;
mod script;

pub use law::law_script_grammar;
pub use script::{Line, ScriptError, read_script};
