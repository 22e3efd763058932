//! The simulator: reads the words of its command line, and ends with the status of what came of them.
#![tactic(auto)]

mod big;
mod kit;
mod make;
mod program;
mod replay;
mod run;
mod session;
mod show;
#[cfg(test)]
mod tests;
mod words;

use eid_base::{RealFolder, RealSink};
use eid_inputs::arguments;
use program::program;
use std::process::ExitCode;

fn main(rt: HostRuntime) -> ExitCode {
    let exit = match arguments(&rt) {
        Ok(words) => program(
            rt.alloc(),
            words.as_slice(),
            &mut RealFolder::new(&rt, rt.alloc()),
            &mut RealSink::new(&rt),
        ),
        Err(exit) => exit,
    };
    ExitCode::from(exit.status())
}
