//! The words of the command line.
use crate::exit::Exit;
use std::alloc::Global;
use std::rt::Env;
use std::{env, io};

/// The exit where the words cannot be had: one is no text, or memory was refused.
fn exit_without_words(error: &io::Error) -> Exit {
    if error.kind() == io::ErrorKind::OutOfMemory {
        Exit::NoMemory
    } else {
        Exit::Usage
    }
}

/// The words behind the program's name.
///
/// # Errors
/// `Usage` where one of them is no text, else `NoMemory`.
pub fn arguments<R: Env + AllocGlobal>(rt: &R) -> Result<Vec<String>, Exit> {
    let args = match env::args(rt) {
        Ok(args) => args,
        Err(error) => return Err(exit_without_words(&error)),
    };
    let alloc: Global = rt.alloc();
    let mut words = Vec::new(alloc);
    for word in args.skip(1) {
        if words.push(word).is_err() {
            return Err(Exit::NoMemory);
        }
    }
    Ok(words)
}
