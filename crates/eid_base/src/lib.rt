//! What every layer names: statuses, rules, points of the curve, and the outside world
//! as a folder of files and a sink of bytes.
#![tactic(auto)]

mod codes;
mod memory;
mod outside;
mod points;
mod real;
mod replacing;
pub mod rules;
mod transfer;

pub use codes::{Full, NoMemory, Rule, RunError, Status};
pub use memory::{MemoryFolder, MemorySink};
pub use outside::{Folder, IoError, Sink};
pub use points::{Point, Secret, Signature};
pub use real::{RealFolder, RealSink};
