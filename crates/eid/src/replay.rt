//! The command `replay`.
ghost use Rattle.eid.specs.Commands.{Replay};
ghost use Rattle.eid.specs.Works.{Meets, NamesFaults};

use crate::run::run_and_store;
use eid_base::{Folder, Sink};
use eid_copro::{Answer, ScriptCoprocessor};
use eid_inputs::{Exit, load, load_both};
use eid_script::Line;
use std::alloc::Global;

/// Runs a script on an image with the coprocessor's answers from a file: reads and checks all three,
/// writes the trace, and then stores the cells that the run left.
pub fn replay<F: Folder, K: Sink>(
    alloc: Global,
    image: &str,
    script: &str,
    answers: &str,
    folder: &mut F,
    out: &mut K,
) -> Exit
    ensures meets { Meets (Replay image.now script.now answers.now) (F.seen folder.old) (F.seen folder.new) (K.seen out.old) (K.seen out.new) result }
    ensures faults { NamesFaults (F.seen folder.old) (F.seen folder.new) (K.seen out.old) (K.seen out.new) result }
{
    let (cells, lines) = match load_both::<Vec<Line>, F>(alloc, folder, image, script) {
        Ok(both) => both,
        Err(exit) => return exit,
    };
    let told = match load::<Vec<Answer>, F>(alloc, folder, answers) {
        Ok(told) => told,
        Err(exit) => return exit,
    };
    let mut copro = ScriptCoprocessor::new(alloc, told);
    run_and_store(
        alloc,
        image,
        cells,
        lines.as_slice(),
        &mut copro,
        folder,
        out,
    )
}
