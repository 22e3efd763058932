//! The command `run`, and the run of a script that it shares with `replay`.
ghost use Rattle.std.specs.Prelude.{◌≡◌, ◌^◌, ◌<◌, [], Some, IsSome, length, map};
ghost use Rattle.eid_base.specs.Seen.{FolderSeen, SameFiles};
ghost use Rattle.eid_record.specs.Plain.{FullRecord};
ghost use Rattle.eid_store.specs.Stands.{stands};
ghost use Rattle.eid_copro.specs.Told.{Source};
ghost use Rattle.eid_script.specs.Scripts.{plain_line};
ghost use Rattle.eid.specs.Commands.{Run};
ghost use Rattle.eid_run.specs.Talk.{HasSource};
ghost use Rattle.eid.specs.Ends.{IsEndOfRun, setup};
ghost use Rattle.eid.specs.Works.{Meets, NamesFaults};

use eid_base::{Folder, Sink};
use eid_cells::MemoryEeprom;
use eid_copro::{Coprocessor, ModelCoprocessor};
use eid_inputs::{Exit, load_both, store_file};
use eid_run::run_script;
use eid_script::Line;
use std::alloc::Global;

/// Runs a script over cells that stand for a record and a coprocessor that was asked nothing: writes the
/// trace, and then stores the cells that the run left.
pub fn run_and_store<C: Coprocessor, F: Folder, K: Sink>(
    alloc: Global,
    image: &str,
    cells: Vec<u8>,
    lines: &[Line],
    copro: &mut C,
    folder: &mut F,
    out: &mut K,
) -> Exit
    requires size { length cells.items ≡ 65536 }
    requires stands { IsSome (stands cells.items) }
    requires log { (C.seen copro.old).log ≡ [] }
    requires few { length lines.now < 2 ^ 64 }
    ensures ends { (old : FolderSeen) (source : Source) (opening : FullRecord) → SameFiles old (F.seen folder.old)
        → HasSource (C.seen copro.old).told source → stands cells.items ≡ Some opening
        → IsEndOfRun image.now source (setup opening cells.items (map plain_line lines.now)) old (F.seen folder.old) (F.seen folder.new) (K.seen out.old)
        (K.seen out.new) result }
    ensures faults { NamesFaults (F.seen folder.old) (F.seen folder.new) (K.seen out.old) (K.seen out.new) result }
{
    let mut device = MemoryEeprom::new(cells);
    if let Err(error) = run_script(alloc, lines, &mut device, copro, out) {
        return Exit::of_run(error);
    }
    store_file(folder, image, device.cells())
}

/// Runs a script on an image with the model coprocessor: reads and checks both, writes the trace, and
/// then stores the cells that the run left.
pub fn run<F: Folder, K: Sink>(
    alloc: Global,
    image: &str,
    script: &str,
    start: u64,
    folder: &mut F,
    out: &mut K,
) -> Exit
    ensures meets { Meets (Run image.now script.now start) (F.seen folder.old) (F.seen folder.new) (K.seen out.old) (K.seen out.new) result }
    ensures faults { NamesFaults (F.seen folder.old) (F.seen folder.new) (K.seen out.old) (K.seen out.new) result }
{
    let (cells, lines) = match load_both::<Vec<Line>, F>(alloc, folder, image, script) {
        Ok(both) => both,
        Err(exit) => return exit,
    };
    let mut copro = ModelCoprocessor::new(alloc, start);
    run_and_store(
        alloc,
        image,
        cells,
        lines.as_slice(),
        &mut copro,
        folder,
        out,
    )
}
