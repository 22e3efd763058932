//! The command `session`.
ghost use Rattle.std.specs.Prelude.{◌≡◌, ℕ, [], Some, IsSome, length};
ghost use Rattle.eid_base.specs.Seen.{FolderSeen, SameFiles};
ghost use Rattle.eid_copro.specs.Model.{model_answer};
ghost use Rattle.eid_record.specs.Plain.{FullRecord};
ghost use Rattle.eid_store.specs.Stands.{stands};
ghost use Rattle.eid_terminal.specs.Plans.{IsFit, plan_view};
ghost use Rattle.eid.specs.Commands.{Session};
ghost use Rattle.eid_run.specs.Meetings.{inverted, meeting};
ghost use Rattle.eid_run.specs.Talk.{HasSource};
ghost use Rattle.eid.specs.Ends.{IsEndOfSession};
ghost use Rattle.eid.specs.Works.{Meets, NamesFaults};

use eid_base::{Folder, Sink};
use eid_cells::MemoryEeprom;
use eid_copro::{Coprocessor, ModelCoprocessor};
use eid_inputs::{Exit, load_both, store_file};
use eid_run::run_session;
use eid_terminal::{Plan, law_has_sizes};
use std::alloc::Global;

/// Runs a terminal with the chip of cells that stand for a record, over coprocessors that were asked nothing: writes the
/// report, and then stores the cells that the session left.
fn meet_and_store<C: Coprocessor, D: Coprocessor, F: Folder, K: Sink>(
    alloc: Global,
    image: &str,
    cells: Vec<u8>,
    plan: Plan,
    chip_copro: &mut C,
    terminal_copro: &mut D,
    folder: &mut F,
    out: &mut K,
) -> Exit
    requires size { length cells.items ≡ 65536 }
    requires stands { IsSome (stands cells.items) }
    requires fit { IsFit (plan_view plan) }
    requires chip_log { (C.seen chip_copro.old).log ≡ [] }
    requires terminal_log { (D.seen terminal_copro.old).log ≡ [] }
    ensures ends { (old : FolderSeen) (start : ℕ) (opening : FullRecord) → SameFiles old (F.seen folder.old)
        → HasSource (C.seen chip_copro.old).told (model_answer start)
        → HasSource (D.seen terminal_copro.old).told (model_answer (inverted start)) → stands cells.items ≡ Some opening
        → IsEndOfSession image.now start (meeting opening cells.items (plan_view plan)) old (F.seen folder.old) (F.seen folder.new) (K.seen out.old)
        (K.seen out.new) result }
    ensures faults { NamesFaults (F.seen folder.old) (F.seen folder.new) (K.seen out.old) (K.seen out.new) result }
{
    law_has_sizes(&plan);
    let mut device = MemoryEeprom::new(cells);
    if let Err(error) = run_session(alloc, plan, &mut device, chip_copro, terminal_copro, out) {
        return Exit::of_run(error);
    }
    store_file(folder, image, device.cells())
}

/// Runs a terminal with the chip of an image, each with a model coprocessor: reads and checks the image and the terminal's
/// plan, writes the report, and then stores the cells that the session left.
pub fn session<F: Folder, K: Sink>(
    alloc: Global,
    image: &str,
    terminal: &str,
    start: u64,
    folder: &mut F,
    out: &mut K,
) -> Exit
    ensures meets { Meets (Session image.now terminal.now start) (F.seen folder.old) (F.seen folder.new) (K.seen out.old) (K.seen out.new) result }
    ensures faults { NamesFaults (F.seen folder.old) (F.seen folder.new) (K.seen out.old) (K.seen out.new) result }
{
    let (cells, plan) = match load_both::<Plan, F>(alloc, folder, image, terminal) {
        Ok(both) => both,
        Err(exit) => return exit,
    };
    let mut chip_copro = ModelCoprocessor::new(alloc, start);
    let mut terminal_copro = ModelCoprocessor::new(alloc, u64::MAX - start);
    meet_and_store(
        alloc,
        image,
        cells,
        plan,
        &mut chip_copro,
        &mut terminal_copro,
        folder,
        out,
    )
}
