//! Running the lines of a script.
ghost use Rattle.std.specs.Prelude.{◌≡◌, Some, IsSome, OnOk, OnErr, map};
ghost use Rattle.eid_record.specs.Plain.{FullRecord};
ghost use Rattle.eid_script.specs.Scripts.{plain_line};
ghost use Rattle.eid_step.specs.Sinks.{TellsFault};
ghost use Rattle.eid_store.specs.Stands.{stands};
ghost use Rattle.eid_run.specs.Runs.{outside, DidLines, DidSomeLines};

use eid_base::{RunError, Sink};
use eid_cells::Eeprom;
use eid_copro::Coprocessor;
use eid_script::Line;
use eid_step::Stepper;
use std::alloc::Global;

/// Runs the lines of a script over a device whose cells stand for a record: the chip is off at first,
/// each moment's text is written before the next line begins, `cut` lines go to the device, and the
/// questions to the coprocessor.
///
/// # Errors
/// `SinkFault` only where the sink's count of faults rose, else `NoMemory`. A front of the trace was
/// written then, with all moments but the newest whole.
pub fn run_script<E: Eeprom, C: Coprocessor, K: Sink>(
    alloc: Global,
    lines: &[Line],
    cells: &mut E,
    copro: &mut C,
    out: &mut K,
) -> Result<(), RunError>
    requires { IsSome (stands (E.cells cells.old)) }
    ensures did { OnOk result ((opening : FullRecord) → stands (E.cells cells.old) ≡ Some opening
        → DidLines opening (map plain_line lines.now)
        (outside (E.device cells.old) (E.cells cells.old) (C.seen copro.old) (K.seen out.old))
        (outside (E.device cells.new) (E.cells cells.new) (C.seen copro.new) (K.seen out.new))) }
    ensures broke { OnErr result ((opening : FullRecord) → stands (E.cells cells.old) ≡ Some opening
        → DidSomeLines opening (map plain_line lines.now)
        (outside (E.device cells.old) (E.cells cells.old) (C.seen copro.old) (K.seen out.old))
        (outside (E.device cells.new) (E.cells cells.new) (C.seen copro.new) (K.seen out.new))) }
    ensures sink { TellsFault (K.seen out.old) (K.seen out.new) result }
{
    let mut stepper = Stepper::new(alloc);
    for line in lines {
        if let Err(error) = stepper.step(line, cells, copro, out) {
            return Err(error);
        }
    }
    Ok(())
}
