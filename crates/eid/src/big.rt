//! The command `big`.
ghost use Rattle.std.specs.Prelude.{◌≡◌, ◌≢◌, ◌≤◌};
ghost use Rattle.eid_base.specs.Seen.{FolderSeen};
ghost use Rattle.eid.specs.Commands.{Big};
ghost use Rattle.eid.specs.Works.{Meets};

use eid_base::Sink;
use eid_inputs::Exit;
use eid_run::big_workload;
use std::alloc::Global;

/// Runs so many generated sessions, and prints how many requests were answered and refused, and how many commits were
/// made. Changes no file, whatever the folder is.
pub fn big<K: Sink>(alloc: Global, sessions: u32, out: &mut K) -> Exit
    requires some { 1 ≤ sessions }
    requires few { sessions ≤ 1000 }
    ensures meets { (folder : FolderSeen) → Meets (Big sessions) folder folder (K.seen out.old) (K.seen out.new) result }
    ensures faults { result ≢ Exit.SinkFault → (K.seen out.new).faults ≡ (K.seen out.old).faults }
{
    match big_workload(alloc, sessions, out) {
        Ok(()) => Exit::Done,
        Err(error) => Exit::of_run(error),
    }
}
