//! Writing what is told.
ghost use Rattle.std.specs.Prelude.{◌≡◌, IsTrue, OnOk, OnErr};
ghost use Rattle.eid_base.specs.Seen.{Grew, GrewByPart};
ghost use Rattle.eid_model.specs.Trace as trace;
ghost use Rattle.eid_model.specs.View as view;
ghost use Rattle.eid_step.specs.Sinks.{TellsFault};

use eid_base::{IoError, RunError, Sink};
use eid_model::{MomentRef, Text};

/// Writes a text in one piece.
///
/// # Errors
/// `SinkFault` only where the sink's count of faults rose, else `NoMemory`. A front of the text was written then.
pub fn print<K: Sink>(text: &Text, out: &mut K) -> Result<(), RunError>
    ensures whole { OnOk result (IsTrue (K.seen out.old).tells → Grew (K.seen out.old).written (K.seen out.new).written text.now) }
    ensures part { OnErr result (IsTrue (K.seen out.old).tells → GrewByPart (K.seen out.old).written (K.seen out.new).written text.now) }
    ensures sink { TellsFault (K.seen out.old) (K.seen out.new) result }
{
    match out.put(text.as_bytes()) {
        Ok(()) => Ok(()),
        Err(IoError::NoMemory) => Err(RunError::NoMemory),
        Err(_) => Err(RunError::SinkFault),
    }
}

/// Writes the text of a moment.
pub fn tell<K: Sink>(m: &MomentRef<'_>, text: &mut Text, out: &mut K) -> Result<(), RunError>
    ensures whole { OnOk result (IsTrue (K.seen out.old).tells
        → Grew (K.seen out.old).written (K.seen out.new).written (trace.text (view.moment_ref m.now))) }
    ensures part { OnErr result (IsTrue (K.seen out.old).tells
        → GrewByPart (K.seen out.old).written (K.seen out.new).written (trace.text (view.moment_ref m.now))) }
    ensures sink { TellsFault (K.seen out.old) (K.seen out.new) result }
{
    text.clear();
    if text.put_moment(m).is_err() {
        return Err(RunError::NoMemory);
    }
    print(text, out)
}
