//! How a turn of the terminal ends, where it sends nothing.
ghost use Rattle.std.specs.Prelude.{ℕ, List, Option};
ghost use Rattle.eid_apdu.specs.Answer.{PlainReply, plain_reply};
ghost use Rattle.eid_sm.specs.Keys.{ChannelState};
ghost use Rattle.eid_terminal.specs.Courses.{Passes, Gives, Stops, Faults, Ends};
ghost use Rattle.eid_terminal.specs.Plans.{PlainPlan};
ghost use Rattle.eid_terminal.specs.View.{Did, ready_course, seen};

use crate::action::{Deed, Step};
use crate::state::{Ending, Standing, State, Turn};
use eid_apdu::Reply;
use eid_base::Status;

/// A step succeeded.
pub fn passed(step: Step, standing: Standing) -> Turn
    ensures { (plan : PlainPlan) (channel : Option ChannelState) (message : List ℕ) (heard : PlainReply) → Did plan (seen result channel message heard)
        (Passes step (ready_course plan standing channel)) }
{
    Turn {
        state: State::Ready(standing),
        deed: Deed::Passed { step },
    }
}

/// A step did not succeed.
pub fn stopped(step: Step, status: Status) -> Turn
    ensures { (plan : PlainPlan) (channel : Option ChannelState) (message : List ℕ) (heard : PlainReply) → Did plan (seen result channel message heard)
        (Stops step status.0) }
{
    Turn {
        state: State::Ended(Ending::Stopped { step, status }),
        deed: Deed::Stopped { step, status },
    }
}

/// The coprocessor failed.
pub fn failed(step: Step) -> Turn
    ensures { (plan : PlainPlan) (channel : Option ChannelState) (message : List ℕ) (heard : PlainReply) → Did plan (seen result channel message heard)
        (Faults step) }
{
    Turn {
        state: State::Ended(Ending::Fault { step }),
        deed: Deed::Fault { step },
    }
}
