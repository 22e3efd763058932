//! Counting the results of a session.
ghost use Rattle.std.specs.Prelude.{◌≡◌, ℕ, ◌+◌, ◌≤◌, ◌<◌, ◌^◌, List};
ghost use Rattle.eid_apdu.specs.Answer.{plain_reply};
ghost use Rattle.eid_terminal.specs.Terminals.{move_made};
ghost use Rattle.eid_run.specs.Tallies.{no_results, tally_more};

use eid_apdu::Reply;
use eid_base::Status;
use eid_terminal::Deed;

/// Success.
const SUCCESS: Status = Status(0x9000);

/// How many requests were answered with success, and how many with another status.
#[derive(Clone, Copy)]
pub struct Tally {
    /// With the status 9000.
    pub answered: u32,
    /// With another one.
    pub refused: u32,
}

impl Tally {
    /// Before the first request.
    pub fn new() -> Tally
        ensures { result ≡ no_results }
    {
        Tally {
            answered: 0,
            refused: 0,
        }
    }

    /// Counts what a deed tells: the reply that was heard to a request, or nothing.
    pub fn count(&mut self, deed: Deed, heard: &Reply)
        requires answered { self.old.answered + 1 < 2 ^ 32 }
        requires refused { self.old.refused + 1 < 2 ^ 32 }
        ensures more { (message : List ℕ) → self.new ≡ tally_more self.old (move_made deed message (plain_reply heard.now)) }
        ensures answered { self.new.answered ≤ self.old.answered + 1 }
        ensures refused { self.new.refused ≤ self.old.refused + 1 }
    {
        let Deed::Result { .. } = deed else {
            return;
        };
        if heard.status == SUCCESS {
            self.answered += 1;
        } else {
            self.refused += 1;
        }
    }
}
