//! How a command ends.
use eid_base::Rule;
use eid_sm::{Channel, Header};

/// How a command was answered: the first failed rule, or 0, and the channel that it opened. The answer and the session stand
/// beside it.
#[derive(Drop)]
pub struct Reaction {
    pub rule: Rule,
    pub opened: Option<Channel>,
}

/// How a command ended that may commit.
#[derive(Drop)]
pub enum Ending {
    /// It was answered, after all commits that were due.
    Answered {
        /// How.
        reaction: Reaction,
        /// How many commits finished.
        finished: u8,
    },
    /// The power was cut in a commit.
    Lost {
        /// How many commits finished before it.
        finished: u8,
    },
}

/// The command that was read, without its body, and how it ended.
#[derive(Drop)]
pub struct Response {
    pub plain: Option<Header>,
    pub ending: Ending,
}
