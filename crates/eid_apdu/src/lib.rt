//! Command and response APDUs (ISO/IEC 7816-4).
#![tactic(auto)]

mod chain;
mod command;
mod reply;
mod writing;

pub use chain::{Chain, Fed, MAX_REQUEST, is_fragment, law_joined_request};
pub use command::{
    BadApdu, Command, extended_expected, law_one_command, read_command, short_expected,
};
pub use reply::{MAX_CONTENT, Reply, law_one_reply, read_reply, write_reply};
pub use writing::{law_written_is_read, write_command};
