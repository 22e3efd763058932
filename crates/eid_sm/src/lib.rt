//! Secure messaging with AES-128 at both ends (BSI TR-03110-3; ISO/IEC 7816-4): the chip unwraps
//! commands and seals replies, the terminal wraps commands and unseals replies.
#![tactic(auto)]

mod channel;
mod commands;
mod parts;
mod reading;
mod replies;

pub use channel::{Channel, Header, MAX_PLAIN, SmError, law_one_protected, law_one_sealed};
pub use parts::MAX_MESSAGE;
