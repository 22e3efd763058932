//! Pieces of texts: hexadecimal and decimal digits, and what the lines of a text say. This project's own.
#![tactic(auto)]

mod digits;
mod writing;

pub use digits::{are_digits, decode_hex};
pub use writing::{put_decimal, put_hex};
