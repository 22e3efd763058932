//! The chip's durable values: the record's fields, their fixed bytes, and what each effect changes.
#![tactic(auto)]

mod effect;
mod fields;
mod layout;
mod reading;
mod writing;

pub use effect::{Effect, apply};
pub use fields::{FileNo, Password, Record, TrustPoint, size_of};
pub use layout::{FILES, FIXED, MAX_FILE, MAX_FILES};
pub use reading::{BadRecord, are_digits, read_record};
pub use writing::write_record;
