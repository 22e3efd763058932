//! The chip's files: the numbers by which commands name them (BSI TR-03110-3 and -4), and the ranges of bytes that
//! are read and written (ISO/IEC 7816-4).
#![tactic(auto)]

mod names;
mod ranges;

pub use names::{LAST_DATA_GROUP, data_group_of, file_of_id, file_of_short, law_data_groups};
pub use ranges::{read_range, write_range};
