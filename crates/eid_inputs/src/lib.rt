//! What a program is given, and how it ends: its words, the number in them, its input files, and the exits that refuse them. An
//! image is checked before it is used, and a file is stored by one call.
#![tactic(auto)]

mod exit;
mod inputs;
mod loading;
mod numbers;
mod storing;
mod words;

pub use exit::Exit;
pub use loading::{IMAGE_SIZE, Input, load, load_both, load_image};
pub use numbers::number;
pub use storing::store_file;
pub use words::arguments;
