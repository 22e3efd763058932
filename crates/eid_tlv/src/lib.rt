//! Data objects in BER-TLV (ISO/IEC 7816-4), with tags of one or two bytes and lengths up to
//! 65,535 in their shortest form.
#![tactic(auto)]

mod lists;
mod reading;
mod writing;

pub use lists::{Found, find, law_list_in, law_one_list, law_one_value, only_value};
pub use reading::{Tlv, TlvError, law_one_object, next};
pub use writing::{head, is_tag, put};
