//! Authorisation templates, dates and identifiers, as commands, certificates and the chip's record
//! spell them.
#![tactic(auto)]

mod date;
mod identifier;
mod lookup;
mod rights;
mod template;

pub use date::{BadDate, Date6, Date8};
pub use identifier::Known;
pub use lookup::{known, law_one_identifier};
pub use rights::{Bits, meet};
pub use template::{BadTemplate, Role, Template};
