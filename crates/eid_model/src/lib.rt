//! The definitions of the chip: moments and journals, sessions, rules, answers, legality and the trace.
#![tactic(auto)]

mod comparison;
mod kind;
mod law;
mod moment;
mod text;

pub use comparison::Comparison;
pub use kind::Kind;
pub use law::{
    law_access, law_authentication_data, law_date, law_fresh, law_kept, law_key_name,
    law_one_journal, law_spend, law_tries, law_try_left,
};
pub use moment::{Input, InputRef, MAX_BODY, Moment, MomentRef, Plain};
pub use text::{Text, trace_text};
