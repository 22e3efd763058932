//! The coprocessor that the chip and the terminal ask for random bytes, points and signatures:
//! what each coprocessor promises, a model of one, and one that answers from a list. This project's
//! own.
#![tactic(auto)]

mod any;
mod ask;
mod ask_log;
mod coprocessor;
mod law;
mod lines;
mod model;
mod numbers;
mod replies;
mod script;

pub use any::AnyCopro;
pub use ask::{Answer, Ask, Question};
pub use coprocessor::{CoproFault, Coprocessor};
pub use law::law_answers_grammar;
pub use lines::{AnswersError, read_answers};
pub use model::ModelCoprocessor;
pub use script::ScriptCoprocessor;
