ghost use Rattle.std.specs.Prelude.{◌≡◌, ◌+◌, ◌≤◌, [], ◌∷◌, ◌++◌, OnOk, vec_len, vec_capacity};

use crate::ask::{Answer, Ask, Question};
use eid_base::NoMemory;
use std::alloc::Global;

// The asks of a coprocessor, and for how many more there is room.
#[derive(Drop)]
pub(crate) struct AskLog {
    asks: Vec<Ask>,
    spare: usize,
    ghost room: { vec_len asks + spare ≤ vec_capacity asks },
}

impl AskLog {
    pub(crate) fn new(alloc: Global) -> AskLog
        ensures asks { result.asks.items ≡ [] }
        ensures spare { result.spare ≡ 0 }
    {
        AskLog {
            asks: Vec::new(alloc),
            spare: 0,
        }
    }

    pub(crate) fn make_room(&mut self, asks: usize) -> Result<(), NoMemory>
        ensures room { OnOk result (asks ≤ self.new.spare) }
        ensures asks { self.new.asks.items ≡ self.old.asks.items }
    {
        self.asks.reserve(asks)?;
        self.spare = self.spare.max(asks);
        Ok(())
    }

    pub(crate) fn asks(&self) -> &[Ask]
        ensures { result.now ≡ self.now.asks.items }
    {
        &self.asks
    }

    pub(crate) fn push(&mut self, question: Question, answer: Answer)
        requires { 1 ≤ self.old.spare }
        ensures asks { self.new.asks.items ≡ self.old.asks.items ++ record { question = question; answer = answer } ∷ [] }
        ensures spare { self.new.spare + 1 ≡ self.old.spare }
    {
        self.spare -= 1;
        let _ = self.asks.push(Ask { question, answer });
    }
}
