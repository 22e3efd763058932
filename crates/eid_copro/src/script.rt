ghost use Rattle.std.specs.Prelude.{◌≡◌, ◌≤◌, ◌↔◌, [], IsTrue, IsErr};
ghost use Rattle.std.specs.Option.{option_copied};
ghost use Rattle.eid_base.specs.Faults.{Rose};
ghost use Rattle.eid_copro.specs.Asked.{Asked, nonce_answer, challenge_answer, pair_answer, map_answer, agree_answer, verify_answer, sign_answer};
ghost use Rattle.eid_copro.specs.Asks.{fits};
ghost use Rattle.eid_copro.specs.Told.{Listed, ScriptAnswers};

use crate::ask::{Answer, Ask, Question};
use crate::ask_log::AskLog;
use crate::coprocessor::{CoproFault, Coprocessor};
use crate::replies::{
    agree_reply, challenge_reply, map_reply, nonce_reply, pair_reply, sign_reply, verify_reply,
};
use eid_base::{NoMemory, Point, Secret, Signature};
use std::alloc::Global;

/// A coprocessor that gives the answers of a list, one for each question. It fails where the next
/// answer is a fault, does not fit the question, or is missing.
#[derive(Drop)]
pub struct ScriptCoprocessor {
    answers: Vec<Answer>,
    log: AskLog,
    faults: u64,
    pub ghost answered: { ScriptAnswers answers.items log.asks.items },
}

impl ScriptCoprocessor {
    ghost use Rattle.eid_copro.specs.ScriptSeen.{script_next, script_seen};

    /// The coprocessor with these answers and an empty log.
    pub fn new(alloc: Global, answers: Vec<Answer>) -> ScriptCoprocessor
        ensures log { (script_seen result).log ≡ [] }
        ensures told { (script_seen result).told ≡ Listed answers.items }
        ensures spare { (script_seen result).spare ≡ 0 }
        ensures faults { (script_seen result).faults ≡ 0 }
    {
        ScriptCoprocessor {
            answers,
            log: AskLog::new(alloc),
            faults: 0,
        }
    }

    // Answers the question and logs it.
    #[tactic(auto, using(crate::proofs::Sources::one_more, crate::proofs::Sources::script_fits))]
    fn ask(&mut self, question: Question) -> Answer
        requires { 1 ≤ (script_seen self.old).spare }
        ensures asked { Asked (script_seen self.old) (script_seen self.new) question result }
        ensures fits { IsTrue (fits question result) }
    {
        let answer = self.answer(&question);
        self.faults = faults_after(self.faults, &answer);
        self.log.push(question, answer);
        answer
    }

    // The answer at the place of the question.
    fn answer(&self, question: &Question) -> Answer
        ensures { result ≡ script_next self.now question.now }
    {
        match self.answers.get(self.log.asks().len()) {
            Some(answer) if suits(question, answer) => *answer,
            _ => Answer::Fault,
        }
    }
}

fn faults_after(faults: u64, answer: &Answer) -> u64
    ensures later { faults ≤ result }
    ensures rose { answer.now ≡ Answer.Fault → Rose faults result }
{
    match answer {
        Answer::Fault => faults.saturating_add(1),
        _ => faults,
    }
}

fn suits(question: &Question, answer: &Answer) -> bool
    ensures { result ≡ fits question.now answer.now }
{
    match question {
        Question::Nonce => matches!(answer, Answer::Nonce(_) | Answer::Fault),
        Question::Challenge => matches!(answer, Answer::Challenge(_) | Answer::Fault),
        Question::Pair { .. } => matches!(answer, Answer::Pair { .. } | Answer::Fault),
        Question::Map { .. } => matches!(
            answer,
            Answer::Mapped(_) | Answer::NoPoint | Answer::Fault
        ),
        Question::Agree { .. } => matches!(
            answer,
            Answer::Shared(_) | Answer::NoPoint | Answer::Fault
        ),
        Question::Verify { .. } => matches!(answer, Answer::Verdict(_) | Answer::Fault),
        Question::Sign { .. } => matches!(answer, Answer::Signed(_) | Answer::Fault),
    }
}

impl Coprocessor for ScriptCoprocessor {
    ghost use Rattle.eid_copro.specs.ScriptSeen.{script_next, script_seen};

    ghost seen = { script_seen };

    fn make_room(&mut self, asks: usize) -> Result<(), NoMemory> {
        self.log.make_room(asks)
    }

    fn log(&self) -> &[Ask] {
        self.log.asks()
    }

    fn nonce(&mut self) -> Result<[u8; 16], CoproFault>
        requires { 1 ≤ (script_seen self.old).spare }
        ensures asked { Asked (script_seen self.old) (script_seen self.new) Question.Nonce (nonce_answer result) }
        ensures fault { IsErr result ↔ (script_next self.old Question.Nonce ≡ Answer.Fault) }
    {
        nonce_reply(self.ask(Question::Nonce))
    }

    fn challenge(&mut self) -> Result<[u8; 8], CoproFault>
        requires { 1 ≤ (script_seen self.old).spare }
        ensures asked { Asked (script_seen self.old) (script_seen self.new) Question.Challenge (challenge_answer result) }
        ensures fault { IsErr result ↔ (script_next self.old Question.Challenge ≡ Answer.Fault) }
    {
        challenge_reply(self.ask(Question::Challenge))
    }

    fn pair(&mut self, base: Option<&Point>) -> Result<(Secret, Point), CoproFault>
        requires { 1 ≤ (script_seen self.old).spare }
        ensures asked { Asked (script_seen self.old) (script_seen self.new) (Question.Pair (option_copied base.entry)) (pair_answer result) }
        ensures fault { IsErr result ↔ (script_next self.old (Question.Pair (option_copied base.entry)) ≡ Answer.Fault) }
    {
        pair_reply(self.ask(Question::Pair {
            base: base.copied(),
        }))
    }

    fn map(
        &mut self,
        nonce: &[u8; 16],
        secret: &Secret,
        peer: &Point,
    ) -> Result<Option<Point>, CoproFault>
        requires { 1 ≤ (script_seen self.old).spare }
        ensures asked { Asked (script_seen self.old) (script_seen self.new) (Question.Map nonce.now secret.now peer.now) (map_answer result) }
        ensures fault { IsErr result ↔ (script_next self.old (Question.Map nonce.now secret.now peer.now) ≡ Answer.Fault) }
    {
        map_reply(self.ask(Question::Map {
            nonce: *nonce,
            secret: *secret,
            peer: *peer,
        }))
    }

    fn agree(&mut self, secret: &Secret, peer: &Point) -> Result<Option<[u8; 32]>, CoproFault>
        requires { 1 ≤ (script_seen self.old).spare }
        ensures asked { Asked (script_seen self.old) (script_seen self.new) (Question.Agree secret.now peer.now) (agree_answer result) }
        ensures fault { IsErr result ↔ (script_next self.old (Question.Agree secret.now peer.now) ≡ Answer.Fault) }
    {
        agree_reply(self.ask(Question::Agree {
            secret: *secret,
            peer: *peer,
        }))
    }

    fn verify(
        &mut self,
        key: &Point,
        digest: &[u8; 32],
        signature: &Signature,
    ) -> Result<bool, CoproFault>
        requires { 1 ≤ (script_seen self.old).spare }
        ensures asked { Asked (script_seen self.old) (script_seen self.new) (Question.Verify key.now digest.now signature.now) (verify_answer result) }
        ensures fault { IsErr result ↔ (script_next self.old (Question.Verify key.now digest.now signature.now) ≡ Answer.Fault) }
    {
        verify_reply(self.ask(Question::Verify {
            key: *key,
            digest: *digest,
            signature: *signature,
        }))
    }

    fn sign(&mut self, secret: &Secret, digest: &[u8; 32]) -> Result<Signature, CoproFault>
        requires { 1 ≤ (script_seen self.old).spare }
        ensures asked { Asked (script_seen self.old) (script_seen self.new) (Question.Sign secret.now digest.now) (sign_answer result) }
        ensures fault { IsErr result ↔ (script_next self.old (Question.Sign secret.now digest.now) ≡ Answer.Fault) }
    {
        sign_reply(self.ask(Question::Sign {
            secret: *secret,
            digest: *digest,
        }))
    }

    ghost keeps_to_told = { λ script. script.answered };
}
