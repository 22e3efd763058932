ghost use Rattle.std.specs.Prelude.{◌≡◌, ◌≤◌, [], ◌++◌, IsTrue, IsOk, take};
ghost use Rattle.std.specs.Option.{option_copied};
ghost use Rattle.eid_copro.specs.Asked.{Asked, nonce_answer, challenge_answer, pair_answer, map_answer, agree_answer, verify_answer, sign_answer};
ghost use Rattle.eid_copro.specs.Asks.{fits};
ghost use Rattle.eid_copro.specs.Model.{agreement, blocks_drawn, draws, mapping, model_answer, pair_from, random_block, signature_of};
ghost use Rattle.sha2.specs.Sha256.{sha256};
ghost use Rattle.eid_copro.specs.Told.{ModelAnswers, Start};

use crate::ask::{Answer, Ask, Question};
use crate::ask_log::AskLog;
use crate::coprocessor::{CoproFault, Coprocessor};
use crate::numbers::{
    GENERATOR, number_of_base, number_of_point, number_of_scalar, spell_point, spell_secret,
};
use crate::replies::{
    agree_reply, challenge_reply, map_reply, nonce_reply, pair_reply, sign_reply, verify_reply,
};
use eid_base::{NoMemory, Point, Secret, Signature};
use sha2::{Digest, Sha256};
use std::alloc::Global;

/// A coprocessor that computes with numbers of 64 bits in place of points, and draws its random
/// bytes from a start. It never fails.
#[derive(Drop)]
pub struct ModelCoprocessor {
    start: u64,
    drawn: u64,
    log: AskLog,
    pub ghost answered: { ModelAnswers start log.asks.items },
    pub ghost counted: { drawn ≡ blocks_drawn log.asks.items },
}

impl ModelCoprocessor {
    ghost use Rattle.eid_copro.specs.ModelSeen.{model_seen};

    /// The model with that start and an empty log.
    pub fn new(alloc: Global, start: u64) -> ModelCoprocessor
        ensures log { (model_seen result).log ≡ [] }
        ensures told { (model_seen result).told ≡ Start start }
        ensures spare { (model_seen result).spare ≡ 0 }
    {
        ModelCoprocessor {
            start,
            drawn: 0,
            log: AskLog::new(alloc),
        }
    }

    // Answers the question and logs it.
    #[tactic(auto, using(crate::proofs::Sources::one_more, crate::proofs::Sources::drawn_more, crate::proofs::Sources::model_fits, crate::proofs::Sources::model_never_faults))]
    fn ask(&mut self, question: Question) -> Answer
        requires { 1 ≤ (model_seen self.old).spare }
        ensures asked { Asked (model_seen self.old) (model_seen self.new) question result }
        ensures fits { IsTrue (fits question result) }
    {
        let answer = self.answer(question);
        self.drawn += u64::from(uses_block(&question));
        self.log.push(question, answer);
        answer
    }

    #[tactic(auto, unfolding(crate::specs::Model::answer_with))]
    fn answer(&self, question: Question) -> Answer
        ensures { result ≡ model_answer self.now.start (model_seen self.now).log question }
    {
        match question {
            Question::Nonce => Answer::Nonce(front(&self.block())),
            Question::Challenge => Answer::Challenge(front(&self.block())),
            Question::Pair { base } => pair_of(&self.block(), &base),
            Question::Map {
                nonce,
                secret,
                peer,
            } => map_of(&nonce, &secret, &peer),
            Question::Agree { secret, peer } => agree_of(&secret, &peer),
            Question::Verify {
                key,
                digest,
                signature,
            } => Answer::Verdict(signature == sign_with(&key, &digest)),
            Question::Sign { secret, digest } => {
                let public = spell_point(number_of_scalar(&secret).wrapping_mul(GENERATOR));
                Answer::Signed(sign_with(&public, &digest))
            }
        }
    }

    // The next random block.
    fn block(&self) -> [u8; 32]
        ensures { result ≡ random_block self.now.start (blocks_drawn (model_seen self.now).log) }
    {
        digest(&self.start.to_be_bytes(), &self.drawn.to_be_bytes())
    }
}

fn uses_block(question: &Question) -> bool
    ensures { result ≡ draws question.now }
{
    matches!(
        question,
        Question::Nonce | Question::Challenge | Question::Pair { .. }
    )
}

// The first bytes of a block.
fn front<const N: usize>(block: &[u8; 32]) -> [u8; N]
    requires { N ≤ 32 }
    ensures { result ≡ take N block.now }
{
    let mut bytes = [0; N];
    bytes.copy_from_slice(&block[..N]);
    bytes
}

#[tactic(auto, unfolding(crate::specs::Model::pair_from))]
fn pair_of(block: &[u8; 32], base: &Option<Point>) -> Answer
    ensures { result ≡ pair_from block.now base.now }
{
    let number = u64::from_be_bytes(front(block)) | 1;
    Answer::Pair {
        secret: spell_secret(number),
        public: spell_point(number.wrapping_mul(number_of_base(base))),
    }
}

#[tactic(auto, unfolding(crate::specs::Model::mapping))]
fn map_of(nonce: &[u8; 16], secret: &Secret, peer: &Point) -> Answer
    ensures { result ≡ mapping nonce.now secret.now peer.now }
{
    let point = number_of_point(peer);
    let shared = number_of_scalar(secret).wrapping_mul(point);
    let result = number_of_scalar(nonce)
        .wrapping_mul(GENERATOR)
        .wrapping_add(shared);
    if point == 0 || result == 0 {
        return Answer::NoPoint;
    }
    Answer::Mapped(spell_point(result))
}

#[tactic(auto, unfolding(crate::specs::Model::agreement))]
fn agree_of(secret: &Secret, peer: &Point) -> Answer
    ensures { result ≡ agreement secret.now peer.now }
{
    let point = number_of_point(peer);
    let shared = number_of_scalar(secret).wrapping_mul(point);
    if point == 0 || shared == 0 {
        return Answer::NoPoint;
    }
    let mut x = [0; 32];
    x.copy_from_slice(&spell_point(shared)[1..33]);
    Answer::Shared(x)
}

// The signature of the digest by the signer with that public point.
#[tactic(auto, unfolding(crate::specs::Model::signature_of))]
fn sign_with(public: &Point, signed: &[u8; 32]) -> Signature
    ensures { result ≡ signature_of public.now signed.now }
{
    let mut signature = [0; 64];
    signature[..32].copy_from_slice(&digest(public, signed));
    signature
}

// SHA-256 of the two joined.
fn digest(first: &[u8], second: &[u8]) -> [u8; 32]
    ensures { result ≡ sha256 (first.now ++ second.now) }
{
    let mut hasher = Sha256::new();
    hasher.update(first);
    hasher.update(second);
    hasher.finalize()
}

impl Coprocessor for ModelCoprocessor {
    ghost use Rattle.eid_copro.specs.ModelSeen.{model_seen};

    ghost seen = { model_seen };

    fn make_room(&mut self, asks: usize) -> Result<(), NoMemory> {
        self.log.make_room(asks)
    }

    fn log(&self) -> &[Ask] {
        self.log.asks()
    }

    fn nonce(&mut self) -> Result<[u8; 16], CoproFault>
        requires { 1 ≤ (model_seen self.old).spare }
        ensures asked { Asked (model_seen self.old) (model_seen self.new) Question.Nonce (nonce_answer result) }
        ensures never { IsOk result }
    {
        nonce_reply(self.ask(Question::Nonce))
    }

    fn challenge(&mut self) -> Result<[u8; 8], CoproFault>
        requires { 1 ≤ (model_seen self.old).spare }
        ensures asked { Asked (model_seen self.old) (model_seen self.new) Question.Challenge (challenge_answer result) }
        ensures never { IsOk result }
    {
        challenge_reply(self.ask(Question::Challenge))
    }

    fn pair(&mut self, base: Option<&Point>) -> Result<(Secret, Point), CoproFault>
        requires { 1 ≤ (model_seen self.old).spare }
        ensures asked { Asked (model_seen self.old) (model_seen self.new) (Question.Pair (option_copied base.entry)) (pair_answer result) }
        ensures never { IsOk result }
    {
        pair_reply(self.ask(Question::Pair {
            base: base.copied(),
        }))
    }

    fn map(
        &mut self,
        nonce: &[u8; 16],
        secret: &Secret,
        peer: &Point,
    ) -> Result<Option<Point>, CoproFault>
        requires { 1 ≤ (model_seen self.old).spare }
        ensures asked { Asked (model_seen self.old) (model_seen self.new) (Question.Map nonce.now secret.now peer.now) (map_answer result) }
        ensures never { IsOk result }
    {
        map_reply(self.ask(Question::Map {
            nonce: *nonce,
            secret: *secret,
            peer: *peer,
        }))
    }

    fn agree(&mut self, secret: &Secret, peer: &Point) -> Result<Option<[u8; 32]>, CoproFault>
        requires { 1 ≤ (model_seen self.old).spare }
        ensures asked { Asked (model_seen self.old) (model_seen self.new) (Question.Agree secret.now peer.now) (agree_answer result) }
        ensures never { IsOk result }
    {
        agree_reply(self.ask(Question::Agree {
            secret: *secret,
            peer: *peer,
        }))
    }

    fn verify(
        &mut self,
        key: &Point,
        digest: &[u8; 32],
        signature: &Signature,
    ) -> Result<bool, CoproFault>
        requires { 1 ≤ (model_seen self.old).spare }
        ensures asked { Asked (model_seen self.old) (model_seen self.new) (Question.Verify key.now digest.now signature.now) (verify_answer result) }
        ensures never { IsOk result }
    {
        verify_reply(self.ask(Question::Verify {
            key: *key,
            digest: *digest,
            signature: *signature,
        }))
    }

    fn sign(&mut self, secret: &Secret, digest: &[u8; 32]) -> Result<Signature, CoproFault>
        requires { 1 ≤ (model_seen self.old).spare }
        ensures asked { Asked (model_seen self.old) (model_seen self.new) (Question.Sign secret.now digest.now) (sign_answer result) }
        ensures never { IsOk result }
    {
        sign_reply(self.ask(Question::Sign {
            secret: *secret,
            digest: *digest,
        }))
    }

    ghost keeps_to_told = { λ model. model.answered };
}
