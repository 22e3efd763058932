ghost use Rattle.std.specs.Prelude.{◌≡◌, ◌≤◌, OnOk};
ghost use Rattle.std.specs.Option.{option_copied};
ghost use Rattle.eid_copro.specs.Asked.{Asked, nonce_answer, challenge_answer, pair_answer, map_answer, agree_answer, verify_answer, sign_answer};
ghost use Rattle.eid_copro.specs.Seen.{CoproSeen};
ghost use Rattle.eid_copro.specs.Told.{KeepsTo};

use crate::ask::{Ask, Question};
use eid_base::{NoMemory, Point, Secret, Signature};

/// The coprocessor failed: it is broken, or has no answer that fits the question. Its count of faults rose.
#[derive(Clone, Copy, Debug)]
pub struct CoproFault;

/// What answers questions and keeps a log of them. A question takes no memory: its place in the log
/// was made before by `make_room`. Each question may be answered by `CoproFault`; it is then logged with a fault.
pub trait Coprocessor {
    // What it shows to contracts.
    ghost seen: { Self → CoproSeen };

    /// Makes room for that many more questions. `NoMemory` comes where memory for them is refused.
    fn make_room(&mut self, asks: usize) -> Result<(), NoMemory>
        ensures room { OnOk result (asks ≤ (seen self.new).spare) }
        ensures log { (seen self.new).log ≡ (seen self.old).log }
        ensures told { (seen self.new).told ≡ (seen self.old).told }
        ensures later { (seen self.old).faults ≤ (seen self.new).faults };

    /// The questions so far with their answers, oldest first.
    fn log(&self) -> &[Ask]
        ensures { result.now ≡ (seen self.now).log };

    /// A random nonce of 16 bytes.
    fn nonce(&mut self) -> Result<[u8; 16], CoproFault>
        requires { 1 ≤ (seen self.old).spare }
        ensures { Asked (seen self.old) (seen self.new) Question.Nonce (nonce_answer result) };

    /// A random challenge of 8 bytes.
    fn challenge(&mut self) -> Result<[u8; 8], CoproFault>
        requires { 1 ≤ (seen self.old).spare }
        ensures { Asked (seen self.old) (seen self.new) Question.Challenge (challenge_answer result) };

    /// A random secret and its public point over that base, or over the generator.
    fn pair(&mut self, base: Option<&Point>) -> Result<(Secret, Point), CoproFault>
        requires { 1 ≤ (seen self.old).spare }
        ensures { Asked (seen self.old) (seen self.new) (Question.Pair (option_copied base.entry)) (pair_answer result) };

    /// The base of PACE's generic mapping (BSI TR-03110-3); none where that is no point.
    fn map(
        &mut self,
        nonce: &[u8; 16],
        secret: &Secret,
        peer: &Point,
    ) -> Result<Option<Point>, CoproFault>
        requires { 1 ≤ (seen self.old).spare }
        ensures { Asked (seen self.old) (seen self.new) (Question.Map nonce.now secret.now peer.now) (map_answer result) };

    /// The X half of the point that the secret and the peer's point agree on; none where that is no
    /// point.
    fn agree(&mut self, secret: &Secret, peer: &Point) -> Result<Option<[u8; 32]>, CoproFault>
        requires { 1 ≤ (seen self.old).spare }
        ensures { Asked (seen self.old) (seen self.new) (Question.Agree secret.now peer.now) (agree_answer result) };

    /// Whether the signature of the digest is one by that key.
    fn verify(
        &mut self,
        key: &Point,
        digest: &[u8; 32],
        signature: &Signature,
    ) -> Result<bool, CoproFault>
        requires { 1 ≤ (seen self.old).spare }
        ensures { Asked (seen self.old) (seen self.new) (Question.Verify key.now digest.now signature.now) (verify_answer result) };

    /// A signature of the digest.
    fn sign(&mut self, secret: &Secret, digest: &[u8; 32]) -> Result<Signature, CoproFault>
        requires { 1 ≤ (seen self.old).spare }
        ensures { Asked (seen self.old) (seen self.new) (Question.Sign secret.now digest.now) (sign_answer result) };

    // The log is one that what was told makes.
    ghost keeps_to_told: { (x : Self) → KeepsTo (seen x).told (seen x).log };
}
