ghost use Rattle.std.specs.Prelude.{◌≡◌};
ghost use Rattle.sha2.specs.Sha256.{sha256};
ghost use Rattle.eid_ta.specs.Announcing.{signed_bytes};
ghost use Rattle.eid_ta.specs.View.{challenged_view};

use crate::announced::Announced;
use crate::rules::{FAULT, WRONG_SIGNATURE};
use eid_base::{Rule, Signature};
use eid_copro::Coprocessor;
use eid_cvc::TerminalKnown;
use sha2::{Digest, Sha256};

/// A challenge was sent.
#[derive(Drop)]
pub struct Challenged {
    pub(crate) announced: Announced,
    pub(crate) challenge: [u8; 8],
}

impl Challenged {
    ghost use Rattle.std.specs.Prelude.{◌≤◌};
    ghost use Rattle.eid_copro.specs.Asking.{EndsAs};
    ghost use Rattle.eid_ta.specs.VerifyEnds.{verify_asks, verify_given};
    ghost use Rattle.eid_ta.specs.View.{known};

    /// The last step: verifies with the terminal's key that the signature is one of the SHA-256 of the chip's identity,
    /// the challenge, the X half of the terminal's ephemeral key, and the object 67 whole or nothing. `identity` is
    /// the X half of the chip's ephemeral point of PACE.
    ///
    /// # Errors
    /// Rule 50 exactly where the coprocessor met a fault, rule 53 exactly where the signature is another.
    pub fn verify<C: Coprocessor>(
        self,
        identity: &[u8; 32],
        signature: &Signature,
        copro: &mut C,
    ) -> Result<TerminalKnown, Rule>
        requires { 1 ≤ (C.seen copro.old).spare }
        ensures { let challenged = challenged_view self in
            EndsAs (C.seen copro.old) (C.seen copro.new) (verify_asks challenged identity.now signature.now) (verify_given challenged) (known result) }
    {
        let digest = self.digest(identity);
        let Ok(good) = copro.verify(&self.announced.key, &digest, signature) else {
            return Err(FAULT);
        };
        if !good {
            return Err(WRONG_SIGNATURE);
        }
        Ok(self.announced.known())
    }

    /// SHA-256 of what the terminal signs for the chip of that identity.
    fn digest(&self, identity: &[u8; 32]) -> [u8; 32]
        ensures { result ≡ sha256 (signed_bytes identity.now (challenged_view self.now)) }
    {
        let mut hasher = Sha256::new();
        hasher.update(identity);
        hasher.update(&self.challenge);
        hasher.update(&self.announced.key_x);
        hasher.update(self.announced.sent.as_slice());
        hasher.finalize()
    }
}
