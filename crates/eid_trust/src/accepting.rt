//! Accepting a certificate.
ghost use Rattle.std.specs.Prelude.{◌≡◌, IfOk, IfSome};
ghost use Rattle.eid_cvc.specs.Certificates.{IsBody};
ghost use Rattle.eid_cvc.specs.Chains.{chain_view};
ghost use Rattle.eid_cvc.specs.View.{certificate_view};
ghost use Rattle.eid_record.specs.Effect.{CanApply};
ghost use Rattle.eid_record.specs.EffectView.{effect_view};
ghost use Rattle.eid_record.specs.Valid.{IsValid};
ghost use Rattle.eid_record.specs.View.{record_view};
ghost use Rattle.eid_trust.specs.Trust.{accept_given};
ghost use Rattle.eid_trust.specs.View.{accepted};

use crate::changes::{advance, chain_after};
use crate::judging::judge;
use eid_base::{Point, Rule};
use eid_cvc::{Certificate, ChainState};
use eid_record::{Effect, Record};

/// What follows from a certificate that is accepted. `chain` and `advance` are to be used only after the certificate's
/// signature was found right with `key`.
#[derive(Drop)]
pub struct Accepted {
    /// The signer's public key, which the signature is verified with.
    pub key: Point,
    /// The chain after the certificate.
    pub chain: ChainState,
    /// What is to be committed, where the chip's date or its trust points change.
    pub advance: Option<Effect<'static>>,
}

/// What follows from a certificate whose signature is right (BSI TR-03110-3). `selected` is the issuer's name that was
/// selected before it. Nothing is changed here, also where a rule fails.
///
/// # Errors
/// The first rule that fails: rule 42 is a certificate of another issuer than the selected one; rule 43 an issuer who
/// is not known, or a signer that signs no certificates of this role (a trust point signs links and document
/// verifiers, the document verifier accepted last signs terminals); rule 44 a link that is neither signed by the
/// current trust point nor its own; rule 45 a certificate of another role whose expiration date is before the chip's
/// date.
pub fn accept(
    kept: &Record,
    chain: &ChainState,
    selected: &[u8],
    c: &Certificate<'_>,
) -> Result<Accepted, Rule>
    requires { IsBody (certificate_view c.now).body }
    ensures given { accepted result
        ≡ accept_given (record_view kept.now) (chain_view chain.now) selected.now (certificate_view c.now).body }
    ensures fits { IsValid (record_view kept.now)
        → IfOk result (λ a. IfSome a.advance (λ effect. CanApply (effect_view effect) (record_view kept.now))) }
{
    let signer = judge(kept, chain, selected, c)?;
    Ok(Accepted {
        key: signer.key(),
        chain: chain_after(kept, chain, c),
        advance: advance(kept, chain, c),
    })
}
