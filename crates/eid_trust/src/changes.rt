//! What an accepted certificate changes.
ghost use Rattle.std.specs.Prelude.{◌≡◌, ◌≤◌, length, IfSome, option_map};
ghost use Rattle.eid_cvc.specs.Certificates.{IsBody};
ghost use Rattle.eid_cvc.specs.Chains.{chain_view, party_view};
ghost use Rattle.eid_cvc.specs.View.{certificate_view};
ghost use Rattle.eid_record.specs.Effect.{CanApply};
ghost use Rattle.eid_record.specs.EffectView.{effect_view};
ghost use Rattle.eid_record.specs.Valid.{IsValid};
ghost use Rattle.eid_record.specs.View.{record_view, trust_point_view};
ghost use Rattle.eid_trust.specs.Trust.{advance, chain_after, is_domestic, moves_date, moves_point, party_of, point_of, tells_date};

use crate::judging::is_link;
use crate::signing::point_named;
use arrayvec::ArrayVec;
use eid_bits::Role;
use eid_cvc::{Certificate, ChainState, Party};
use eid_record::{Effect, Record, TrustPoint};

/// The chain after the certificate: a document verifier begins one under its trust point, a terminal ends it, and a
/// link leaves it as it is.
pub(crate) fn chain_after(kept: &Record, chain: &ChainState, c: &Certificate<'_>) -> ChainState
    requires { IsBody (certificate_view c.now).body }
    ensures { chain_view result ≡ chain_after (record_view kept.now) (chain_view chain.now) (certificate_view c.now).body }
{
    match c.template.role() {
        Role::Cvca => chain.copied(),
        Role::Domestic | Role::Foreign => ChainState {
            root: point_named(kept, c.issuer).map(|point| point.template),
            verifier: Some(party_of(c)),
            terminal: None,
            sectors: [None, None],
        },
        Role::Terminal => ChainState {
            root: chain.root,
            verifier: chain.verifier.as_ref().map(Party::copied),
            terminal: Some(party_of(c)),
            sectors: c.sectors,
        },
    }
}

/// What is committed: the date and the trust points, where one of them changes.
#[tactic(auto, using(crate::proofs::Fits::effect_fits))]
pub(crate) fn advance(
    kept: &Record,
    chain: &ChainState,
    c: &Certificate<'_>,
) -> Option<Effect<'static>>
    requires { IsBody (certificate_view c.now).body }
    ensures value { option_map effect_view result
        ≡ advance (record_view kept.now) (chain_view chain.now) (certificate_view c.now).body }
    ensures fits { IsValid (record_view kept.now)
        → IfSome result (λ effect. CanApply (effect_view effect) (record_view kept.now)) }
{
    let moves_date = moves_date(kept, chain, c);
    let moves_point = moves_point(kept, c);
    if !moves_date && !moves_point {
        return None;
    }
    Some(Effect::Advance {
        date: if moves_date { c.effective } else { kept.date },
        current: if moves_point {
            point_of(c)
        } else {
            kept.current.copied()
        },
        previous: if moves_point {
            Some(kept.current.copied())
        } else {
            kept.previous.as_ref().map(TrustPoint::copied)
        },
    })
}

/// Whether the chip's date becomes the certificate's effective date: it is trusted, and later.
fn moves_date(kept: &Record, chain: &ChainState, c: &Certificate<'_>) -> bool
    ensures { result ≡ moves_date (record_view kept.now) (chain_view chain.now) (certificate_view c.now).body }
{
    tells_date(c.template.role(), chain) && kept.date.number() < c.effective.number()
}

/// Whether the effective date of a certificate of this role is trusted: that of a terminal only under an official
/// domestic document verifier.
fn tells_date(role: Role, chain: &ChainState) -> bool
    ensures { result ≡ tells_date role (chain_view chain.now) }
{
    match role {
        Role::Cvca | Role::Domestic | Role::Foreign => true,
        Role::Terminal => is_domestic(chain),
    }
}

/// Whether the document verifier is an official domestic one.
fn is_domestic(chain: &ChainState) -> bool
    ensures { result ≡ is_domestic (chain_view chain.now).verifier }
{
    match &chain.verifier {
        Some(verifier) => matches!(verifier.template.role(), Role::Domestic),
        None => false,
    }
}

/// Whether the certificate is a link to another trust point than the current one.
fn moves_point(kept: &Record, c: &Certificate<'_>) -> bool
    ensures { result ≡ moves_point (record_view kept.now) (certificate_view c.now).body }
{
    is_link(c) && kept.current.name.as_slice() != c.holder
}

/// The certificate's holder as a trust point.
fn point_of(c: &Certificate<'_>) -> TrustPoint
    requires { IsBody (certificate_view c.now).body }
    ensures { trust_point_view result ≡ point_of (certificate_view c.now).body }
{
    TrustPoint {
        name: name_of(c.holder),
        template: c.template,
        key: c.key,
    }
}

/// The certificate's holder as one who is kept in the chain.
fn party_of(c: &Certificate<'_>) -> Party
    requires { IsBody (certificate_view c.now).body }
    ensures { party_view result ≡ party_of (certificate_view c.now).body }
{
    Party {
        name: name_of(c.holder),
        template: c.template,
        key: c.key,
    }
}

/// A reference as it is kept.
fn name_of(reference: &[u8]) -> ArrayVec<u8, 16>
    requires { length reference.now ≤ 16 }
    ensures { result.items ≡ reference.now }
{
    let mut name = ArrayVec::new();
    name.try_extend_from_slice(reference).unwrap();
    name
}
