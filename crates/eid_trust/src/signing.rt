//! Who signs under a name.
ghost use Rattle.std.specs.Prelude.{◌≡◌, Some, option_map};
ghost use Rattle.eid_cvc.specs.Chains.{chain_view, party_view};
ghost use Rattle.eid_record.specs.View.{record_view, trust_point_view};
ghost use Rattle.eid_trust.specs.Trust.{key_of, may_sign, point_named, signer_of, verifier_named};
ghost use Rattle.eid_trust.specs.View.{signer_view};

use eid_base::Point;
use eid_bits::Role;
use eid_cvc::{ChainState, Party};
use eid_record::{Record, TrustPoint};

/// The certification authority that is known under a name.
#[derive(Clone, Copy)]
pub(crate) enum Authority<'a> {
    /// A trust point of the chip.
    Point(&'a TrustPoint),
    /// The document verifier accepted last.
    Verifier(&'a Party),
}

impl Authority<'_> {
    /// The key by which its signatures are verified.
    pub(crate) fn key(&self) -> Point
        ensures { result ≡ key_of (signer_view self.now) }
    {
        match self {
            Authority::Point(point) => point.key,
            Authority::Verifier(verifier) => verifier.key,
        }
    }

    /// Whether it signs certificates of this role: a trust point links and document verifiers, a document
    /// verifier terminals.
    pub(crate) fn may_sign(&self, role: Role) -> bool
        ensures { result ≡ may_sign (Some (signer_view self.now)) role }
    {
        match self {
            Authority::Point(_) => !matches!(role, Role::Terminal),
            Authority::Verifier(_) => matches!(role, Role::Terminal),
        }
    }
}

/// The key of the one who signs under this name: the current trust point, else the previous one, else the document
/// verifier accepted last (BSI TR-03110-3). `None` comes exactly where none of them has the name.
pub fn signer(kept: &Record, chain: &ChainState, name: &[u8]) -> Option<Point>
    ensures { result ≡ option_map key_of (signer_of (record_view kept.now) (chain_view chain.now) name.now) }
{
    Some(find_signer(kept, chain, name)?.key())
}

/// The one who signs under this name.
pub(crate) fn find_signer<'a>(
    kept: &'a Record,
    chain: &'a ChainState,
    name: &[u8],
) -> Option<Authority<'a>>
    ensures { option_map signer_view result ≡ signer_of (record_view kept.now) (chain_view chain.now) name.now }
{
    if let Some(point) = point_named(kept, name) {
        return Some(Authority::Point(point));
    }
    Some(Authority::Verifier(verifier_named(chain, name)?))
}

/// The trust point of this name, the current one before the previous.
pub(crate) fn point_named<'a>(kept: &'a Record, name: &[u8]) -> Option<&'a TrustPoint>
    ensures { option_map (λ point. trust_point_view point.now) result ≡ point_named (record_view kept.now) name.now }
{
    if kept.current.name.as_slice() == name {
        return Some(&kept.current);
    }
    match &kept.previous {
        Some(previous) if previous.name.as_slice() == name => Some(previous),
        _ => None,
    }
}

/// The document verifier, where it has this name.
fn verifier_named<'a>(chain: &'a ChainState, name: &[u8]) -> Option<&'a Party>
    ensures { option_map (λ verifier. party_view verifier.now) result ≡ verifier_named (chain_view chain.now).verifier name.now }
{
    match &chain.verifier {
        Some(verifier) if verifier.name.as_slice() == name => Some(verifier),
        _ => None,
    }
}
