//! Whether a certificate is accepted.
ghost use Rattle.std.specs.Prelude.{◌≡◌};
ghost use Rattle.eid_cvc.specs.Chains.{chain_view};
ghost use Rattle.eid_cvc.specs.View.{certificate_view};
ghost use Rattle.eid_record.specs.View.{record_view};
ghost use Rattle.eid_trust.specs.Trust.{is_in_date, is_link, is_of_current, refusal, judged_by, signer_of};
ghost use Rattle.eid_trust.specs.View.{judged};

use crate::signing::{Authority, find_signer};
use eid_base::Rule;
use eid_base::rules::{EXPIRED, OTHER_ISSUER, WRONG_LINK, WRONG_SIGNER};
use eid_bits::Role;
use eid_cvc::{Certificate, ChainState};
use eid_record::Record;

/// The signer of a certificate that is accepted, or the first rule that fails: the issuer is the name that was
/// selected, the signer signs certificates of this role, a link is of the current trust point, and another
/// certificate has not expired.
pub(crate) fn judge<'a>(
    kept: &'a Record,
    chain: &'a ChainState,
    selected: &[u8],
    c: &Certificate<'_>,
) -> Result<Authority<'a>, Rule>
    ensures { let body = (certificate_view c.now).body in
        judged result ≡ judged_by (signer_of (record_view kept.now) (chain_view chain.now) body.issuer)
        (refusal (record_view kept.now) (chain_view chain.now) selected.now body) }
{
    if c.issuer != selected {
        return Err(OTHER_ISSUER);
    }
    let Some(signer) = find_signer(kept, chain, c.issuer) else {
        return Err(WRONG_SIGNER);
    };
    if !signer.may_sign(c.template.role()) {
        return Err(WRONG_SIGNER);
    }
    if is_link(c) {
        if !is_of_current(kept, c) {
            return Err(WRONG_LINK);
        }
    } else if !is_in_date(kept, c) {
        return Err(EXPIRED);
    }
    Ok(signer)
}

/// Whether the certificate is of a country verifying certification authority.
pub(crate) fn is_link(c: &Certificate<'_>) -> bool
    ensures { result ≡ is_link (certificate_view c.now).body }
{
    matches!(c.template.role(), Role::Cvca)
}

/// Whether a link is signed by the current trust point or is its own.
fn is_of_current(kept: &Record, c: &Certificate<'_>) -> bool
    ensures { result ≡ is_of_current (record_view kept.now) (certificate_view c.now).body }
{
    let current = kept.current.name.as_slice();
    current == c.issuer || current == c.holder
}

/// Whether the certificate's last day is not before the chip's date.
fn is_in_date(kept: &Record, c: &Certificate<'_>) -> bool
    ensures { result ≡ is_in_date (record_view kept.now) (certificate_view c.now).body }
{
    kept.date.number() <= c.expiry.number()
}
