//! The certificates of a plan, and the names in them.
ghost use Rattle.std.specs.Prelude.{◌≡◌, ◌≤◌, length, map, slice_get};
ghost use Rattle.std.specs.Option.{option_copied};
ghost use Rattle.eid_terminal.specs.Authentication.{holder_of, issuer_of, last_holder};
ghost use Rattle.eid_terminal.specs.Plans.{certificate_bytes, plan_view};

use crate::plan::Plan;
use eid_cvc::read_certificate;

/// The certificate at this place, where there is one.
pub fn certificate_at(plan: &Plan, place: usize) -> Option<&[u8]>
    ensures { option_copied result ≡ slice_get (plan_view plan.now).certificates place }
{
    match plan.certificates.get(place) {
        Some(certificate) => Some(certificate.as_slice()),
        None => None,
    }
}

/// The name of the key by which a certificate is verified, of at most 16 bytes; none where the bytes are no certificate.
pub fn issuer_of(certificate: &[u8]) -> &[u8]
    ensures name { result.now ≡ issuer_of certificate.now }
    ensures short { length result.now ≤ 16 }
{
    match read_certificate(certificate) {
        Ok(read) => read.issuer,
        Err(_) => &[],
    }
}

/// The name of the holder of a certificate, of at most 16 bytes; none where the bytes are no certificate.
fn holder_of(certificate: &[u8]) -> &[u8]
    ensures name { result.now ≡ holder_of certificate.now }
    ensures short { length result.now ≤ 16 }
{
    match read_certificate(certificate) {
        Ok(read) => read.holder,
        Err(_) => &[],
    }
}

/// The name of the holder of the last certificate, of at most 16 bytes.
pub fn last_holder(certificates: &[Vec<u8>]) -> &[u8]
    ensures name { result.now ≡ last_holder (map certificate_bytes certificates.now) }
    ensures short { length result.now ≤ 16 }
{
    match certificates.last() {
        Some(certificate) => holder_of(certificate),
        None => holder_of(&[]),
    }
}
