//! Certificates read from bytes.
ghost use Rattle.std.specs.Prelude.{◌≡◌, ◌↔◌, ℕ, ◌-◌, ◌≤◌, List, length, take, IfOk, IsOkAnd, Some, option_map};
ghost use Rattle.std.specs.Result.{result_ok};
ghost use Rattle.eid_cvc.specs.Certificates.{IsCertificate, PlainCertificate};
ghost use Rattle.eid_cvc.specs.CertificateIn.{body_in, certificate_in, date_in, holder_in, reference_in, signature_of};
ghost use Rattle.eid_cvc.specs.Fronts.{front_view};
ghost use Rattle.eid_cvc.specs.Parts.{body_read_view, date_view, holder_view};
ghost use Rattle.eid_cvc.specs.View.{certificate_view};

use crate::certificate::{Certificate, CvcError};
use crate::extensions::read_sectors;
use crate::fronts::{AtFront, front};
use crate::public_key::read_public_key;
use crate::tags::{
    BODY, EFFECTIVE, EXPIRY, HOLDER, ISSUER, PROFILE, PUBLIC_KEY, SIGNATURE, TEMPLATE,
};
use crate::template::read_template;
use eid_base::{Point, Signature};
use eid_bits::{Date6, Known, Template};

/// The only profile of certificates that there is, version 1.
const PROFILE_ONE: [u8; 1] = [0];

/// The certificate that the bytes are (BSI TR-03110-3): a body of profile 0 with a key of id-TA-ECDSA-SHA-256, then
/// a signature, and nothing behind it. Domain parameters, and extensions other than the first for terminal sectors,
/// are passed over.
///
/// # Errors
/// `CvcError` exactly where the bytes are no certificate.
pub fn read_certificate(bytes: &[u8]) -> Result<Certificate<'_>, CvcError>
    ensures found { IfOk result (λ c. IsCertificate bytes.now (certificate_view c)) }
    ensures only { (c : PlainCertificate) → IsCertificate bytes.now c → IsOkAnd result (λ r. certificate_view r ≡ c) }
    ensures value { option_map certificate_view (result_ok result) ≡ certificate_in bytes.now }
{
    match whole_certificate(bytes) {
        Some(certificate) => Ok(certificate),
        None => Err(CvcError),
    }
}

/// Bytes are at most one certificate.
pub fn law_one_certificate()
    ensures { (bytes : List ℕ) (a b : PlainCertificate) → IsCertificate bytes a → IsCertificate bytes b → a ≡ b }
{}

/// The definition of the certificate that bytes are, as a function, gives exactly that certificate.
pub fn law_certificate()
    ensures { (bytes : List ℕ) (c : PlainCertificate) → certificate_in bytes ≡ Some c ↔ IsCertificate bytes c }
{}

#[tactic(auto, unfolding(crate::specs::CertificateIn::certificate_in))]
fn whole_certificate(bytes: &[u8]) -> Option<Certificate<'_>>
    ensures { option_map certificate_view result ≡ certificate_in bytes.now }
{
    let Some(object) = front(bytes, BODY) else {
        return None;
    };
    let Some(body) = read_body(object.value) else {
        return None;
    };
    let Some(last) = front(object.rest, SIGNATURE) else {
        return None;
    };
    let Some(signature) = read_signature(last.value) else {
        return None;
    };
    if !last.rest.is_empty() {
        return None;
    }
    let whole = before(bytes, object.rest);
    Some(certificate_of(whole, body, signature))
}

/// The signature that these bytes are: 64.
fn read_signature(bytes: &[u8]) -> Option<Signature>
    ensures { result ≡ signature_of bytes.now }
{
    match Signature::try_from(bytes) {
        Ok(signature) => Some(signature),
        Err(_) => None,
    }
}

/// The bytes before a rest that ends them.
fn before<'a>(bytes: &'a [u8], rest: &[u8]) -> &'a [u8]
    requires { length rest.now ≤ length bytes.now }
    ensures { result.now ≡ take (length bytes.now - length rest.now) bytes.now }
{
    &bytes[..bytes.len() - rest.len()]
}

fn certificate_of<'a>(whole: &'a [u8], body: BodyRead<'a>, signature: Signature) -> Certificate<'a>
    ensures { certificate_view result ≡ record { whole = whole.now; body = body_read_view body.entry; signature = signature } }
{
    Certificate {
        whole,
        issuer: body.issuer,
        key: body.key,
        holder: body.holder.name,
        template: body.holder.template,
        effective: body.holder.effective,
        expiry: body.holder.expiry,
        sectors: body.holder.sectors,
        signature,
    }
}

/// What stands in a certificate before its signature.
#[derive(Clone, Copy)]
struct BodyRead<'a> {
    issuer: &'a [u8],
    key: Point,
    holder: Holder<'a>,
}

/// What a certificate says of its holder behind the public key.
#[derive(Clone, Copy)]
struct Holder<'a> {
    name: &'a [u8],
    template: Template,
    effective: Date6,
    expiry: Date6,
    sectors: [Option<[u8; 32]>; 2],
}

/// A date at the front, and the bytes behind it.
#[derive(Clone, Copy)]
struct DateAtFront<'a> {
    date: Date6,
    rest: &'a [u8],
}

#[tactic(auto, unfolding(crate::specs::CertificateIn::body_in))]
fn read_body(value: &[u8]) -> Option<BodyRead<'_>>
    ensures { option_map body_read_view result ≡ body_in value.now }
{
    let Some(profile) = front(value, PROFILE) else {
        return None;
    };
    let Some(issuer) = read_reference(profile.rest, ISSUER) else {
        return None;
    };
    let Some(object) = front(issuer.rest, PUBLIC_KEY) else {
        return None;
    };
    let Some(key) = read_public_key(object.value, Known::TaSha256) else {
        return None;
    };
    let Some(holder) = read_holder(object.rest) else {
        return None;
    };
    if profile.value != PROFILE_ONE.as_slice() {
        return None;
    }
    Some(BodyRead {
        issuer: issuer.value,
        key,
        holder,
    })
}

#[tactic(auto, unfolding(crate::specs::CertificateIn::holder_in))]
fn read_holder(bytes: &[u8]) -> Option<Holder<'_>>
    ensures { option_map holder_view result ≡ holder_in bytes.now }
{
    let Some(name) = read_reference(bytes, HOLDER) else {
        return None;
    };
    let Some(authorization) = front(name.rest, TEMPLATE) else {
        return None;
    };
    let Some(template) = read_template(authorization.value) else {
        return None;
    };
    let Some(effective) = read_date(authorization.rest, EFFECTIVE) else {
        return None;
    };
    let Some(expiry) = read_date(effective.rest, EXPIRY) else {
        return None;
    };
    let Some(sectors) = read_sectors(expiry.rest) else {
        return None;
    };
    Some(Holder {
        name: name.value,
        template,
        effective: effective.date,
        expiry: expiry.date,
        sectors,
    })
}

/// A reference of 1 to 16 bytes in an object with this tag.
#[tactic(auto, unfolding(crate::specs::CertificateIn::reference_in))]
fn read_reference(bytes: &[u8], tag: u16) -> Option<AtFront<'_>>
    ensures { option_map front_view result ≡ reference_in tag bytes.now }
{
    let Some(reference) = front(bytes, tag) else {
        return None;
    };
    if !matches!(reference.value.len(), 1..=16) {
        return None;
    }
    Some(reference)
}

/// A date in an object with this tag.
#[tactic(auto, unfolding(crate::specs::CertificateIn::date_in))]
fn read_date(bytes: &[u8], tag: u16) -> Option<DateAtFront<'_>>
    ensures { option_map date_view result ≡ date_in tag bytes.now }
{
    let Some(object) = front(bytes, tag) else {
        return None;
    };
    let Ok(date) = Date6::from_bytes(object.value) else {
        return None;
    };
    Some(DateAtFront {
        date,
        rest: object.rest,
    })
}
