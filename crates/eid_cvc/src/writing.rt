//! Writing certificates.
ghost use Rattle.std.specs.Prelude.{◌≡◌, ℕ, ◌+◌, ◌<◌, ◌≤◌, ◌++◌, ◌↔◌, List, length, Option, Some, None, IsTrue, IfSome, IsErr, OnOk, OnErr, option_map};
ghost use Rattle.arrayvec.specs.ArrayVec.{array_vec_len};
ghost use Rattle.eid_bits.specs.Date.{is_date};
ghost use Rattle.eid_bits.specs.Dates.{date_digits};
ghost use Rattle.eid_bits.specs.Template.{template_bytes};
ghost use Rattle.eid_bits.specs.Identifiers.{known_bytes};
ghost use Rattle.eid_bits.specs.declared.identifier.Known.TheVariants.{Sector, TaSha256};
ghost use Rattle.eid_tlv.specs.Objects.{is_tag, object};
ghost use Rattle.eid_cvc.specs.Certificates.{PlainBody, IsBody, IsCertificate, body_value};
ghost use Rattle.eid_cvc.specs.Extensions.{AreHashes, extensions, sector_hashes};
ghost use Rattle.eid_cvc.specs.PublicKeys.{no_domain, optional, public_key};
ghost use Rattle.eid_cvc.specs.Templates.{template_value};
ghost use Rattle.eid_cvc.specs.View.{body_view};
ghost use Rattle.eid_cvc.specs.Writing.{IsWritable, certificate_with, extra_written, written_body, written_certificate};

use crate::certificate::CertificateBody;
use crate::tags;
use arrayvec::ArrayVec;
use eid_base::{Full, Point, Signature};
use eid_bits::{Date6, Known, Template};
use eid_tlv::put;

/// How many bytes a certificate that is written has at most.
pub const MAX_CERTIFICATE: usize = 316;

/// How many bytes of them the object 7F4E has at most.
pub const MAX_BODY: usize = 249;

/// Room for the value of an object 7F4E, which has at most 245 bytes, and for five bytes before each value in it.
const MAX_VALUE: usize = 300;

/// The profile's number, in the object 5F29.
const PROFILE_NUMBER: [u8; 1] = [0];

/// Appends a data object for which there is room.
#[tactic(auto, using(crate::proofs::Sizes::object_fits))]
fn append(out: &mut ArrayVec<u8, MAX_VALUE>, tag: u16, value: &[u8])
    requires tag { IsTrue (is_tag tag) }
    requires room { array_vec_len out.old + length value.now + 5 ≤ MAX_VALUE }
    ensures items { out.new.items ≡ out.old.items ++ object tag value.now }
    ensures size { array_vec_len out.new ≤ array_vec_len out.old + length value.now + 5 }
{
    put(out, tag, value).unwrap();
}

/// The value of an object 7F49 for terminal authentication, without domain parameters.
#[tactic(auto, unfolding(crate::specs::PublicKeys::public_key, crate::specs::PublicKeys::parameters))]
fn public_key(key: &Point) -> ArrayVec<u8, MAX_VALUE>
    ensures items { result.items ≡ public_key TaSha256 no_domain key.now }
    ensures long { length key.now ≡ 65 }
    ensures size { array_vec_len result ≤ 85 }
{
    let mut value = ArrayVec::new();
    append(&mut value, tags::OBJECT_IDENTIFIER, Known::TaSha256.bytes());
    append(&mut value, tags::POINT, key);
    value
}

/// The value of an object 7F4C for authentication terminals.
#[tactic(auto, unfolding(crate::specs::Templates::template_value))]
fn template_value(template: &Template) -> ArrayVec<u8, MAX_VALUE>
    ensures items { result.items ≡ template_value (template_bytes template.now) }
    ensures five { length (template_bytes template.now) ≡ 5 }
    ensures size { array_vec_len result ≤ 24 }
{
    let mut value = ArrayVec::new();
    append(
        &mut value,
        tags::OBJECT_IDENTIFIER,
        Known::AtTemplate.bytes(),
    );
    append(&mut value, tags::DISCRETIONARY_DATA, template.as_bytes());
    value
}

/// Appends an object of a hash, where it is there.
fn append_hash(out: &mut ArrayVec<u8, MAX_VALUE>, tag: u16, hash: &Option<[u8; 32]>)
    requires tag { IsTrue (is_tag tag) }
    requires room { array_vec_len out.old + 37 ≤ MAX_VALUE }
    ensures items { out.new.items ≡ out.old.items ++ optional tag hash.now }
    ensures size { array_vec_len out.new ≤ array_vec_len out.old + 37 }
    ensures long { IfSome hash.now (λ bytes. length bytes ≡ 32) }
{
    if let Some(hash) = hash {
        append(out, tag, hash);
    }
}

/// The value of an object 73: the identifier of the extension for terminal sectors, and the hashes that are there.
fn extension(sectors: &[Option<[u8; 32]>; 2]) -> ArrayVec<u8, MAX_VALUE>
    ensures items { result.items ≡ object 0x06 (known_bytes Sector) ++ sector_hashes sectors.now }
    ensures size { array_vec_len result ≤ 88 }
    ensures hashes { AreHashes sectors.now }
{
    let [first, second] = sectors;
    let mut value = ArrayVec::new();
    append(&mut value, tags::OBJECT_IDENTIFIER, Known::Sector.bytes());
    append_hash(&mut value, tags::FIRST_HASH, first);
    append_hash(&mut value, tags::SECOND_HASH, second);
    value
}

/// Appends the object 65 with the extension for terminal sectors, where a hash is there.
fn append_extensions(out: &mut ArrayVec<u8, MAX_VALUE>, sectors: &[Option<[u8; 32]>; 2])
    requires { array_vec_len out.old + 98 ≤ MAX_VALUE }
    ensures items { out.new.items ≡ out.old.items ++ optional 0x65 (option_map extensions (extra_written sectors.now)) }
    ensures hashes { AreHashes sectors.now }
{
    if let [None, None] = sectors {
        return;
    }
    let mut list = ArrayVec::new();
    append(&mut list, tags::EXTENSION, &extension(sectors));
    append(out, tags::EXTENSIONS, &list);
}

/// Appends the objects of the dates.
fn append_dates(out: &mut ArrayVec<u8, MAX_VALUE>, effective: &Date6, expiry: &Date6)
    requires { array_vec_len out.old + 22 ≤ MAX_VALUE }
    ensures items { out.new.items ≡ out.old.items ++ (object 0x5F25 (date_digits effective.now) ++ object 0x5F24 (date_digits expiry.now)) }
    ensures size { array_vec_len out.new ≤ array_vec_len out.old + 22 }
    ensures dates { IsTrue (is_date (date_digits effective.now)) × IsTrue (is_date (date_digits expiry.now)) }
{
    append(out, tags::EFFECTIVE, effective.as_bytes());
    append(out, tags::EXPIRY, expiry.as_bytes());
}

/// The value of an object 7F4E.
#[tactic(auto, unfolding(crate::specs::Certificates::body_value))]
fn body_value(body: &CertificateBody) -> ArrayVec<u8, MAX_VALUE>
    requires { IsWritable (body_view body.now) }
    ensures items { result.items ≡ body_value (body_view body.now) no_domain (extra_written body.now.sectors) }
    ensures valid { IsBody (body_view body.now) }
{
    let mut value = ArrayVec::new();
    append(&mut value, tags::PROFILE, &PROFILE_NUMBER);
    append(&mut value, tags::ISSUER, &body.issuer);
    append(&mut value, tags::PUBLIC_KEY, &public_key(&body.key));
    append(&mut value, tags::HOLDER, &body.holder);
    append(&mut value, tags::TEMPLATE, &template_value(&body.template));
    append_dates(&mut value, &body.effective, &body.expiry);
    append_extensions(&mut value, &body.sectors);
    value
}

/// Appends what a certificate says, the object 7F4E over which the signature is made (BSI TR-03110-3): without domain
/// parameters, and with no other extension than the one for terminal sectors, where a hash is there.
///
/// # Errors
/// `Full` exactly where it does not fit; `out` is then as before.
#[tactic(auto, unfolding(crate::specs::Writing::written_body))]
pub fn write_body<const N: usize>(
    body: &CertificateBody,
    out: &mut ArrayVec<u8, N>,
) -> Result<(), Full>
    requires { IsWritable (body_view body.now) }
    ensures written { OnOk result (out.new.items ≡ out.old.items ++ written_body (body_view body.now)) }
    ensures full { IsErr result ↔ (N < array_vec_len out.old + length (written_body (body_view body.now))) }
    ensures same { OnErr result (out.new ≡ out.old) }
    ensures size { length (written_body (body_view body.now)) ≤ 249 }
    ensures body { IsBody (body_view body.now) }
{
    put(out, tags::BODY, &body_value(body))
}

/// Appends a certificate: the object 7F4E, and the signature in an object 5F37 (BSI TR-03110-3).
///
/// # Errors
/// `Full` exactly where it does not fit; `out` is then as before.
#[tactic(auto, using(crate::proofs::Written::certificate_again), unfolding(crate::specs::Writing::written_certificate))]
pub fn write_certificate<const N: usize>(
    body: &CertificateBody,
    signature: &Signature,
    out: &mut ArrayVec<u8, N>,
) -> Result<(), Full>
    requires { IsWritable (body_view body.now) }
    ensures written { OnOk result (out.new.items ≡ out.old.items ++ written_certificate (body_view body.now) signature.now) }
    ensures full { IsErr result ↔ (N < array_vec_len out.old + length (written_certificate (body_view body.now) signature.now)) }
    ensures same { OnErr result (out.new ≡ out.old) }
    ensures size { length (written_certificate (body_view body.now) signature.now) ≤ 316 }
    ensures reads { IsCertificate (written_certificate (body_view body.now) signature.now) (certificate_with (body_view body.now) signature.now) }
{
    let mut whole = ArrayVec::<u8, MAX_CERTIFICATE>::new();
    write_body(body, &mut whole).unwrap();
    put(&mut whole, tags::SIGNATURE, signature).unwrap();
    match out.try_extend_from_slice(&whole) {
        Ok(()) => Ok(()),
        Err(_) => Err(Full),
    }
}

/// What is written is a certificate, and says what was written.
pub fn law_written_is_read()
    ensures { (b : PlainBody) (signature : List ℕ) → IsBody b → length signature ≡ 64
        → IsCertificate (written_certificate b signature) (certificate_with b signature) }
{}
