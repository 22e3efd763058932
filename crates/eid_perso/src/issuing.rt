//! The test certificate of a configuration.
ghost use Rattle.std.specs.Prelude.{◌≡◌, ◌≤◌};
ghost use Rattle.sha2.specs.Sha256.{sha256};
ghost use Rattle.eid_cvc.specs.Certificates.{IsCertificate};
ghost use Rattle.eid_cvc.specs.View.{body_view};
ghost use Rattle.eid_cvc.specs.Writing.{IsWritable, certificate_with, written_body, written_certificate};
ghost use Rattle.eid_perso.specs.Kit.{kit_view};
ghost use Rattle.eid_perso.specs.Issuing.{IsKit};

use crate::kit::{KitError, KitPlan};
use arrayvec::ArrayVec;
use eid_base::Signature;
use eid_copro::Coprocessor;
use eid_cvc::{CertificateBody, MAX_BODY, MAX_CERTIFICATE, write_body, write_certificate};
use sha2::{Digest, Sha256};
use std::alloc::Global;

/// What is signed: SHA-256 of the object 7F4E whole.
fn digest_of(body: &CertificateBody) -> [u8; 32]
    requires { IsWritable (body_view body.now) }
    ensures { result ≡ sha256 (written_body (body_view body.now)) }
{
    let mut written = ArrayVec::<u8, MAX_BODY>::new();
    write_body(body, &mut written).unwrap();
    Sha256::digest(written.as_slice())
}

/// The bytes of the certificate with this signature.
fn certificate(body: &CertificateBody, signature: &Signature) -> ArrayVec<u8, MAX_CERTIFICATE>
    requires { IsWritable (body_view body.now) }
    ensures items { result.items ≡ written_certificate (body_view body.now) signature.now }
    ensures reads { IsCertificate result.items (certificate_with (body_view body.now) signature.now) }
{
    let mut written = ArrayVec::new();
    write_certificate(body, signature, &mut written).unwrap();
    written
}

/// The certificate that a plan asks for, signed by the coprocessor. One question is put, whatever comes of it.
///
/// # Errors
/// `Fault` exactly where that question is answered by a fault. `NoMemory` where memory for the certificate is refused,
/// after the question was answered.
pub fn kit_of<C: Coprocessor>(
    alloc: Global,
    k: &KitPlan,
    copro: &mut C,
) -> Result<Vec<u8>, KitError>
    requires body { IsWritable (body_view k.now.body) }
    requires spare { 1 ≤ (C.seen copro.old).spare }
    ensures { IsKit (kit_view k.now) (C.seen copro.old) (C.seen copro.new) result }
{
    let Ok(signature) = copro.sign(&k.signer, &digest_of(&k.body)) else {
        return Err(KitError::Fault);
    };
    match Vec::from_slice(alloc, &certificate(&k.body, &signature)) {
        Ok(bytes) => Ok(bytes),
        Err(_) => Err(KitError::NoMemory),
    }
}
