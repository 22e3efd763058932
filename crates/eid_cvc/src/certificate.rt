//! Certificates as values.
use arrayvec::ArrayVec;
use eid_base::{Point, Signature};
use eid_bits::{Date6, Template};

/// The bytes are no certificate.
#[derive(Clone, Copy, Debug)]
pub struct CvcError;

/// A card verifiable certificate that was read (BSI TR-03110-3).
#[derive(Clone, Copy)]
pub struct Certificate<'a> {
    /// The object 7F4E whole, over which the signature is made.
    pub whole: &'a [u8],
    /// The certification authority reference, 1 to 16 bytes.
    pub issuer: &'a [u8],
    /// The public key, which begins with 04.
    pub key: Point,
    /// The certificate holder reference, 1 to 16 bytes.
    pub holder: &'a [u8],
    /// The certificate holder authorization template.
    pub template: Template,
    /// The effective date.
    pub effective: Date6,
    /// The expiration date.
    pub expiry: Date6,
    /// The hashes of the terminal's first and second sector key.
    pub sectors: [Option<[u8; 32]>; 2],
    /// The signature.
    pub signature: Signature,
}

/// What a certificate says before it is signed.
#[derive(Drop)]
pub struct CertificateBody {
    /// The certification authority reference, 1 to 16 bytes.
    pub issuer: ArrayVec<u8, 16>,
    /// The public key, which begins with 04.
    pub key: Point,
    /// The certificate holder reference, 1 to 16 bytes.
    pub holder: ArrayVec<u8, 16>,
    /// The certificate holder authorization template.
    pub template: Template,
    /// The effective date.
    pub effective: Date6,
    /// The expiration date.
    pub expiry: Date6,
    /// The hashes of the terminal's first and second sector key.
    pub sectors: [Option<[u8; 32]>; 2],
}
