//! Questions about certificates.
use crate::words::{Answer, Unanswered, buffer, fixed, put_word, shown, shown_buffer, word};
use arrayvec::ArrayVec;
use eid_bits::{Date6, Template};
use eid_cvc::{Certificate, CertificateBody, MAX_CERTIFICATE, read_certificate};
use std::alloc::Global;

/// `certificate BYTES`: what the certificate says that the bytes are, or `none`. Its words are issuer, key, holder,
/// template, effective and expiration date, the two sector hashes, the signature, and how many bytes the object 7F4E has.
pub fn certificate(alloc: Global, given: &[Vec<u8>]) -> Answer {
    let [read] = given else {
        return Err(Unanswered::Unclear);
    };
    match read_certificate(read) {
        Ok(certificate) => shown_certificate(alloc, &certificate),
        Err(_) => word(alloc, "none"),
    }
}

fn shown_certificate(alloc: Global, read: &Certificate<'_>) -> Answer {
    let mut line = shown(alloc, read.issuer)?;
    put_bytes(alloc, &read.key, &mut line)?;
    put_bytes(alloc, read.holder, &mut line)?;
    put_bytes(alloc, read.template.as_bytes(), &mut line)?;
    put_bytes(alloc, read.effective.as_bytes(), &mut line)?;
    put_bytes(alloc, read.expiry.as_bytes(), &mut line)?;
    for hash in &read.sectors {
        put_bytes(alloc, hash_bytes(hash), &mut line)?;
    }
    put_bytes(alloc, &read.signature, &mut line)?;
    let length = read.whole.len();
    Ok(format!(in alloc; "{line} {length}")?)
}

/// The bytes of a hash, none where it is absent.
fn hash_bytes(hash: &Option<[u8; 32]>) -> &[u8] {
    match hash {
        Some(hash) => hash,
        None => &[],
    }
}

/// Appends bytes to a line, as a word.
fn put_bytes(alloc: Global, bytes: &[u8], line: &mut String) -> Result<(), Unanswered> {
    let bytes = shown(alloc, bytes)?;
    put_word(line, &bytes)?;
    Ok(())
}

/// `write-certificate ISSUER KEY HOLDER TEMPLATE EFFECTIVE EXPIRY HASH HASH SIGNATURE`: the certificate that says this;
/// `-` is a hash that is absent.
pub fn write_certificate(alloc: Global, given: &[Vec<u8>]) -> Answer {
    let Some((signature, said)) = given.split_last() else {
        return Err(Unanswered::Unclear);
    };
    let (Some(signature), Some(body)) = (fixed::<64>(signature), body_of(said)) else {
        return Err(Unanswered::Unclear);
    };
    if body.issuer.is_empty() || body.holder.is_empty() || body.key[0] != 4 {
        return Err(Unanswered::Unclear);
    }
    let mut out = ArrayVec::<u8, MAX_CERTIFICATE>::new();
    let fits = eid_cvc::write_certificate(&body, &signature, &mut out).is_ok();
    shown_buffer(alloc, fits, out.as_slice())
}

/// What a certificate says, by its words.
fn body_of(given: &[Vec<u8>]) -> Option<CertificateBody> {
    let [
        issuer,
        key,
        holder,
        template,
        effective,
        expiry,
        first,
        second,
    ] = given
    else {
        return None;
    };
    Some(CertificateBody {
        issuer: buffer::<16>(issuer)?,
        key: fixed::<65>(key)?,
        holder: buffer::<16>(holder)?,
        template: Template::from_bytes(template).ok()?,
        effective: Date6::from_bytes(effective).ok()?,
        expiry: Date6::from_bytes(expiry).ok()?,
        sectors: [hash_of(first)?, hash_of(second)?],
    })
}

/// The hash that these bytes are, absent where they are none.
fn hash_of(bytes: &[u8]) -> Option<Option<[u8; 32]>> {
    if bytes.is_empty() {
        return Some(None);
    }
    fixed::<32>(bytes).map(Some)
}
