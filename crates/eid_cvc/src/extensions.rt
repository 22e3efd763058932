//! Certificate extensions, of which that with the hashes of the terminal's sector keys is read.
ghost use Rattle.std.specs.Prelude.{◌≡◌, ℕ, List, [], ◌∷◌, option_map};
ghost use Rattle.std.specs.Option.{option_copied};
ghost use Rattle.eid_cvc.specs.CertificateIn.{extensions_in, hash_in, hashes_if_any, hashes_in, sectors_in};
ghost use Rattle.eid_cvc.specs.Extensions.{sector_data};
ghost use Rattle.eid_cvc.specs.Parts.{first_sector, hash_view};
ghost use Rattle.eid_cvc.specs.Fronts.{front_view};

use crate::fronts::{AtFront, front};
use crate::tags::{EXTENSION, EXTENSIONS, FIRST_HASH, OBJECT_IDENTIFIER, SECOND_HASH};
use eid_bits::Known;

/// A hash that may be left out, and the bytes behind it.
#[derive(Clone, Copy)]
struct MaybeHash<'a> {
    hash: Option<[u8; 32]>,
    rest: &'a [u8],
}

/// The hashes of the sector keys in what stands behind the dates of a certificate: nothing, or the object 65.
#[tactic(auto, unfolding(crate::specs::CertificateIn::sectors_in))]
pub(crate) fn read_sectors(bytes: &[u8]) -> Option<[Option<[u8; 32]>; 2]>
    ensures { result ≡ sectors_in bytes.now }
{
    if bytes.is_empty() {
        return Some([None, None]);
    }
    let Some(object) = front(bytes, EXTENSIONS) else {
        return None;
    };
    let Some(data_objects) = sector_data(object.value) else {
        return None;
    };
    let Some(hashes) = read_hashes_if_any(data_objects) else {
        return None;
    };
    if !object.rest.is_empty() {
        return None;
    }
    Some(hashes)
}

/// What stands behind the identifier in the first extension for terminal sectors, where the value of a 65 has one.
/// `None` comes where the value is no extensions.
fn sector_data(value: &[u8]) -> Option<Option<&[u8]>>
    ensures { option_map option_copied result ≡ option_map sector_data (extensions_in value.now) }
{
    let mut rest = value;
    let mut found = None;
    while !rest.is_empty() {
        let Some(extension) = front(rest, EXTENSION) else {
            return None;
        };
        let Some(identifier) = front(extension.value, OBJECT_IDENTIFIER) else {
            return None;
        };
        found = first_sector(found, identifier);
        rest = extension.rest;
    }
    Some(found)
}

/// The data found before, or those of this extension where it is for terminal sectors.
fn first_sector<'a>(found: Option<&'a [u8]>, extension: AtFront<'a>) -> Option<&'a [u8]>
    ensures { option_copied result ≡ first_sector (option_copied found.entry) (front_view extension.entry) }
{
    if found.is_some() {
        return found;
    }
    if extension.value == Known::Sector.bytes() {
        Some(extension.rest)
    } else {
        None
    }
}

fn read_hashes_if_any(data_objects: Option<&[u8]>) -> Option<[Option<[u8; 32]>; 2]>
    ensures { result ≡ hashes_if_any (option_copied data_objects.entry) }
{
    match data_objects {
        None => Some([None, None]),
        Some(data_objects) => read_hashes(data_objects),
    }
}

/// At most one 80 and then at most one 81, of 32 bytes each.
#[tactic(auto, unfolding(crate::specs::CertificateIn::hashes_in))]
fn read_hashes(data_objects: &[u8]) -> Option<[Option<[u8; 32]>; 2]>
    ensures { result ≡ hashes_in data_objects.now }
{
    let Some(first) = read_hash(data_objects, FIRST_HASH) else {
        return None;
    };
    let Some(second) = read_hash(first.rest, SECOND_HASH) else {
        return None;
    };
    if !second.rest.is_empty() {
        return None;
    }
    Some([first.hash, second.hash])
}

/// The hash in the object with this tag, where one stands at the front. `None` comes where it has not 32 bytes.
#[tactic(auto, unfolding(crate::specs::CertificateIn::hash_in))]
fn read_hash(bytes: &[u8], tag: u16) -> Option<MaybeHash<'_>>
    ensures { option_map hash_view result ≡ hash_in tag bytes.now }
{
    let Some(object) = front(bytes, tag) else {
        return Some(MaybeHash {
            hash: None,
            rest: bytes,
        });
    };
    let Ok(hash) = <[u8; 32]>::try_from(object.value) else {
        return None;
    };
    Some(MaybeHash {
        hash: Some(hash),
        rest: object.rest,
    })
}
