//! The body of GENERAL AUTHENTICATE for restricted identification (BSI TR-03110-3).
ghost use Rattle.std.specs.Prelude.{◌≡◌, ◌↔◌, ℕ, List, Some, option_map};
ghost use Rattle.eid_ri.specs.Parts.{maybe_view};
ghost use Rattle.eid_ri.specs.SectorKeys.{AreSectorKeys, PlainSectorKeys};
ghost use Rattle.eid_ri.specs.SectorKeysIn.{key_if_any, keys_in, sector_key_in, sector_keys_in};
ghost use Rattle.eid_ri.specs.View.{key_view, keys_view};

use eid_base::Point;
use eid_bits::Known;
use eid_cvc::{front, read_public_key};

/// The object that holds all data of a GENERAL AUTHENTICATE.
const DYNAMIC_DATA: u16 = 0x7C;
/// The object with the key of the first sector.
const FIRST: u16 = 0xA0;
/// The object with the key of the second sector.
const SECOND: u16 = 0xA2;
/// A public key.
const PUBLIC_KEY: u16 = 0x7F49;

/// The public key of a sector.
#[derive(Clone, Copy)]
pub struct SectorKey<'a> {
    /// The whole object 7F49, of which the hash is taken.
    pub object: &'a [u8],
    /// Its point.
    pub point: Point,
}

/// The sector keys that a terminal sends.
#[derive(Clone, Copy)]
pub struct SectorKeys<'a> {
    /// That of the terminal's first sector, in A0.
    pub first: Option<SectorKey<'a>>,
    /// That of its second sector, in A2.
    pub second: Option<SectorKey<'a>>,
}

/// A sector key that may be left out, and the bytes behind it.
#[derive(Clone, Copy)]
struct MaybeKey<'a> {
    key: Option<SectorKey<'a>>,
    rest: &'a [u8],
}

/// The sector keys in the body: 7C {A0 {key}}, 7C {A2 {key}} or 7C {A0 {key}, A2 {key}}, where each key is one
/// object 7F49 with a public key for RI-ECDH-SHA-256 (BSI TR-03110-3). `None` comes exactly where the body has
/// another form; so at least one key is there.
#[tactic(auto, unfolding(crate::specs::SectorKeysIn::sector_keys_in))]
pub fn read_sector_keys(body: &[u8]) -> Option<SectorKeys<'_>>
    ensures { option_map keys_view result ≡ sector_keys_in body.now }
{
    let Some(data_objects) = front(body, DYNAMIC_DATA) else {
        return None;
    };
    let Some(keys) = read_keys(data_objects.value) else {
        return None;
    };
    if !data_objects.rest.is_empty() {
        return None;
    }
    Some(keys)
}

/// The definition of the sector keys in a body, as a function, gives exactly those that are written in it.
pub fn law_sector_keys()
    ensures { (body : List ℕ) (keys : PlainSectorKeys) → sector_keys_in body ≡ Some keys ↔ AreSectorKeys body keys }
{}

/// The keys in the value of 7C.
#[tactic(auto, unfolding(crate::specs::SectorKeysIn::keys_in))]
fn read_keys(value: &[u8]) -> Option<SectorKeys<'_>>
    ensures { option_map keys_view result ≡ keys_in value.now }
{
    let Some(first) = read_key_if_any(value, FIRST) else {
        return None;
    };
    let Some(second) = read_key_if_any(first.rest, SECOND) else {
        return None;
    };
    if !second.rest.is_empty() || (first.key.is_none() && second.key.is_none()) {
        return None;
    }
    Some(SectorKeys {
        first: first.key,
        second: second.key,
    })
}

/// The key in the object with this tag, where one stands at the front. `None` comes where it holds no sector key.
#[tactic(auto, unfolding(crate::specs::SectorKeysIn::key_if_any))]
fn read_key_if_any(bytes: &[u8], tag: u16) -> Option<MaybeKey<'_>>
    ensures { option_map maybe_view result ≡ key_if_any tag bytes.now }
{
    let Some(object) = front(bytes, tag) else {
        return Some(MaybeKey {
            key: None,
            rest: bytes,
        });
    };
    let Some(key) = read_sector_key(object.value) else {
        return None;
    };
    Some(MaybeKey {
        key: Some(key),
        rest: object.rest,
    })
}

/// The sector key that an A0 or A2 holds.
#[tactic(auto, unfolding(crate::specs::SectorKeysIn::sector_key_in))]
fn read_sector_key(value: &[u8]) -> Option<SectorKey<'_>>
    ensures { option_map key_view result ≡ sector_key_in value.now }
{
    let Some(key) = front(value, PUBLIC_KEY) else {
        return None;
    };
    let Some(point) = read_public_key(key.value, Known::RiSha256) else {
        return None;
    };
    if !key.rest.is_empty() {
        return None;
    }
    Some(SectorKey {
        object: value,
        point,
    })
}
