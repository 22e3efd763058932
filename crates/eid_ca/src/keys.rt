//! What is derived from the secret that was agreed and the chip's nonce (BSI TR-03110-3).
ghost use Rattle.std.specs.Prelude.{◌≡◌, List};
ghost use Rattle.std.specs.Str.{bytes_eq};
ghost use Rattle.eid_bits.specs.Identifiers.{known_bytes};
ghost use Rattle.eid_ca.specs.Keys.{enc_key, mac_key, token};
ghost use Rattle.eid_cvc.specs.PublicKeys.{x_half};

use eid_aes::Aes;
use eid_base::Point;
use eid_bits::Known;
use eid_cmac::{derive, mac8};
use eid_cvc::token_object;

/// The number of the key of encryption.
const ENCRYPTION: u32 = 1;
/// The number of the key of MACs.
const MAC: u32 = 2;

/// The key of encryption that an agreed secret and the chip's nonce give.
pub fn enc_key(shared: &[u8; 32], nonce: &[u8; 8]) -> [u8; 16]
    ensures { result ≡ enc_key shared.now nonce.now }
{
    derive(shared, nonce, ENCRYPTION)
}

/// The key of MACs that an agreed secret and the chip's nonce give.
pub fn mac_key(shared: &[u8; 32], nonce: &[u8; 8]) -> [u8; 16]
    ensures { result ≡ mac_key shared.now nonce.now }
{
    derive(shared, nonce, MAC)
}

/// The authentication token (BSI TR-03110-3): the first 8 bytes of the MAC under `key` of a public key, which is a
/// data object 7F49 {06 the object identifier of the protocol, 86 the terminal's ephemeral point}.
pub fn token<const ROUNDS: usize>(key: &Aes<ROUNDS>, protocol: Known, point: &Point) -> [u8; 8]
    ensures { result ≡ token key.now (known_bytes protocol) point.now }
{
    mac8(key, &token_object(protocol, point), &[], &[])
}

/// Whether this is the X half of the point.
pub fn has_x_half(point: &Point, key_x: &[u8; 32]) -> bool
    ensures { result ≡ bytes_eq (x_half point.now) key_x.now }
{
    point[1..33] == key_x[..]
}
