//! What is derived from a password and from the secret that was agreed (BSI TR-03110-3).
ghost use Rattle.std.specs.Prelude.{◌≡◌, List};
ghost use Rattle.eid_bits.specs.Identifiers.{known_bytes};
ghost use Rattle.eid_pace.specs.Keys.{enc_key, encrypted_nonce, identity_of, mac_key, token};

use eid_aes::Aes;
use eid_base::Point;
use eid_bits::Known;
use eid_cmac::{derive, mac8};
use eid_cvc::token_object;

/// The number of the key of encryption.
const ENCRYPTION: u32 = 1;
/// The number of the key of MACs.
const MAC: u32 = 2;
/// The number of the key of a password.
const PASSWORD: u32 = 3;

/// The nonce under the password's key: one block of AES in cipher block chaining, from zero.
pub fn encrypted_nonce(digits: &[u8], nonce: &[u8; 16]) -> [u8; 16]
    ensures { result ≡ encrypted_nonce digits.now nonce.now }
{
    let key = derive(digits, &[], PASSWORD);
    let mut block = *nonce;
    Aes::<10>::new(&key).cbc_encrypt(&[0; 16], &mut block);
    block
}

/// The key of encryption that an agreed secret gives.
pub fn enc_key(shared: &[u8; 32]) -> [u8; 16]
    ensures { result ≡ enc_key shared.now }
{
    derive(shared, &[], ENCRYPTION)
}

/// The key of MACs that an agreed secret gives.
pub fn mac_key(shared: &[u8; 32]) -> [u8; 16]
    ensures { result ≡ mac_key shared.now }
{
    derive(shared, &[], MAC)
}

/// The authentication token (BSI TR-03110-3): the first 8 bytes of the MAC under `key` of a public key, which is a
/// data object 7F49 {06 the object identifier of the protocol, 86 the ephemeral point of the side that the
/// token is sent to}.
pub fn token<const ROUNDS: usize>(key: &Aes<ROUNDS>, protocol: Known, point: &Point) -> [u8; 8]
    ensures { result ≡ token key.now (known_bytes protocol) point.now }
{
    mac8(key, &token_object(protocol, point), &[], &[])
}

/// The chip's identity in terminal authentication: the X half of its ephemeral point.
pub fn identity_of(point: &Point) -> [u8; 32]
    ensures { result ≡ identity_of point.now }
{
    let mut identity = [0; 32];
    identity.copy_from_slice(&point[1..33]);
    identity
}
