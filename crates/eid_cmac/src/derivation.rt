ghost use Rattle.std.specs.Prelude.{◌≡◌, List};
ghost use Rattle.eid_cmac.specs.Derivation.{derived};

use sha1::Sha1;

/// The AES-128 key that a shared secret and a nonce, which may be empty, give under a number: 1 for
/// encryption, 2 for MACs, 3 for a password (BSI TR-03110-3, key derivation function).
pub fn derive(secret: &[u8], nonce: &[u8], which: u32) -> [u8; 16]
    ensures { result ≡ derived secret.now nonce.now which }
{
    let mut hasher = Sha1::new();
    hasher.update(secret);
    hasher.update(nonce);
    hasher.update(&which.to_be_bytes());
    let digest = hasher.finalize();
    *digest.first_chunk::<16>().unwrap()
}
