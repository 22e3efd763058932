ghost use Rattle.std.specs.Prelude.{◌≡◌};
ghost use Rattle.eid_ri.specs.Identifiers.{identifier, sector_hash};

use sha2::{Digest, Sha256};

/// The hash by which a terminal's certificate names a sector key: SHA-256 (BSI TR-03110-3) of the whole object
/// 7F49. That it is the whole object is this project's own.
pub fn sector_hash(object: &[u8]) -> [u8; 32]
    ensures { result ≡ sector_hash object.now }
{
    Sha256::digest(object)
}

/// The identifier of the chip in a sector: SHA-256 of the secret that was agreed with the sector key (BSI
/// TR-03110-3, RI-ECDH-SHA-256).
pub fn identifier(shared: &[u8; 32]) -> [u8; 32]
    ensures { result ≡ identifier shared.now }
{
    Sha256::digest(shared)
}
