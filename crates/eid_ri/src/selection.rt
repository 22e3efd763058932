ghost use Rattle.std.specs.Prelude.{◌≡◌};
ghost use Rattle.eid_bits.specs.declared.identifier.Known.TheVariants.{RiSha256};
ghost use Rattle.eid_ca.specs.Selections.{names};

use eid_bits::Known;
use eid_ca::protocol_named;

/// Whether the body of MSE:Set AT selects restricted identification: data objects, among them exactly one 80, with
/// RI-ECDH-SHA-256 (BSI TR-03110-3); other tags are passed over.
pub fn names_restricted_identification(body: &[u8]) -> bool
    ensures { result ≡ names RiSha256 body.now }
{
    match protocol_named(body) {
        Some(identifier) => identifier == Known::RiSha256.bytes(),
        None => false,
    }
}
