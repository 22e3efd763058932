//! The public key that an authentication token is made over.
ghost use Rattle.std.specs.Prelude.{◌≡◌};
ghost use Rattle.eid_bits.specs.Identifiers.{known_bytes};
ghost use Rattle.eid_cvc.specs.PublicKeys.{token_object};

use crate::tags;
use arrayvec::ArrayVec;
use eid_base::Point;
use eid_bits::Known;
use eid_tlv::put;

/// How many bytes the object that a token is made over has at most.
pub const MAX_TOKEN_OBJECT: usize = 82;

/// How many bytes its value has at most: the object of an identifier of ten bytes, and that of a point.
const MAX_VALUE: usize = 79;

/// The public key that an authentication token of PACE or of chip authentication is made over (BSI TR-03110-3): a data
/// object 7F49 {06 the object identifier of the protocol, 86 an ephemeral point}, without domain parameters.
#[tactic(auto, using(crate::proofs::Sizes::identifier_size, crate::proofs::Sizes::point_size, crate::proofs::Sizes::key_size), unfolding(crate::specs::PublicKeys::token_object))]
pub fn token_object(protocol: Known, point: &Point) -> ArrayVec<u8, MAX_TOKEN_OBJECT>
    ensures { result.items ≡ token_object (known_bytes protocol) point.now }
{
    let mut value = ArrayVec::<u8, MAX_VALUE>::new();
    put(&mut value, tags::OBJECT_IDENTIFIER, protocol.bytes()).unwrap();
    put(&mut value, tags::POINT, point).unwrap();
    let mut object = ArrayVec::new();
    put(&mut object, tags::PUBLIC_KEY, &value).unwrap();
    object
}
