//! Public keys in certificates.
ghost use Rattle.std.specs.Prelude.{◌≡◌, ◌↔◌, ℕ, List, IfSome, Some};
ghost use Rattle.eid_bits.specs.declared.identifier.Known.{Known};
ghost use Rattle.eid_cvc.specs.PublicKeys.{IsPublicKey};
ghost use Rattle.eid_cvc.specs.CertificateIn.{behind_parameters, point_of, public_key_in};

use crate::fronts::{behind, front};
use crate::tags::{
    BASE_POINT, COFACTOR, FIRST_COEFFICIENT, OBJECT_IDENTIFIER, ORDER, POINT, PRIME,
    SECOND_COEFFICIENT,
};
use eid_base::Point;
use eid_bits::Known;

/// The point of a public key of this use, in the value of an object 7F49 (BSI TR-03110-3). The values of domain
/// parameters are passed over. `None` comes exactly where the value has another form.
#[tactic(auto, using(crate::proofs::KeyFacts::point_found))]
pub fn read_public_key(value: &[u8], use_of: Known) -> Option<Point>
    ensures found { IfSome result (λ point. IsPublicKey use_of value.now point) }
    ensures only { (point : List ℕ) → IsPublicKey use_of value.now point → result ≡ Some point }
    ensures value { result ≡ public_key_in use_of value.now }
{
    key_in(value, use_of)
}

/// The definition of the point of a public key, as a function, gives exactly that point.
pub fn law_public_key()
    ensures { (use_of : Known) (value point : List ℕ) → public_key_in use_of value ≡ Some point ↔ IsPublicKey use_of value point }
{}

#[tactic(auto, unfolding(crate::specs::CertificateIn::public_key_in))]
fn key_in(value: &[u8], use_of: Known) -> Option<Point>
    ensures { result ≡ public_key_in use_of value.now }
{
    let Some(identifier) = front(value, OBJECT_IDENTIFIER) else {
        return None;
    };
    let Some(point) = front(behind_parameters(identifier.rest), POINT) else {
        return None;
    };
    let Some(key) = read_point(point.value) else {
        return None;
    };
    if identifier.value != use_of.bytes() || !behind(point.rest, COFACTOR).is_empty() {
        return None;
    }
    Some(key)
}

/// The bytes behind the domain parameters at the front.
#[tactic(auto, unfolding(crate::specs::CertificateIn::behind_parameters))]
fn behind_parameters(bytes: &[u8]) -> &[u8]
    ensures { result.now ≡ behind_parameters bytes.now }
{
    let bytes = behind(bytes, PRIME);
    let bytes = behind(bytes, FIRST_COEFFICIENT);
    let bytes = behind(bytes, SECOND_COEFFICIENT);
    let bytes = behind(bytes, BASE_POINT);
    behind(bytes, ORDER)
}

/// The point that these bytes are: 65, of which the first is 04.
fn read_point(bytes: &[u8]) -> Option<Point>
    ensures { result ≡ point_of bytes.now }
{
    let Ok(point) = Point::try_from(bytes) else {
        return None;
    };
    if point[0] != UNCOMPRESSED {
        return None;
    }
    Some(point)
}

/// The first byte of an uncompressed point (BSI TR-03111).
const UNCOMPRESSED: u8 = 4;
