//! The points, secrets and nonces of the model, as numbers of 64 bits.
ghost use Rattle.std.specs.Prelude.{◌≡◌, ◌≤◌, length};
ghost use Rattle.std.specs.Int.{w64, from_be_bytes};
ghost use Rattle.eid_copro.specs.Numbers.{base_number, point_number, point_of, scalar, secret_of};

use eid_base::{Point, Secret};

pub(crate) const GENERATOR: u64 = 5;

#[tactic(auto, unfolding(crate::specs::Numbers::point_of))]
pub(crate) fn spell_point(number: u64) -> Point
    ensures { result ≡ point_of number }
{
    let mut point = [0; 65];
    point[0] = 0x04;
    point[25..33].copy_from_slice(&number.to_be_bytes());
    point
}

#[tactic(auto, unfolding(crate::specs::Numbers::secret_of))]
pub(crate) fn spell_secret(number: u64) -> Secret
    ensures { result ≡ secret_of number }
{
    let mut secret = [0; 32];
    secret[24..].copy_from_slice(&number.to_be_bytes());
    secret
}

// The number of a point, and 0 for each spelling of none.
#[tactic(auto, unfolding(crate::specs::Numbers::point_number))]
pub(crate) fn number_of_point(point: &Point) -> u64
    ensures { result ≡ point_number point.now }
{
    let number = read_number(&point[25..33]);
    if *point == spell_point(number) {
        number
    } else {
        0
    }
}

// The number that the last eight bytes of a secret or a nonce stand for.
#[tactic(auto, unfolding(crate::specs::Numbers::scalar))]
pub(crate) fn number_of_scalar(bytes: &[u8]) -> u64
    requires { 8 ≤ length bytes.now }
    ensures { result ≡ scalar bytes.now }
{
    read_number(&bytes[bytes.len() - 8..])
}

// The number of the base of a pair.
pub(crate) fn number_of_base(base: &Option<Point>) -> u64
    ensures { result ≡ base_number base.now }
{
    match base {
        Some(point) => match number_of_point(point) {
            0 => GENERATOR,
            number => number,
        },
        None => GENERATOR,
    }
}

fn read_number(bytes: &[u8]) -> u64
    requires { length bytes.now ≡ 8 }
    ensures { result ≡ from_be_bytes w64 bytes.now }
{
    let mut eight = [0; 8];
    eight.copy_from_slice(bytes);
    u64::from_be_bytes(eight)
}
