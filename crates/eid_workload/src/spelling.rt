//! The values of generated sessions: keys by their numbers, names, templates, dates and digits.
ghost use Rattle.std.specs.Prelude.{◌≡◌, ◌+◌, ◌*◌, ◌<◌, ◌%◌, ◌^◌, IsTrue, length, slice_index};
ghost use Rattle.eid_bits.specs.Date.{is_date, is_long_date};
ghost use Rattle.eid_bits.specs.Dates.{date_digits, date_text};
ghost use Rattle.eid_bits.specs.Template.{template_bytes};
ghost use Rattle.eid_copro.specs.Numbers.{generator, secret_of};
ghost use Rattle.eid_record.specs.Valid.{AreDigits};
ghost use Rattle.eid_workload.specs.Generated.{key_of, last_digit, six_digits};

use arrayvec::ArrayVec;
use eid_base::{Point, Secret};
use eid_bits::{Date6, Date8, Template};

/// The number of the model's generator, of which the public key of a secret is a multiple.
const GENERATOR: u64 = 5;

/// The public key of a secret's number.
#[tactic(auto, unfolding(eid_copro::specs::Numbers::point_of))]
pub fn key_of(secret: u64) -> Point
    requires { secret * generator < 2 ^ 64 }
    ensures is { result ≡ key_of secret }
    ensures long { length result ≡ 65 }
    ensures uncompressed { slice_index result 0 ≡ 4 }
{
    let mut point = [0; 65];
    point[0] = 0x04;
    point[25..33].copy_from_slice(&(secret * GENERATOR).to_be_bytes());
    point
}

/// A secret of this number.
#[tactic(auto, unfolding(eid_copro::specs::Numbers::secret_of))]
pub fn secret_of(number: u64) -> Secret
    ensures is { result ≡ secret_of number }
    ensures long { length result ≡ 32 }
{
    let mut secret = [0; 32];
    secret[24..].copy_from_slice(&number.to_be_bytes());
    secret
}

pub fn name_of(text: &[u8; 13]) -> ArrayVec<u8, 16>
    ensures is { result.items ≡ text.now }
    ensures long { length result.items ≡ 13 }
{
    let mut name = ArrayVec::new();
    name.try_extend_from_slice(text).unwrap();
    name
}

pub fn template_of(bytes: [u8; 5]) -> Template
    ensures { template_bytes result ≡ bytes }
{
    Template::from_bytes(&bytes).unwrap()
}

pub fn date_of(digits: [u8; 6]) -> Date6
    requires { IsTrue (is_date digits) }
    ensures { date_digits result ≡ digits }
{
    Date6::from_bytes(&digits).unwrap()
}

pub fn long_date_of(text: [u8; 8]) -> Date8
    requires { IsTrue (is_long_date text) }
    ensures { date_text result ≡ text }
{
    let Ok(date) = Date8::from_bytes(&text) else {
        unreachable!()
    };
    date
}

fn last_digit(number: u32) -> u8
    ensures { result ≡ last_digit number }
{
    b'0' + (number % 10) as u8
}

/// A number as six digits.
pub fn six_digits(number: u32) -> [u8; 6]
    ensures is { result ≡ six_digits number }
    ensures digits { AreDigits 6 result }
{
    [
        last_digit(number / 100_000),
        last_digit(number / 10_000),
        last_digit(number / 1_000),
        last_digit(number / 100),
        last_digit(number / 10),
        last_digit(number),
    ]
}

/// As digits of a password.
pub fn password_of(digits: &[u8; 6]) -> ArrayVec<u8, 10>
    ensures { result.items ≡ digits.now }
{
    let mut password = ArrayVec::new();
    password.try_extend_from_slice(digits).unwrap();
    password
}
