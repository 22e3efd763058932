//! The forms of values.
ghost use Rattle.std.specs.Prelude.{◌≡◌, ◌-◌, map, nat_le, IfOk, IsErr, IsSome, option_map};
ghost use Rattle.std.specs.List.{list_all};
ghost use Rattle.eid_bits.specs.Dates.{date_digits, date_text};
ghost use Rattle.eid_bits.specs.Template.{template_bytes};
ghost use Rattle.toml.specs.View.{view};
ghost use Rattle.eid_terminal.specs.Plans.{digits_of};
ghost use Rattle.eid_perso.specs.Forms.{number_between, whole, digits_in, digits, date_in, date, is_name, name_in, name, sized, point, file};
ghost use Rattle.eid_perso.specs.Forms.{long_date, community_in, community, password_of_word, password_word};

use arrayvec::ArrayVec;
use eid_base::{NoMemory, Point};
use eid_bits::{Date6, Date8, Template};
use eid_record::Password;
use eid_text::{are_digits, decode_hex};
use hex::FromHex;
use std::alloc::Global;
use toml::Value;

fn number_between(least: u32, most: u32, n: i64) -> Option<u32>
    ensures { result ≡ number_between least most n }
{
    if n < i64::from(least) || n > i64::from(most) {
        return None;
    }
    Some(n.unsigned_abs() as u32)
}

/// A whole number from `least` to `most`.
pub fn whole(value: &Value, least: u32, most: u32) -> Option<u32>
    ensures { result ≡ whole least most (view value.now) }
{
    match value.as_integer() {
        Some(n) => number_between(least, most, n),
        None => None,
    }
}

fn digits_in<const N: usize>(text: &[u8]) -> Option<[u8; N]>
    ensures { result ≡ digits_in N text.now }
{
    let Ok(bytes) = <[u8; N]>::try_from(text) else {
        return None;
    };
    if !are_digits(&bytes) {
        return None;
    }
    Some(bytes)
}

/// A text of N decimal digits.
pub fn digits<const N: usize>(value: &Value) -> Option<[u8; N]>
    ensures { result ≡ digits N (view value.now) }
{
    match value.as_str() {
        Some(text) => digits_in::<N>(text.as_bytes()),
        None => None,
    }
}

/// The values of six digits.
fn values(text: &[u8; 6]) -> [u8; 6]
    ensures { result ≡ map (λ d. d - 48) text.now }
{
    let [y1, y2, m1, m2, d1, d2] = *text;
    [
        y1.saturating_sub(b'0'),
        y2.saturating_sub(b'0'),
        m1.saturating_sub(b'0'),
        m2.saturating_sub(b'0'),
        d1.saturating_sub(b'0'),
        d2.saturating_sub(b'0'),
    ]
}

fn date_in(text: &[u8; 6]) -> Option<Date6>
    ensures { option_map date_digits result ≡ date_in text.now }
{
    match Date6::from_bytes(&values(text)) {
        Ok(date) => Some(date),
        Err(_) => None,
    }
}

/// A text of six decimal digits that are a date.
pub fn date(value: &Value) -> Option<Date6>
    ensures { option_map date_digits result ≡ date (view value.now) }
{
    match digits::<6>(value) {
        Some(text) => date_in(&text),
        None => None,
    }
}

/// A text of eight decimal digits that are a date.
pub fn long_date(value: &Value) -> Option<Date8>
    ensures { option_map date_text result ≡ long_date (view value.now) }
{
    match value.as_str() {
        Some(text) => Date8::from_bytes(text.as_bytes()).ok(),
        None => None,
    }
}

fn is_ascii(text: &[u8]) -> bool
    ensures { result ≡ list_all (λ b. nat_le b 127) text.now }
{
    text.iter().all(|byte| *byte <= 127)
}

fn is_name(text: &[u8]) -> bool
    ensures { result ≡ is_name text.now }
{
    matches!(text.len(), 1..=16) && is_ascii(text)
}

fn name_in(text: &[u8]) -> Option<ArrayVec<u8, 16>>
    ensures { option_map (λ n. n.items) result ≡ name_in text.now }
{
    if !is_name(text) {
        return None;
    }
    let mut name = ArrayVec::new();
    let _ = name.try_extend_from_slice(text);
    Some(name)
}

/// ASCII text of 1 to 16 characters.
pub fn name(value: &Value) -> Option<ArrayVec<u8, 16>>
    ensures { option_map (λ n. n.items) result ≡ name (view value.now) }
{
    match value.as_str() {
        Some(text) => name_in(text.as_bytes()),
        None => None,
    }
}

/// N bytes in hexadecimal.
pub fn sized<const N: usize>(value: &Value) -> Option<[u8; N]>
    ensures { result ≡ sized N (view value.now) }
{
    match value.as_str() {
        Some(text) => <[u8; N]>::from_hex(text).ok(),
        None => None,
    }
}

/// Five bytes in hexadecimal.
pub fn template(value: &Value) -> Option<Template>
    ensures { option_map template_bytes result ≡ sized 5 (view value.now) }
{
    match sized::<5>(value) {
        Some(bytes) => Template::from_bytes(&bytes).ok(),
        None => None,
    }
}

/// 65 bytes in hexadecimal that begin with 04.
pub fn point(value: &Value) -> Option<Point>
    ensures { result ≡ point (view value.now) }
{
    match sized::<65>(value) {
        Some(bytes) if bytes[0] == 4 => Some(bytes),
        _ => None,
    }
}

/// How many bytes the longest file has.
const MAX_FILE: usize = 2048;

/// At most 2,048 bytes in hexadecimal. Memory is wanting only for a value of this form.
pub fn file(alloc: Global, value: &Value) -> Result<Option<Vec<u8>>, NoMemory>
    ensures found { IfOk result (λ bytes. option_map (λ v. v.items) bytes ≡ file (view value.now)) }
    ensures no_memory { IsErr result → IsSome (file (view value.now)) }
{
    match value.as_str() {
        Some(text) => decode_hex(alloc, text.as_bytes(), MAX_FILE),
        None => Ok(None),
    }
}

/// How many bytes the longest community has.
const MAX_COMMUNITY: usize = 16;

#[tactic(auto, using(crate::proofs::Communities::too_short, crate::proofs::Communities::too_long))]
fn community_in(text: &[u8]) -> Option<ArrayVec<u8, MAX_COMMUNITY>>
    ensures { option_map (λ c. c.items) result ≡ community_in text.now }
{
    let count = text.len() / 2;
    if !matches!(count, 1..=MAX_COMMUNITY) {
        return None;
    }
    let mut bytes = [0; MAX_COMMUNITY];
    let Ok(()) = hex::decode_to_slice(text, &mut bytes[..count]) else {
        return None;
    };
    let mut community = ArrayVec::new();
    let _ = community.try_extend_from_slice(&bytes[..count]);
    Some(community)
}

/// 1 to 16 bytes in hexadecimal.
pub fn community(value: &Value) -> Option<ArrayVec<u8, MAX_COMMUNITY>>
    ensures { option_map (λ c. c.items) result ≡ community (view value.now) }
{
    match value.as_str() {
        Some(text) => community_in(text.as_bytes()),
        None => None,
    }
}

fn password_of_word(word: &str) -> Option<Password>
    ensures { result ≡ password_of_word word.now }
{
    match word {
        "can" => Some(Password::Can),
        "pin" => Some(Password::Pin),
        "puk" => Some(Password::Puk),
        _ => None,
    }
}

/// A password by its word.
pub fn password_word(value: &Value) -> Option<Password>
    ensures { result ≡ password_word (view value.now) }
{
    match value.as_str() {
        Some(word) => password_of_word(word),
        None => None,
    }
}

/// How many digits a password has.
fn digits_of(password: Password) -> usize
    ensures { result ≡ digits_of password }
{
    match password {
        Password::Can | Password::Pin => 6,
        Password::Puk => 10,
    }
}

fn password_digits_in(text: &[u8], password: Password) -> Option<ArrayVec<u8, 10>>
    ensures { option_map (λ d. d.items) result ≡ digits_in (digits_of password) text.now }
{
    if text.len() != digits_of(password) || !are_digits(text) {
        return None;
    }
    let mut digits = ArrayVec::new();
    let _ = digits.try_extend_from_slice(text);
    Some(digits)
}

/// As many decimal digits as a password has.
pub fn password_digits(value: &Value, password: Password) -> Option<ArrayVec<u8, 10>>
    ensures { option_map (λ d. d.items) result ≡ digits (digits_of password) (view value.now) }
{
    match value.as_str() {
        Some(text) => password_digits_in(text.as_bytes(), password),
        None => None,
    }
}
