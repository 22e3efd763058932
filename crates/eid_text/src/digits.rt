ghost use Rattle.std.specs.Prelude.{◌≡◌, IfOk, IsErr, IsSome, is_ok, option_map};
ghost use Rattle.std.specs.Char.{is_ascii_digit, is_ascii_hexdigit};
ghost use Rattle.std.specs.List.{list_all};
ghost use Rattle.hex.specs.Hex.{decode_of};
ghost use Rattle.eid_text.specs.Hexadecimal.{bytes_within};

use eid_base::NoMemory;
use std::alloc::Global;

/// Whether each byte is a decimal digit in ASCII.
pub fn are_digits(text: &[u8]) -> bool
    ensures { result ≡ list_all is_ascii_digit text.now }
{
    text.iter().all(|byte| byte.is_ascii_digit())
}

/// The bytes that hexadecimal digits of either case write, two digits a byte. `None` where the text has another byte or
/// an odd number of digits, or writes more than `most` bytes.
///
/// # Errors
/// `NoMemory` where memory for the bytes is refused, and never for the sake of the text.
#[tactic(auto, using(crate::proofs::Decoding::no_hex, crate::proofs::Decoding::too_many, crate::proofs::Decoding::few_enough, crate::proofs::Decoding::writes_some))]
pub fn decode_hex(alloc: Global, text: &[u8], most: usize) -> Result<Option<Vec<u8>>, NoMemory>
    ensures found { IfOk result (λ bytes. option_map (λ b. b.items) bytes ≡ bytes_within most text.now) }
    ensures no_memory { IsErr result → IsSome (bytes_within most text.now) }
{
    if !is_hex(text) {
        return Ok(None);
    }
    if text.len() / 2 > most {
        return Ok(None);
    }
    match hex::decode(alloc, text) {
        Ok(bytes) => Ok(Some(bytes)),
        Err(_) => Err(NoMemory),
    }
}

/// Whether the text is an even number of hexadecimal digits.
#[tactic(auto, using(crate::proofs::Decoding::even_text, crate::proofs::Decoding::odd_text))]
fn is_hex(text: &[u8]) -> bool
    ensures { result ≡ is_ok (decode_of text.now) }
{
    text.len() % 2 == 0 && are_hex_digits(text)
}

fn are_hex_digits(text: &[u8]) -> bool
    ensures { result ≡ list_all is_ascii_hexdigit text.now }
{
    text.iter().all(|byte| byte.is_ascii_hexdigit())
}
