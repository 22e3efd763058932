ghost use Rattle.std.specs.Prelude.{◌≡◌, ◌++◌, ◌<◌, ◌+◌, ◌≤◌, OnOk, decimal, vec_capacity, vec_len};
ghost use Rattle.hex.specs.Hex.{encode_lower};

use eid_base::NoMemory;
use itoa::Buffer;

/// The digits of hexadecimal, in lower case.
const DIGITS: &[u8; 16] = b"0123456789abcdef";

/// Appends bytes in hexadecimal, in lower case.
///
/// # Errors
/// `NoMemory` where memory for the digits is refused; nothing is appended then.
pub fn put_hex(bytes: &[u8], out: &mut Vec<u8>) -> Result<(), NoMemory>
    ensures { OnOk result (out.new.items ≡ out.old.items ++ encode_lower bytes.now) }
{
    out.reserve(2 * bytes.len())?;
    for byte in bytes {
        out.push_reserved(DIGITS[usize::from(*byte / 16)]);
        out.push_reserved(DIGITS[usize::from(*byte % 16)]);
    }
    Ok(())
}

/// Appends a number in decimal.
///
/// # Errors
/// `NoMemory` where memory for the digits is refused; nothing is appended then.
pub fn put_decimal(number: u32, out: &mut Vec<u8>) -> Result<(), NoMemory>
    ensures { OnOk result (out.new.items ≡ out.old.items ++ decimal number) }
{
    let mut buffer = Buffer::new();
    out.extend_from_slice(buffer.format(number).as_bytes())?;
    Ok(())
}
