ghost use Rattle.std.specs.Prelude.{◌≡◌, ℕ, ◌%◌, ◌<◌, ◌≤◌, ◌↔◌, List, length, take, IsOk, OnOk, OnErr, IfSome, Some};
ghost use Rattle.eid_cmac.specs.Padding.{padding, padded};

use arrayvec::ArrayVec;
use eid_base::Full;

const PADDING: [u8; 16] = [0x80, 0, 0, 0, 0, 0, 0, 0, 0, 0, 0, 0, 0, 0, 0, 0];

/// The padding behind so many bytes: 80, and then 00 up to a multiple of 16 bytes (ISO/IEC 7816-4).
pub fn padding(size: usize) -> &'static [u8]
    ensures { result.now ≡ padding size }
{
    &PADDING[..16 - size % 16]
}

/// Pads the whole buffer with 80 and then 00 up to a multiple of 16 bytes (ISO/IEC 7816-4).
///
/// # Errors
/// `Full` exactly where that does not fit; the buffer is then as before.
pub fn pad<const N: usize>(out: &mut ArrayVec<u8, N>) -> Result<(), Full>
    ensures exactly { IsOk result ↔ (length (padded out.old.items) ≤ N) }
    ensures ok { OnOk result (out.new.items ≡ padded out.old.items) }
    ensures whole { OnOk result (length out.new.items % 16 ≡ 0) }
    ensures unchanged { OnErr result (out.new ≡ out.old) }
{
    match out.try_extend_from_slice(padding(out.len())) {
        Ok(()) => Ok(()),
        Err(_) => Err(Full),
    }
}

/// The length of what was padded by 80 and then 00 up to a multiple of 16 bytes (ISO/IEC 7816-4),
/// or `None` exactly where the bytes are not a padded string.
pub fn unpad(bytes: &[u8]) -> Option<usize>
    ensures found { IfSome result (λ n. bytes.now ≡ padded (take n bytes.now)) }
    ensures within { IfSome result (λ n. n < length bytes.now) }
    ensures only { (message : List ℕ) → bytes.now ≡ padded message → result ≡ Some (length message) }
{
    if bytes.len() % 16 != 0 {
        return None;
    }
    for end in (0..bytes.len()).rev() {
        if bytes[end] == 0x80 && bytes.len() - end <= 16 {
            return Some(end);
        }
        if bytes[end] != 0 {
            return None;
        }
    }
    None
}

/// Bytes are the padded form of at most one string.
pub fn law_one_padded()
    ensures { (a b : List ℕ) → padded a ≡ padded b → a ≡ b }
{}
