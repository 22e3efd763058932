//! Reading the data objects of protected messages.
ghost use Rattle.std.specs.Prelude.{◌≡◌, ℕ, ◌%◌, ◌<◌, ◌≤◌, ◌↔◌, true, List, ◌∷◌, ◌++◌, length, take, Some, IfSome, IsSomeAnd, IsTrue};
ghost use Rattle.std.specs.Bool.{OnTrue};
ghost use Rattle.arrayvec.specs.ArrayVec.{array_vec_len};
ghost use Rattle.eid_aes.specs.Cipher.{cipher};
ghost use Rattle.eid_aes.specs.Cbc.{AreBlocks, cbc_encrypted};
ghost use Rattle.eid_cmac.specs.Padding.{padded};
ghost use Rattle.eid_tlv.specs.Objects.{is_tag, object};
ghost use Rattle.eid_sm.specs.Parts.{AreBytes, cryptogram, encrypted_object, mac_object};
ghost use Rattle.eid_sm.specs.Replies.{HasNoMac};

use crate::parts::{MAX_MESSAGE, mac_bytes};
use arrayvec::ArrayVec;
use eid_aes::Aes;
use eid_cmac::unpad;
use eid_tlv::{Found, find, next};

/// What stands before the end, where bytes have that end.
pub fn without_end<'a>(bytes: &'a [u8], end: &[u8]) -> Option<&'a [u8]>
    ensures found { IfSome result (λ r. bytes.now ≡ r.now ++ end.now) }
    ensures only { (before : List ℕ) → bytes.now ≡ before ++ end.now → IsSomeAnd result (λ r. r.now ≡ before) }
{
    bytes.strip_suffix(end)
}

/// The data objects before the MAC, where bytes end with the DO 8E that they want.
pub fn without_mac<'a, const ROUNDS: usize>(
    mac: &Aes<ROUNDS>,
    start: &[u8],
    bytes: &'a [u8],
) -> Option<&'a [u8]>
    ensures found { IfSome result (λ r. bytes.now ≡ r.now ++ mac_object mac.now start.now r.now) }
    ensures only { (objects : List ℕ) → bytes.now ≡ objects ++ mac_object mac.now start.now objects → IsSomeAnd result (λ r. r.now ≡ objects) }
{
    if bytes.len() < 10 {
        return None;
    }
    let object = mac_bytes(mac, start, &bytes[..bytes.len() - 10]);
    without_end(bytes, &object)
}

// Decrypts whole blocks into `plain`, from the encrypted counter on.
fn decrypt<const ROUNDS: usize>(
    enc: &Aes<ROUNDS>,
    count: &[u8; 16],
    bytes: &[u8],
    plain: &mut ArrayVec<u8, MAX_MESSAGE>,
)
    requires fits { length bytes.now ≤ MAX_MESSAGE }
    requires blocks { length bytes.now % 16 ≡ 0 }
    ensures again { bytes.now ≡ cbc_encrypted enc.now (cipher enc.now count.now) plain.new.items }
    ensures undone { (p : List ℕ) → AreBlocks p → bytes.now ≡ cbc_encrypted enc.now (cipher enc.now count.now) p → plain.new.items ≡ p }
{
    let mut iv = *count;
    enc.encrypt(&mut iv);
    plain.clear();
    plain.try_extend_from_slice(bytes).unwrap();
    enc.cbc_decrypt(&iv, plain.as_mut_slice());
}

// The length of what was padded, where the bytes are padded.
#[tactic(auto, using(crate::proofs::Opening::front_bytes))]
fn unpadded(bytes: &[u8]) -> Option<usize>
    ensures found { IfSome result (λ n. bytes.now ≡ padded (take n bytes.now)) }
    ensures within { IfSome result (λ n. n < length bytes.now) }
    ensures octets { IfSome result (λ n. AreBytes (take n bytes.now)) }
    ensures only { (message : List ℕ) → bytes.now ≡ padded message → result ≡ Some (length message) }
{
    unpad(bytes)
}

// Decrypts a cryptogram into `plain`, where it is one of some bytes and not of the padding alone.
fn open_cryptogram<const ROUNDS: usize>(
    enc: &Aes<ROUNDS>,
    count: &[u8; 16],
    bytes: &[u8],
    plain: &mut ArrayVec<u8, MAX_MESSAGE>,
) -> bool
    requires { length bytes.now ≤ MAX_MESSAGE }
    ensures found { OnTrue result ((bytes.now ≡ cryptogram enc.now count.now plain.new.items) × (0 < array_vec_len plain.new)) }
    ensures octets { OnTrue result (AreBytes plain.new.items) }
    ensures only { (p : List ℕ) → AreBytes p → 0 < length p → bytes.now ≡ cryptogram enc.now count.now p → (result ≡ true) × (plain.new.items ≡ p) }
{
    if bytes.len() % 16 != 0 {
        return false;
    }
    decrypt(enc, count, bytes, plain);
    let Some(size) = unpadded(plain.as_slice()) else {
        return false;
    };
    plain.truncate(size);
    size > 0
}

// The value of the data object that the bytes are, where its tag is this one.
fn sole_value(bytes: &[u8], tag: u16) -> Option<&[u8]>
    requires tag { IsTrue (is_tag tag) }
    requires size { length bytes.now ≤ MAX_MESSAGE }
    ensures found { IfSome result (λ v. bytes.now ≡ object tag v.now) }
    ensures only { (v : List ℕ) → bytes.now ≡ object tag v → IsSomeAnd result (λ r. r.now ≡ v) }
{
    let Ok((object, rest)) = next(bytes) else {
        return None;
    };
    if object.tag != tag {
        return None;
    }
    if rest.is_empty() {
        Some(object.value)
    } else {
        None
    }
}

// The bytes behind a first byte 01.
fn behind_01(bytes: &[u8]) -> Option<&[u8]>
    ensures found { IfSome result (λ r. bytes.now ≡ 0x01 ∷ r.now) }
    ensures only { (rest : List ℕ) → bytes.now ≡ 0x01 ∷ rest → IsSomeAnd result (λ r. r.now ≡ rest) }
{
    match bytes {
        [first, rest @ ..] if *first == 0x01 => Some(rest),
        _ => None,
    }
}

// The cryptogram, where the bytes are a DO 87 that begins with the byte 01.
fn cryptogram_in(bytes: &[u8]) -> Option<&[u8]>
    requires { length bytes.now ≤ MAX_MESSAGE }
    ensures found { IfSome result (λ r. bytes.now ≡ object 0x87 (0x01 ∷ r.now)) }
    ensures only { (c : List ℕ) → bytes.now ≡ object 0x87 (0x01 ∷ c) → IsSomeAnd result (λ r. r.now ≡ c) }
{
    let Some(value) = sole_value(bytes, 0x87) else {
        return None;
    };
    behind_01(value)
}

/// Decrypts into `plain` what the bytes protect: the bytes of a DO 87, or none where there are none.
pub fn open_encrypted<const ROUNDS: usize>(
    enc: &Aes<ROUNDS>,
    count: &[u8; 16],
    bytes: &[u8],
    plain: &mut ArrayVec<u8, MAX_MESSAGE>,
) -> bool
    requires { length bytes.now ≤ MAX_MESSAGE }
    ensures found { OnTrue result (bytes.now ≡ encrypted_object enc.now count.now plain.new.items) }
    ensures octets { OnTrue result (AreBytes plain.new.items) }
    ensures only { (p : List ℕ) → AreBytes p → bytes.now ≡ encrypted_object enc.now count.now p → (result ≡ true) × (plain.new.items ≡ p) }
{
    if bytes.is_empty() {
        plain.clear();
        return true;
    }
    let Some(cryptogram) = cryptogram_in(bytes) else {
        return false;
    };
    open_cryptogram(enc, count, cryptogram, plain)
}

/// Whether bytes are a list of data objects without a DO 8E.
pub fn has_no_mac(bytes: &[u8]) -> bool
    ensures { IsTrue result ↔ HasNoMac bytes.now }
{
    matches!(find(bytes, 0x8E), Found::Absent)
}
