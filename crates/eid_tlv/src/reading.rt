ghost use Rattle.std.specs.Prelude.{◌≡◌, ℕ, ◌≤◌, ◌↔◌, List, ◌++◌, IfOk, IfErr, IsOkAnd, IsTrue};
ghost use Rattle.eid_tlv.specs.Objects.{is_tag, length_bytes, tag_bytes};
ghost use Rattle.eid_tlv.specs.Parts.{IsLengthRefusal, IsRefusal, IsTagRefusal};
ghost use Rattle.eid_tlv.specs.Reading.{BeginsWith, HasBadLength, HasBadTag, IsCutShort};

/// A data object in BER-TLV (ISO/IEC 7816-4).
#[derive(Clone, Copy)]
pub struct Tlv<'a> {
    /// The tag: one byte, or two, the first of them high.
    pub tag: u16,
    /// The value, of at most 65,535 bytes.
    pub value: &'a [u8],
}

/// Why bytes do not begin with a data object.
#[derive(Clone, Copy)]
pub enum TlvError {
    /// They end inside of an object. No bytes at all are such bytes.
    Short,
    /// The second byte of the tag is not 1F to 7F.
    BadTag,
    /// The length has none of the three forms, or a shorter one would do.
    BadLength,
}

/// The data object at the front of the bytes, and the bytes behind it (ISO/IEC 7816-4, BER-TLV).
///
/// # Errors
/// `Short` exactly where the bytes are a proper prefix of some object, `BadTag` exactly where a first byte
/// that goes on is followed by none of 1F to 7F, `BadLength` exactly where a tag is followed by no length
/// in its shortest form.
pub fn next(bytes: &[u8]) -> Result<(Tlv<'_>, &[u8]), TlvError>
    ensures found { IfOk result (λ r. BeginsWith bytes.now r.0.tag r.0.value.now r.1.now) }
    ensures only { (tag : ℕ) (value rest : List ℕ) → BeginsWith bytes.now tag value rest
        → IsOkAnd result (λ r. (r.0.tag ≡ tag) × (r.0.value.now ≡ value) × (r.1.now ≡ rest)) }
    ensures short { (result ≡ Err TlvError.Short) ↔ IsCutShort bytes.now }
    ensures bad_tag { (result ≡ Err TlvError.BadTag) ↔ HasBadTag bytes.now }
    ensures bad_length { (result ≡ Err TlvError.BadLength) ↔ HasBadLength bytes.now }
{
    read_object(bytes)
}

/// At the front of bytes stands at most one data object.
pub fn law_one_object()
    ensures { (bytes : List ℕ) (s t : ℕ) (u v a b : List ℕ) → BeginsWith bytes s u a → BeginsWith bytes t v b → (s ≡ t) × (u ≡ v) × (a ≡ b) }
{}

/// The same, with each error in the terms of what was read.
fn read_object(bytes: &[u8]) -> Result<(Tlv<'_>, &[u8]), TlvError>
    ensures found { IfOk result (λ r. BeginsWith bytes.now r.0.tag r.0.value.now r.1.now) }
    ensures refused { IfErr result (IsRefusal bytes.now) }
{
    let (tag, after_tag) = read_tag(bytes)?;
    let (size, after_length) = read_length(after_tag)?;
    if after_length.len() < size {
        return Err(TlvError::Short);
    }
    let (value, rest) = after_length.split_at(size);
    Ok((Tlv { tag, value }, rest))
}

/// The tag, and the bytes behind it.
#[tactic(auto, using(crate::proofs::Forms::begins_one_byte_tag, crate::proofs::Forms::begins_two_byte_tag))]
fn read_tag(bytes: &[u8]) -> Result<(u16, &[u8]), TlvError>
    ensures found { IfOk result (λ r. IsTrue (is_tag r.0) × (bytes.now ≡ tag_bytes r.0 ++ r.1.now)) }
    ensures refused { IfErr result (IsTagRefusal bytes.now) }
{
    match bytes {
        [] => Err(TlvError::Short),
        [first, rest @ ..] if first % 32 != 31 => Ok((u16::from(*first), rest)),
        [_] => Err(TlvError::Short),
        [first, second @ 0x1F..=0x7F, rest @ ..] => {
            Ok((u16::from_be_bytes([*first, *second]), rest))
        }
        _ => Err(TlvError::BadTag),
    }
}

/// The length, in bytes, and the bytes behind it.
#[tactic(auto, using(crate::proofs::Forms::begins_one_byte_length, crate::proofs::Forms::begins_two_byte_length))]
fn read_length(bytes: &[u8]) -> Result<(usize, &[u8]), TlvError>
    ensures found { IfOk result (λ r. (r.0 ≤ 65535) × (bytes.now ≡ length_bytes r.0 ++ r.1.now)) }
    ensures refused { IfErr result (IsLengthRefusal bytes.now) }
{
    match bytes {
        [size @ 0..=0x7F, rest @ ..] => Ok((usize::from(*size), rest)),
        [0x81, size @ 0x80..=0xFF, rest @ ..] => Ok((usize::from(*size), rest)),
        [0x82, high @ 1..=0xFF, low, rest @ ..] => {
            Ok((usize::from(u16::from_be_bytes([*high, *low])), rest))
        }
        [] | [0x81] | [0x82] | [0x82, 1..=0xFF] => Err(TlvError::Short),
        _ => Err(TlvError::BadLength),
    }
}
