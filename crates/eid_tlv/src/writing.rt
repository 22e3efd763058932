ghost use Rattle.std.specs.Prelude.{◌≡◌, ◌+◌, ◌<◌, ◌≤◌, ◌++◌, ◌↔◌, length, IsTrue, IsErr, OnOk, OnErr};
ghost use Rattle.arrayvec.specs.ArrayVec.{array_vec_len};
ghost use Rattle.eid_tlv.specs.Objects.{is_tag, length_bytes, object, tag_bytes};

use arrayvec::ArrayVec;
use eid_base::Full;

/// Whether a number is a tag of one byte or two (ISO/IEC 7816-4).
#[tactic(auto, unfolding(crate::specs::Objects::is_tag))]
pub fn is_tag(tag: u16) -> bool
    ensures { result ≡ is_tag tag }
{
    if tag < 0x100 {
        return tag % 32 != 31;
    }
    tag / 256 % 32 == 31 && 0x1F <= tag % 256 && tag % 256 <= 0x7F
}

/// Appends the data object with this tag and this value of at most 65,535 bytes, its length in the shortest
/// form (ISO/IEC 7816-4, BER-TLV).
///
/// # Errors
/// `Full` exactly where it does not fit; `out` is then as before.
#[tactic(auto, using(crate::proofs::Sizes::object_size, crate::proofs::Sizes::object_written))]
pub fn put<const N: usize>(out: &mut ArrayVec<u8, N>, tag: u16, value: &[u8]) -> Result<(), Full>
    requires tag { IsTrue (is_tag tag) }
    requires size { length value.now ≤ 65535 }
    ensures written { OnOk result (out.new.items ≡ out.old.items ++ object tag value.now) }
    ensures full { IsErr result ↔ (N < array_vec_len out.old + length (object tag value.now)) }
    ensures same { OnErr result (out.new ≡ out.old) }
{
    let head = head(tag, value.len());
    if out.remaining_capacity() < head.len() + value.len() {
        return Err(Full);
    }
    out.try_extend_from_slice(&head).unwrap();
    out.try_extend_from_slice(value).unwrap();
    Ok(())
}

/// What stands before a value of so many bytes, at most 65,535: the tag, and the length in its shortest form.
#[tactic(auto, using(crate::proofs::Sizes::tag_size))]
pub fn head(tag: u16, size: usize) -> ArrayVec<u8, 5>
    requires { size ≤ 65535 }
    ensures { result.items ≡ tag_bytes tag ++ length_bytes size }
{
    let mut head = ArrayVec::new();
    put_tag(&mut head, tag);
    put_length(&mut head, size);
    head
}

#[tactic(auto, unfolding(crate::specs::Objects::tag_bytes))]
fn put_tag(out: &mut ArrayVec<u8, 5>, tag: u16)
    requires { array_vec_len out.old ≤ 3 }
    ensures { out.new.items ≡ out.old.items ++ tag_bytes tag }
{
    if tag < 0x100 {
        out.push(tag as u8);
        return;
    }
    let [high, low] = tag.to_be_bytes();
    out.push(high);
    out.push(low);
}

#[tactic(auto, unfolding(crate::specs::Objects::length_bytes))]
fn put_length(out: &mut ArrayVec<u8, 5>, size: usize)
    requires room { array_vec_len out.old ≤ 2 }
    requires form { size ≤ 65535 }
    ensures { out.new.items ≡ out.old.items ++ length_bytes size }
{
    if size < 0x80 {
        out.push(size as u8);
        return;
    }
    if size < 0x100 {
        out.push(0x81);
        out.push(size as u8);
        return;
    }
    let [high, low] = (size as u16).to_be_bytes();
    out.push(0x82);
    out.push(high);
    out.push(low);
}
