//! Dynamic authentication data: what GENERAL AUTHENTICATE carries, one object 7C (BSI TR-03110-3;
//! ISO/IEC 7816-4).
ghost use Rattle.std.specs.Prelude.{◌≡◌, ◌+◌, ◌≤◌, ◌++◌, length, IfSome, IfNone, false, true, IsTrue};
ghost use Rattle.std.specs.Str.{bytes_eq};
ghost use Rattle.arrayvec.specs.ArrayVec.{array_vec_len};
ghost use Rattle.eid_apdu.specs.Answer.{plain_reply};
ghost use Rattle.eid_tlv.specs.Objects.{is_tag, object};
ghost use Rattle.eid_model.specs.Answers.{data_alone};
ghost use Rattle.eid_model.specs.Bodies.{authentication_data, data_in, holds_point, holds_value, no_data};

use arrayvec::ArrayVec;
use eid_apdu::Reply;
use eid_base::{Point, Status};
use eid_tlv::put;

/// What a point begins with whose two coordinates follow (BSI TR-03111).
const UNCOMPRESSED: u8 = 4;

/// Whether the body is 7C without a value.
#[tactic(auto, unfolding(eid_model::specs::Bodies::no_data, eid_tlv::specs::Objects::object, eid_tlv::specs::Objects::tag_bytes, eid_tlv::specs::Objects::length_bytes))]
pub fn is_no_data(body: &[u8]) -> bool
    ensures { result ≡ bytes_eq body.now no_data }
{
    body == [0x7c, 0x00].as_slice()
}

/// The value of this many bytes that the body holds under the tag: what stands behind two tags and two
/// lengths, of a byte each.
fn value_in(body: &[u8], tag: u8, size: u8) -> Option<&[u8]>
    requires { size ≤ 100 }
    ensures found { IfSome result (λ value. (value.now ≡ data_in body.now) × (length value.now ≡ size) × (holds_value tag size body.now ≡ true)) }
    ensures none { IfNone result (holds_value tag size body.now ≡ false) }
{
    let Some(value) = body.strip_prefix(&[0x7c, size + 2, tag, size]) else {
        return None;
    };
    if value.len() != usize::from(size) {
        return None;
    }
    Some(value)
}

/// The point that the body holds under the tag.
pub fn point_in(body: &[u8], tag: u8) -> Option<Point>
    ensures found { IfSome result (λ point. (point ≡ data_in body.now) × (holds_point tag body.now ≡ true)) }
    ensures none { IfNone result (holds_point tag body.now ≡ false) }
{
    let Some(value) = value_in(body, tag, 65) else {
        return None;
    };
    if value[0] != UNCOMPRESSED {
        return None;
    }
    let mut point = [0; 65];
    point.copy_from_slice(value);
    Some(point)
}

/// The token that the body holds, in 85.
pub fn token_in(body: &[u8]) -> Option<[u8; 8]>
    ensures found { IfSome result (λ token. (token ≡ data_in body.now) × (holds_value 0x85 8 body.now ≡ true)) }
    ensures none { IfNone result (holds_value 0x85 8 body.now ≡ false) }
{
    let Some(value) = value_in(body, 0x85, 8) else {
        return None;
    };
    let mut token = [0; 8];
    token.copy_from_slice(value);
    Some(token)
}

/// Appends an object for which there is room.
#[tactic(auto, using(crate::proofs::Bodies::object_fits, crate::proofs::Bodies::appended))]
pub fn append<const N: usize>(out: &mut ArrayVec<u8, N>, tag: u16, value: &[u8])
    requires tag { IsTrue (is_tag tag) }
    requires small { length value.now ≤ 2000 }
    requires room { array_vec_len out.old + length value.now + 5 ≤ N }
    ensures items { out.new.items ≡ out.old.items ++ object tag value.now }
    ensures size { array_vec_len out.new ≤ array_vec_len out.old + length value.now + 5 }
{
    put(out, tag, value).unwrap();
}

/// Makes the reply one of 9000 with these data.
pub fn put_plain(content: &[u8], reply: &mut Reply)
    requires { length content.now ≤ 200 }
    ensures plain { plain_reply reply.new ≡ data_alone content.now }
    ensures small { array_vec_len reply.new.content ≤ 2048 }
{
    reply.content.clear();
    reply.content.try_extend_from_slice(content).unwrap();
    reply.status = Status(0x9000);
}

/// Makes the reply one of 9000 with this in 7C.
pub fn put_in_data(inner: &[u8], reply: &mut Reply)
    requires { length inner.now ≤ 200 }
    ensures plain { plain_reply reply.new ≡ data_alone (object 0x7C inner.now) }
    ensures small { array_vec_len reply.new.content ≤ 2048 }
{
    reply.content.clear();
    append(&mut reply.content, 0x7c, inner);
    reply.status = Status(0x9000);
}

/// Makes the reply one of 9000 with a value under a tag in 7C.
#[tactic(auto, unfolding(eid_model::specs::Bodies::authentication_data))]
pub fn put_data(tag: u16, value: &[u8], reply: &mut Reply)
    requires tag { IsTrue (is_tag tag) }
    requires size { length value.now ≤ 100 }
    ensures plain { plain_reply reply.new ≡ data_alone (authentication_data tag value.now) }
    ensures small { array_vec_len reply.new.content ≤ 2048 }
{
    let mut inner = ArrayVec::<u8, 128>::new();
    append(&mut inner, tag, value);
    put_in_data(inner.as_slice(), reply);
}
