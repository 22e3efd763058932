//! What replies of success hold (BSI TR-03110-3; ISO/IEC 7816-4).
ghost use Rattle.std.specs.Prelude.{◌≡◌, ◌==◌, option_map, is_none, length};
ghost use Rattle.std.specs.Option.{option_copied};
ghost use Rattle.eid_apdu.specs.Answer.{plain_reply};
ghost use Rattle.eid_cvc.specs.CertificateIn.{point_of, reference_in};
ghost use Rattle.eid_cvc.specs.Fronts.{front_view};
ghost use Rattle.eid_terminal.specs.Replies.{challenge_in, data_objects_in, ends_names, is_done, is_pace_selected, point_in, proof_in, sized, success, token_in, value_in, whole_object};
ghost use Rattle.eid_terminal.specs.ReplyView.{proof_view};

use eid_apdu::Reply;
use eid_base::{Point, Status};
use eid_cvc::{AtFront, front};

/// Success.
const SUCCESS: Status = Status(0x9000);
/// A password was chosen, with two tries left.
const TWO_TRIES: Status = Status(0x63C2);
/// A password was chosen, with one try left.
const ONE_TRY: Status = Status(0x63C1);

/// Dynamic authentication data.
const DATA: u16 = 0x7C;
/// The chip's token of PACE.
const CHIP_TOKEN: u16 = 0x86;
/// The name of the chip's current trust point.
const CURRENT_NAME: u16 = 0x87;
/// The name of its previous trust point.
const PREVIOUS_NAME: u16 = 0x88;
/// The chip's nonce in chip authentication.
const NONCE: u16 = 0x81;
/// Its token there.
const TOKEN: u16 = 0x82;
/// What a point begins with whose two coordinates follow (BSI TR-03111).
const UNCOMPRESSED: u8 = 4;

/// Whether a reply is success.
pub fn is_success(reply: &Reply) -> bool
    ensures { result ≡ (reply.now.status.0 == success) }
{
    reply.status.0 == SUCCESS.0
}

/// Whether a reply is success without data.
pub fn is_done(reply: &Reply) -> bool
    ensures { result ≡ is_done (plain_reply reply.now) }
{
    reply.status.0 == SUCCESS.0 && reply.content.is_empty()
}

/// Whether a reply says that a password of PACE was chosen.
pub fn is_pace_selected(reply: &Reply) -> bool
    ensures { result ≡ is_pace_selected (plain_reply reply.now) }
{
    let status = reply.status.0;
    (status == SUCCESS.0 || status == ONE_TRY.0 || status == TWO_TRIES.0)
        && reply.content.is_empty()
}

/// The value of the one object that the bytes are, with this tag.
#[tactic(auto, unfolding(crate::specs::Replies::whole_object))]
fn whole_object(bytes: &[u8], tag: u16) -> Option<&[u8]>
    ensures { option_copied result ≡ whole_object tag bytes.now }
{
    let Some(object) = front(bytes, tag) else {
        return None;
    };
    if !object.rest.is_empty() {
        return None;
    }
    Some(object.value)
}

/// What the object 7C of a success holds.
#[tactic(auto, unfolding(crate::specs::Replies::data_objects_in))]
fn data_objects_in(reply: &Reply) -> Option<&[u8]>
    ensures { option_copied result ≡ data_objects_in (plain_reply reply.now) }
{
    if reply.status.0 != SUCCESS.0 {
        return None;
    }
    whole_object(reply.content.as_slice(), DATA)
}

/// The bytes, where they are so many.
fn sized<const N: usize>(bytes: &[u8]) -> Option<[u8; N]>
    ensures { result ≡ sized N bytes.now }
{
    let Ok(value) = <[u8; N]>::try_from(bytes) else {
        return None;
    };
    Some(value)
}

/// The one value of `N` bytes that a success holds under the tag in its one object 7C (BSI TR-03110-3); none where it
/// is no success, or holds something else.
#[tactic(auto, unfolding(crate::specs::Replies::value_in))]
pub fn value_in<const N: usize>(reply: &Reply, tag: u16) -> Option<[u8; N]>
    ensures { result ≡ value_in tag N (plain_reply reply.now) }
{
    let Some(held) = data_objects_in(reply) else {
        return None;
    };
    let Some(value) = whole_object(held, tag) else {
        return None;
    };
    sized(value)
}

/// The point that these bytes are.
fn point_of(bytes: &[u8]) -> Option<Point>
    ensures { result ≡ point_of bytes.now }
{
    let Ok(point) = Point::try_from(bytes) else {
        return None;
    };
    if point[0] != UNCOMPRESSED {
        return None;
    }
    Some(point)
}

/// The one point that 7C holds under the tag.
#[tactic(auto, unfolding(crate::specs::Replies::point_in))]
pub fn point_in(reply: &Reply, tag: u16) -> Option<Point>
    ensures { result ≡ point_in tag (plain_reply reply.now) }
{
    let Some(held) = data_objects_in(reply) else {
        return None;
    };
    let Some(value) = whole_object(held, tag) else {
        return None;
    };
    point_of(value)
}

/// A name of 1 to 16 bytes in an object with this tag at the front.
#[tactic(auto, unfolding(eid_cvc::specs::CertificateIn::reference_in))]
fn name_in(bytes: &[u8], tag: u16) -> Option<AtFront<'_>>
    ensures { option_map front_view result ≡ reference_in tag bytes.now }
{
    let Some(name) = front(bytes, tag) else {
        return None;
    };
    if !matches!(name.value.len(), 1..=16) {
        return None;
    }
    Some(name)
}

/// Whether nothing stands there, or the name of the previous trust point.
#[tactic(auto, unfolding(crate::specs::Replies::ends_names))]
fn ends_names(bytes: &[u8]) -> bool
    ensures { result ≡ ends_names bytes.now }
{
    if bytes.is_empty() {
        return true;
    }
    match name_in(bytes, PREVIOUS_NAME) {
        Some(name) => name.rest.is_empty(),
        None => false,
    }
}

/// The chip's token in the last reply of PACE, which the names of its trust points follow.
#[tactic(auto, unfolding(crate::specs::Replies::token_in))]
pub fn token_in(reply: &Reply) -> Option<[u8; 8]>
    ensures { result ≡ token_in (plain_reply reply.now) }
{
    let Some(held) = data_objects_in(reply) else {
        return None;
    };
    let Some(token) = front(held, CHIP_TOKEN) else {
        return None;
    };
    let Some(name) = name_in(token.rest, CURRENT_NAME) else {
        return None;
    };
    if !ends_names(name.rest) {
        return None;
    }
    sized(token.value)
}

/// The challenge of terminal authentication.
#[tactic(auto, unfolding(crate::specs::Replies::challenge_in))]
pub fn challenge_in(reply: &Reply) -> Option<[u8; 8]>
    ensures { result ≡ challenge_in (plain_reply reply.now) }
{
    if reply.status.0 != SUCCESS.0 {
        return None;
    }
    sized(reply.content.as_slice())
}

/// What the chip answers in chip authentication.
#[derive(Clone, Copy)]
pub struct Proof {
    /// Its nonce.
    pub nonce: [u8; 8],
    /// Its token.
    pub token: [u8; 8],
}

/// The nonce and the token that the chip answers in chip authentication.
#[tactic(auto, unfolding(crate::specs::Replies::proof_in))]
pub fn proof_in(reply: &Reply) -> Option<Proof>
    ensures { option_map proof_view result ≡ proof_in (plain_reply reply.now) }
{
    let Some(held) = data_objects_in(reply) else {
        return None;
    };
    let Some(first) = front(held, NONCE) else {
        return None;
    };
    let Some(nonce) = sized(first.value) else {
        return None;
    };
    let Some(value) = whole_object(first.rest, TOKEN) else {
        return None;
    };
    let Some(token) = sized(value) else {
        return None;
    };
    Some(Proof { nonce, token })
}
