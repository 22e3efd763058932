//! Questions about data objects.
use crate::words::{Answer, Piece, Unanswered, buffer, line, shown, shown_buffer, word};
use eid_tlv::{Found, Tlv, TlvError, is_tag};
use std::alloc::Global;

/// How many bytes the buffer has that an object is written into.
const ROOM: usize = 65_539;

/// The tag that one byte or two are, or are to be.
fn tag_of(bytes: &[u8]) -> Result<u16, Unanswered> {
    match bytes {
        [low] => Ok(u16::from(*low)),
        [high, low] => Ok(u16::from_be_bytes([*high, *low])),
        _ => Err(Unanswered::Unclear),
    }
}

/// The bytes of a tag.
fn tag_bytes(tag: &[u8; 2]) -> &[u8] {
    if tag[0] == 0 { &tag[1..] } else { tag }
}

/// `object BYTES`: the data object that stands at the front of the bytes and what is behind it, or the
/// defect.
pub fn object(alloc: Global, given: &[Vec<u8>]) -> Answer {
    let [read] = given else {
        return Err(Unanswered::Unclear);
    };
    match eid_tlv::next(read) {
        Ok((object, rest)) => shown_object(alloc, &object, rest),
        Err(TlvError::Short) => word(alloc, "short"),
        Err(TlvError::BadTag) => word(alloc, "bad tag"),
        Err(TlvError::BadLength) => word(alloc, "bad length"),
    }
}

fn shown_object(alloc: Global, object: &Tlv<'_>, rest: &[u8]) -> Answer {
    let tag = object.tag.to_be_bytes();
    object_line(alloc, tag_bytes(&tag), object.value, rest)
}

fn object_line<'a>(alloc: Global, tag: &'a [u8], value: &'a [u8], rest: &'a [u8]) -> Answer {
    line(
        alloc,
        &[
            Piece::Bytes(tag),
            Piece::Text(" value "),
            Piece::Bytes(value),
            Piece::Text(" rest "),
            Piece::Bytes(rest),
        ],
    )
}

/// `put BEFORE TAG VALUE`: what the buffer holds once the data object is written behind BEFORE.
pub fn put(alloc: Global, given: &[Vec<u8>]) -> Answer {
    let [before, tag, value] = given else {
        return Err(Unanswered::Unclear);
    };
    let tag = tag_of(tag)?;
    if !is_tag(tag) || value.len() > 65_535 {
        return Err(Unanswered::Unclear);
    }
    let Some(mut out) = buffer::<ROOM>(before) else {
        return Err(Unanswered::Unclear);
    };
    let fits = eid_tlv::put(&mut out, tag, value).is_ok();
    shown_buffer(alloc, fits, out.as_slice())
}

/// `find TAG BYTES`: what the bytes, as a list of data objects, have of the tag.
pub fn find(alloc: Global, given: &[Vec<u8>]) -> Answer {
    let [tag, list] = given else {
        return Err(Unanswered::Unclear);
    };
    match eid_tlv::find(list, tag_of(tag)?) {
        Found::NoList => word(alloc, "no list"),
        Found::Absent => word(alloc, "absent"),
        Found::Repeated => word(alloc, "repeated"),
        Found::Once(value) => line(alloc, &[Piece::Text("once "), Piece::Bytes(value)]),
    }
}

/// `only TAG BYTES`: the value of the one data object with the tag in the list that the bytes are, or `none`.
pub fn only(alloc: Global, given: &[Vec<u8>]) -> Answer {
    let [tag, list] = given else {
        return Err(Unanswered::Unclear);
    };
    match eid_tlv::only_value(list, tag_of(tag)?) {
        Some(value) => shown(alloc, value),
        None => word(alloc, "none"),
    }
}
