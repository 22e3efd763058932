//! Bytes read from the front, data object by data object (ISO/IEC 7816-4).
ghost use Rattle.std.specs.Prelude.{◌≡◌, option_map};
ghost use Rattle.eid_cvc.specs.Fronts.{behind, front_in, front_view};

use eid_tlv::{Tlv, next};

/// The value of the object at the front, and the bytes behind the object.
#[derive(Clone, Copy)]
pub struct AtFront<'a> {
    /// The object's value.
    pub value: &'a [u8],
    /// What stands behind the object.
    pub rest: &'a [u8],
}

/// What stands at the front, where it is an object with this tag. `None` comes exactly where none stands there, also
/// where the bytes end before it does.
pub fn front(bytes: &[u8], tag: u16) -> Option<AtFront<'_>>
    ensures { option_map front_view result ≡ front_in tag bytes.now }
{
    let Ok((object, rest)) = next(bytes) else {
        return None;
    };
    let Tlv { tag: found, value } = object;
    if found != tag {
        return None;
    }
    Some(AtFront { value, rest })
}

/// The bytes behind the object at the front, where it has this tag, and else all of them.
pub(crate) fn behind(bytes: &[u8], tag: u16) -> &[u8]
    ensures { result.now ≡ behind tag bytes.now }
{
    match front(bytes, tag) {
        Some(object) => object.rest,
        None => bytes,
    }
}
