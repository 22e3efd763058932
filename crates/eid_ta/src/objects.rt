//! Data objects of a body (ISO/IEC 7816-4), which may stand in any order.
ghost use Rattle.std.specs.Prelude.{◌≡◌, option_map};
ghost use Rattle.std.specs.Option.{option_copied};
ghost use Rattle.eid_ta.specs.Objects.{only_in, optional_in};

use eid_tlv::{Found, find};

/// The value of the one object with the tag, in a list of objects.
pub(crate) fn only(bytes: &[u8], tag: u16) -> Option<&[u8]>
    ensures { option_copied result ≡ only_in tag bytes.now }
{
    match find(bytes, tag) {
        Found::Once(value) => Some(value),
        _ => None,
    }
}

/// The value of the one object with the tag, or that there is none, in a list of objects.
pub(crate) fn optional(bytes: &[u8], tag: u16) -> Option<Option<&[u8]>>
    ensures { option_map option_copied result ≡ optional_in tag bytes.now }
{
    match find(bytes, tag) {
        Found::Absent => Some(None),
        Found::Once(value) => Some(Some(value)),
        _ => None,
    }
}
