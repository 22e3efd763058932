//! Lists of data objects.
ghost use Rattle.std.specs.Prelude.{◌≡◌, ◌↔◌, ℕ, Some, List, [], ◌∷◌, ◌++◌, IfSome, IsSomeAnd};
ghost use Rattle.eid_tlv.specs.Objects.{Object};
ghost use Rattle.eid_tlv.specs.ListIn.{list_in};
ghost use Rattle.eid_tlv.specs.Lists.{IsFound, IsAmong, IsListOf, HasOnly};

use crate::reading::next;

/// What bytes have of a tag.
#[derive(Clone, Copy)]
pub enum Found<'a> {
    /// They are no list of objects.
    NoList,
    /// They are a list in which no object has the tag.
    Absent,
    /// They are a list in which one object has the tag, with this value.
    Once(&'a [u8]),
    /// They are a list in which more than one object has the tag.
    Repeated,
}

/// What is found where one more object with the tag stands behind those found before.
fn one_more<'a>(found: Found<'a>, value: &'a [u8]) -> Found<'a>
    ensures { (those : List (List ℕ)) → IsAmong those found.entry → IsAmong (those ++ value.now ∷ []) result }
{
    match found {
        Found::NoList => Found::NoList,
        Found::Absent => Found::Once(value),
        Found::Once(_) | Found::Repeated => Found::Repeated,
    }
}

/// Looks for a tag in a list of data objects (ISO/IEC 7816-4). No bytes at all are the empty list.
pub fn find(bytes: &[u8], tag: u16) -> Found<'_>
    ensures { IsFound tag bytes.now result }
{
    let mut rest = bytes;
    let mut found = Found::Absent;
    while !rest.is_empty() {
        let Ok((object, after)) = next(rest) else {
            return Found::NoList;
        };
        if object.tag == tag {
            found = one_more(found, object.value);
        }
        rest = after;
    }
    found
}

/// The value that stands with the tag, where the bytes are a list of data objects (ISO/IEC 7816-4) and exactly
/// one of them has it.
pub fn only_value(bytes: &[u8], tag: u16) -> Option<&[u8]>
    ensures found { IfSome result (λ value. HasOnly tag value.now bytes.now) }
    ensures only { (value : List ℕ) → HasOnly tag value bytes.now → IsSomeAnd result (λ found. found.now ≡ value) }
{
    match find(bytes, tag) {
        Found::Once(value) => Some(value),
        _ => None,
    }
}

/// In a list of data objects a tag has at most one value as its only one.
pub fn law_one_value()
    ensures { (tag : ℕ) (bytes v w : List ℕ) → HasOnly tag v bytes → HasOnly tag w bytes → v ≡ w }
{}

/// Bytes are at most one list of data objects.
pub fn law_one_list()
    ensures { (bytes : List ℕ) (a b : List Object) → IsListOf a bytes → IsListOf b bytes → a ≡ b }
{}

/// The definition of the list that bytes are, as a function, gives exactly that list.
pub fn law_list_in()
    ensures { (bytes : List ℕ) (list : List Object) → list_in bytes ≡ Some list ↔ IsListOf list bytes }
{}
