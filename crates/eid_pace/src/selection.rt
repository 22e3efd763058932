//! The body that selects PACE (BSI TR-03110-3, MSE:Set AT).
ghost use Rattle.std.specs.Prelude.{◌≡◌, ℕ, List, [], ◌∷◌, length, Option, Some, IfSome, IsSomeAnd, IsTrue, ◌↔◌, option_map};
ghost use Rattle.eid_bits.specs.Template.{template_bytes};
ghost use Rattle.eid_tlv.specs.Lists.{HasValues};
ghost use Rattle.eid_pace.specs.Protocols.{protocol_bytes};
ghost use Rattle.eid_pace.specs.Selections.{HasTemplate, IsPaceSelection, PlainSelection};
ghost use Rattle.eid_pace.specs.SelectionIn.{selection_in};
ghost use Rattle.eid_pace.specs.View.{selection_view};

use crate::protocol::Protocol;
use eid_bits::Template;
use eid_cvc::read_template;
use eid_tlv::{Found, find, only_value};

const PROTOCOL: u16 = 0x80;

const REFERENCE: u16 = 0x83;

const TEMPLATE: u16 = 0x7F4C;

/// What a selection names: the protocol, a password by its reference, and the holder's template where there is
/// one.
#[derive(Clone, Copy)]
pub struct Selection {
    pub protocol: Protocol,
    pub reference: u8,
    pub template: Option<Template>,
}

/// The selection that the body is, if it is one.
pub fn read_selection(body: &[u8]) -> Option<Selection>
    ensures { option_map selection_view result ≡ selection_in body.now }
{
    let Some(protocol) = read_protocol(body) else {
        return None;
    };
    let Some(reference) = read_reference(body) else {
        return None;
    };
    let Some(template) = find_template(body) else {
        return None;
    };
    Some(Selection {
        protocol,
        reference,
        template,
    })
}

/// The protocol of the one 80.
fn read_protocol(body: &[u8]) -> Option<Protocol>
    ensures found { IfSome result (λ protocol. HasValues 0x80 (protocol_bytes protocol ∷ []) body.now) }
    ensures only { (protocol : Protocol) → HasValues 0x80 (protocol_bytes protocol ∷ []) body.now → result ≡ Some protocol }
{
    let Some(value) = only_value(body, PROTOCOL) else {
        return None;
    };
    Protocol::with_bytes(value)
}

/// The byte of the one 83.
fn read_reference(body: &[u8]) -> Option<u8>
    ensures found { IfSome result (λ reference. HasValues 0x83 ((reference ∷ []) ∷ []) body.now) }
    ensures only { (reference : ℕ) → HasValues 0x83 ((reference ∷ []) ∷ []) body.now → result ≡ Some reference }
{
    let Some(value) = only_value(body, REFERENCE) else {
        return None;
    };
    match value {
        [reference] => Some(*reference),
        _ => None,
    }
}

/// The template of the one 7F4C, or that there is no 7F4C; `None` where another thing stands there.
fn find_template(body: &[u8]) -> Option<Option<Template>>
    ensures found { IfSome result (λ template. HasTemplate body.now (option_map template_bytes template)) }
    ensures only { (template : Option (List ℕ)) → HasTemplate body.now template
        → IsSomeAnd result (λ found. option_map template_bytes found ≡ template) }
{
    match find(body, TEMPLATE) {
        Found::Absent => Some(None),
        Found::Once(value) => match read_template(value) {
            Some(template) => Some(Some(template)),
            None => None,
        },
        _ => None,
    }
}

/// The definition of the selection that a body is, as a function, gives exactly that selection.
pub fn law_selection()
    ensures { (body : List ℕ) (selection : PlainSelection) → selection_in body ≡ Some selection ↔ IsPaceSelection body selection }
{}
