//! The bodies of commands (BSI TR-03110-3).
ghost use Rattle.std.specs.Prelude.{◌≡◌, ◌+◌, ◌≤◌, ◌++◌, length, IsTrue};
ghost use Rattle.arrayvec.specs.ArrayVec.{array_vec_len};
ghost use Rattle.eid_tlv.specs.Objects.{is_tag, object};
ghost use Rattle.eid_terminal.specs.Commands.{announcement, authentication_data, auxiliary, compared, key_selection, no_data, pace_selection, protocol_selection, reference_of, verification, whole_auxiliary};
ghost use Rattle.eid_bits.specs.Template.{template_bytes};
ghost use Rattle.eid_cvc.specs.Templates.{template_value};
ghost use Rattle.std.specs.Prelude.{[], option_map, Some};
ghost use Rattle.eid_bits.specs.Dates.{date_text};
ghost use Rattle.eid_terminal.specs.Plans.{plan_view};
ghost use Rattle.eid_terminal.specs.View.{terms_view};

use crate::plan::Plan;
use crate::state::Terms;
use arrayvec::ArrayVec;
use eid_bits::{Date8, Known, Template};
use eid_record::Password;
use eid_tlv::put;

/// The room for a body of data objects.
pub const MAX_BODY: usize = 256;

/// A body of data objects.
pub type Body = ArrayVec<u8, MAX_BODY>;

/// The identifier of a protocol.
const PROTOCOL: u16 = 0x80;
/// A reference.
const REFERENCE: u16 = 0x83;
/// The holder's template.
const TEMPLATE: u16 = 0x7F4C;
/// An object identifier.
const OBJECT_IDENTIFIER: u16 = 0x06;
/// Discretionary data.
const DISCRETIONARY: u16 = 0x53;
/// The X half of the terminal's ephemeral key.
const EPHEMERAL: u16 = 0x91;
/// Auxiliary data.
const AUXILIARY: u16 = 0x67;
/// An entry of auxiliary data.
const ENTRY: u16 = 0x73;
/// Dynamic authentication data.
const DATA: u16 = 0x7C;

/// Dynamic authentication data without a value.
#[tactic(auto, unfolding(crate::specs::Commands::no_data, eid_tlv::specs::Objects::object, eid_tlv::specs::Objects::tag_bytes, eid_tlv::specs::Objects::length_bytes))]
pub fn no_data() -> [u8; 2]
    ensures { result ≡ no_data }
{
    [0x7C, 0x00]
}

/// Appends an object for which there is room.
#[tactic(auto, using(eid_cvc::proofs::Sizes::object_fits, eid_cvc::proofs::Sizes::appended_size))]
fn append(out: &mut Body, tag: u16, value: &[u8])
    requires tag { IsTrue (is_tag tag) }
    requires room { array_vec_len out.old + length value.now + 5 ≤ MAX_BODY }
    ensures items { out.new.items ≡ out.old.items ++ object tag value.now }
    ensures size { array_vec_len out.new ≤ array_vec_len out.old + length value.now + 5 }
{
    put(out, tag, value).unwrap();
}

/// Dynamic authentication data with a value of at most 200 bytes under the tag.
#[tactic(auto, unfolding(crate::specs::Commands::authentication_data))]
pub fn authentication_data(tag: u16, value: &[u8]) -> Body
    requires tag { IsTrue (is_tag tag) }
    requires size { length value.now ≤ 200 }
    ensures { result.items ≡ authentication_data tag value.now }
{
    let mut inner = ArrayVec::new();
    append(&mut inner, tag, value);
    let mut body = ArrayVec::new();
    append(&mut body, DATA, &inner);
    body
}

/// The reference of a password (BSI TR-03110-3).
fn reference_of(password: Password) -> u8
    ensures { result ≡ reference_of password }
{
    match password {
        Password::Can => 2,
        Password::Pin => 3,
        Password::Puk => 4,
    }
}

/// The value of an object 7F4C: the type of a template for authentication terminals, and the template.
#[tactic(auto, unfolding(eid_cvc::specs::Templates::template_value))]
fn template_value(template: &Template) -> Body
    ensures value { result.items ≡ template_value (template_bytes template.now) }
    ensures size { array_vec_len result ≤ 32 }
{
    let mut value = ArrayVec::new();
    append(&mut value, OBJECT_IDENTIFIER, Known::AtTemplate.bytes());
    append(&mut value, DISCRETIONARY, template.as_bytes());
    value
}

/// The body that selects PACE: the protocol, the password, and the template where there is one.
#[tactic(auto, unfolding(crate::specs::Commands::pace_selection))]
pub fn pace_selection(terms: &Terms) -> Body
    ensures { result.items ≡ pace_selection (terms_view terms.now) }
{
    let mut body = ArrayVec::new();
    append(&mut body, PROTOCOL, Known::PaceAes128.bytes());
    append(&mut body, REFERENCE, &[reference_of(terms.password)]);
    if let Some(template) = &terms.template {
        append(&mut body, TEMPLATE, &template_value(template));
    }
    body
}

/// The body that selects a public key by a name of at most 200 bytes.
#[tactic(auto, unfolding(crate::specs::Commands::key_selection))]
pub fn key_selection(name: &[u8]) -> Body
    requires { length name.now ≤ 200 }
    ensures { result.items ≡ key_selection name.now }
{
    let mut body = ArrayVec::new();
    append(&mut body, REFERENCE, name);
    body
}

/// The body that selects a protocol.
#[tactic(auto, using(crate::proofs::Sizes::short_identifier), unfolding(crate::specs::Commands::protocol_selection))]
pub fn protocol_selection(protocol: Known) -> Body
    ensures { result.items ≡ protocol_selection protocol }
{
    let mut body = ArrayVec::new();
    append(&mut body, PROTOCOL, protocol.bytes());
    body
}

/// The body that names auxiliary data.
#[tactic(auto, using(crate::proofs::Sizes::short_identifier), unfolding(crate::specs::Commands::verification))]
pub fn verification(identifier: Known) -> Body
    ensures { result.items ≡ verification identifier }
{
    let mut body = ArrayVec::new();
    append(&mut body, OBJECT_IDENTIFIER, identifier.bytes());
    body
}

/// Appends an object 73 with what is compared under this identifier, at most 16 bytes.
#[tactic(auto, using(crate::proofs::Sizes::short_identifier))]
fn append_entry(out: &mut Body, identifier: Known, value: &[u8])
    requires size { length value.now ≤ 16 }
    requires room { array_vec_len out.old + 41 ≤ MAX_BODY }
    ensures items { out.new.items ≡ out.old.items ++ compared identifier (Some value.now) }
    ensures size { array_vec_len out.new ≤ array_vec_len out.old + 41 }
{
    let mut entry = ArrayVec::new();
    append(&mut entry, OBJECT_IDENTIFIER, identifier.bytes());
    append(&mut entry, DISCRETIONARY, value);
    append(out, ENTRY, &entry);
}

/// Appends the entry of a date, where there is one.
fn append_date(out: &mut Body, identifier: Known, date: &Option<Date8>)
    requires { array_vec_len out.old + 41 ≤ MAX_BODY }
    ensures items { out.new.items ≡ out.old.items ++ compared identifier (option_map date_text date.now) }
    ensures size { array_vec_len out.new ≤ array_vec_len out.old + 41 }
{
    if let Some(date) = date {
        append_entry(out, identifier, date.as_bytes());
    }
}

/// Appends the entry of a community, where there is one.
fn append_community(out: &mut Body, community: &Option<ArrayVec<u8, 16>>)
    requires { array_vec_len out.old + 41 ≤ MAX_BODY }
    ensures items { out.new.items ≡ out.old.items ++ compared Known.Community (option_map (λ c. c.items) community.now) }
    ensures size { array_vec_len out.new ≤ array_vec_len out.old + 41 }
{
    if let Some(community) = community {
        append_entry(out, Known::Community, community);
    }
}

/// The object 67 with what is to be compared, or nothing where there is nothing.
#[tactic(auto, unfolding(crate::specs::Commands::auxiliary))]
pub fn auxiliary(plan: &Plan) -> Body
    ensures items { result.items ≡ auxiliary (plan_view plan.now) }
    ensures size { array_vec_len result ≤ 128 }
{
    let mut entries = ArrayVec::new();
    append_date(&mut entries, Known::Birth, &plan.age);
    append_date(&mut entries, Known::Expiry, &plan.validity);
    append_community(&mut entries, &plan.community);
    whole_auxiliary(&entries)
}

/// The object 67 with these entries, or nothing where there are none.
fn whole_auxiliary(entries: &[u8]) -> Body
    requires { length entries.now ≤ 123 }
    ensures items { result.items ≡ whole_auxiliary entries.now }
    ensures size { array_vec_len result ≤ 128 }
{
    let mut body = ArrayVec::new();
    if !entries.is_empty() {
        append(&mut body, AUXILIARY, entries);
    }
    body
}

/// The body that announces a terminal of this name, with the X half of its ephemeral key, and auxiliary data or nothing.
#[tactic(auto, unfolding(crate::specs::Commands::announcement))]
pub fn announcement(name: &[u8], key_x: &[u8; 32], auxiliary: &[u8]) -> Body
    requires name { length name.now ≤ 16 }
    requires auxiliary { length auxiliary.now ≤ 128 }
    ensures { result.items ≡ announcement name.now key_x.now auxiliary.now }
{
    let mut body = ArrayVec::new();
    append(&mut body, PROTOCOL, Known::TaSha256.bytes());
    append(&mut body, REFERENCE, name);
    append(&mut body, EPHEMERAL, key_x);
    body.try_extend_from_slice(auxiliary).unwrap();
    body
}
