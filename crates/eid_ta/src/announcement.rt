//! The body that announces terminal authentication (BSI TR-03110-3, MSE:Set AT).
ghost use Rattle.std.specs.Prelude.{◌≡◌, ◌↔◌, ℕ, List, Some, option_map};
ghost use Rattle.std.specs.Option.{option_copied};
ghost use Rattle.eid_cvc.specs.Chains.{aux_view};
ghost use Rattle.eid_ta.specs.AnnouncementIn.{announcement_in, auxiliary_if_any, key_in, reference_in};
ghost use Rattle.eid_ta.specs.Announcements.{IsAnnouncement};
ghost use Rattle.eid_ta.specs.Announcing.{of_form};
ghost use Rattle.eid_ta.specs.States.{PlainAnnouncement};
ghost use Rattle.eid_ta.specs.View.{announcement_view, read};

use crate::auxiliary::{no_aux, read_auxiliary};
use crate::objects::{only, optional};
use crate::rules::BODY_FORM;
use eid_base::Rule;
use eid_bits::Known;
use eid_cvc::Aux;

const PROTOCOL: u16 = 0x80;

const REFERENCE: u16 = 0x83;

const KEY_X: u16 = 0x91;

pub(crate) const AUXILIARY: u16 = 0x67;

/// What a terminal announces.
#[derive(Drop)]
pub struct Announcement<'a> {
    /// The name of the terminal, 1 to 16 bytes.
    pub reference: &'a [u8],
    /// The X half of the terminal's ephemeral key.
    pub key_x: [u8; 32],
    /// The value of the object 67, where there is one.
    pub sent: Option<&'a [u8]>,
    /// The auxiliary data in that object.
    pub aux: Aux,
}

/// The announcement that the body is: data objects, among them 80 with id-TA-ECDSA-SHA-256, 83 with the terminal's
/// name of 1 to 16 bytes, 91 with the X half of its ephemeral key in 32 bytes, and at most one 67, in any order; other
/// tags are passed over.
///
/// A 67 holds one to three entries, each an object 73 with an identifier in 06 and a value in 53. Date of birth and of
/// expiry are dates of eight digits, a community has 1 to 16 bytes, and each of them stands there at most once. Entries
/// with other identifiers are passed over.
///
/// # Errors
/// Rule 10 exactly where the body is no announcement.
pub fn read_announcement(body: &[u8]) -> Result<Announcement<'_>, Rule>
    ensures { read result ≡ of_form (announcement_in body.now) }
{
    match find_announcement(body) {
        Some(announcement) => Ok(announcement),
        None => Err(BODY_FORM),
    }
}

/// The definition of the announcement that a body is, as a function, gives exactly that announcement.
pub fn law_announcement()
    ensures { (body : List ℕ) (announcement : PlainAnnouncement)
        → announcement_in body ≡ Some announcement ↔ IsAnnouncement body announcement }
{}

#[tactic(auto, unfolding(crate::specs::AnnouncementIn::announcement_in))]
fn find_announcement(body: &[u8]) -> Option<Announcement<'_>>
    ensures { option_map announcement_view result ≡ announcement_in body.now }
{
    let Some(protocol) = only(body, PROTOCOL) else {
        return None;
    };
    let Some(reference) = read_reference(body) else {
        return None;
    };
    let Some(key_x) = read_key(body) else {
        return None;
    };
    let Some(sent) = optional(body, AUXILIARY) else {
        return None;
    };
    let Some(aux) = read_auxiliary_if_any(sent) else {
        return None;
    };
    if protocol != Known::TaSha256.bytes() {
        return None;
    }
    Some(Announcement {
        reference,
        key_x,
        sent,
        aux,
    })
}

/// The terminal's name.
#[tactic(auto, unfolding(crate::specs::AnnouncementIn::reference_in))]
fn read_reference(body: &[u8]) -> Option<&[u8]>
    ensures { option_copied result ≡ reference_in body.now }
{
    let Some(reference) = only(body, REFERENCE) else {
        return None;
    };
    if !matches!(reference.len(), 1..=16) {
        return None;
    }
    Some(reference)
}

/// The X half of the terminal's ephemeral key.
#[tactic(auto, unfolding(crate::specs::AnnouncementIn::key_in))]
fn read_key(body: &[u8]) -> Option<[u8; 32]>
    ensures { result ≡ key_in body.now }
{
    let Some(key) = only(body, KEY_X) else {
        return None;
    };
    <[u8; 32]>::try_from(key).ok()
}

fn read_auxiliary_if_any(value: Option<&[u8]>) -> Option<Aux>
    ensures { option_map aux_view result ≡ auxiliary_if_any (option_copied value.entry) }
{
    match value {
        None => Some(no_aux()),
        Some(value) => read_auxiliary(value),
    }
}
