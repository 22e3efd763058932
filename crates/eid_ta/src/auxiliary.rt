//! Auxiliary data of terminal authentication (BSI TR-03110-3).
ghost use Rattle.std.specs.Prelude.{◌≡◌, option_map};
ghost use Rattle.eid_bits.specs.Date.{is_long_date};
ghost use Rattle.eid_bits.specs.Dates.{date_text};
ghost use Rattle.eid_cvc.specs.Chains.{aux_view, no_aux};
ghost use Rattle.eid_ta.specs.AuxiliaryIn.{auxiliary_in, entry_in, is_community, new_value, with_birth, with_community, with_entry, with_expiry};
ghost use Rattle.eid_ta.specs.View.{entry_view};

use arrayvec::ArrayVec;
use eid_bits::{Date8, Known};
use eid_cvc::{Aux, front};

const ENTRY: u16 = 0x73;

const IDENTIFIER: u16 = 0x06;

const COMPARED: u16 = 0x53;

/// So many entries stand in auxiliary data at most.
const MAX_ENTRIES: usize = 3;

/// An entry: its identifier, and what is to be compared.
#[derive(Clone, Copy)]
struct Entry<'a> {
    identifier: &'a [u8],
    value: &'a [u8],
}

/// No auxiliary data.
pub(crate) fn no_aux() -> Aux
    ensures { aux_view result ≡ no_aux }
{
    Aux {
        birth: None,
        expiry: None,
        community: None,
    }
}

/// The auxiliary data that the value of an object 67 is: one to three entries.
pub(crate) fn read_auxiliary(value: &[u8]) -> Option<Aux>
    ensures { option_map aux_view result ≡ auxiliary_in value.now }
{
    if value.is_empty() {
        return None;
    }
    let mut rest = value;
    let mut aux = no_aux();
    let mut left = MAX_ENTRIES;
    while !rest.is_empty() {
        if left == 0 {
            return None;
        }
        let Some(object) = front(rest, ENTRY) else {
            return None;
        };
        let Some(entry) = read_entry(object.value) else {
            return None;
        };
        let Some(more) = with_entry(aux, entry) else {
            return None;
        };
        aux = more;
        rest = object.rest;
        left -= 1;
    }
    Some(aux)
}

/// The entry in the value of a 73: two objects, and nothing behind them.
#[tactic(auto, unfolding(crate::specs::AuxiliaryIn::entry_in))]
fn read_entry(bytes: &[u8]) -> Option<Entry<'_>>
    ensures { option_map entry_view result ≡ entry_in bytes.now }
{
    let Some(identifier) = front(bytes, IDENTIFIER) else {
        return None;
    };
    let Some(compared) = front(identifier.rest, COMPARED) else {
        return None;
    };
    if !compared.rest.is_empty() {
        return None;
    }
    Some(Entry {
        identifier: identifier.value,
        value: compared.value,
    })
}

/// The data with one entry more. `None` comes where its identifier is known and stood there before, or where its
/// value is none of that identifier; an entry with another identifier is passed over.
fn with_entry(aux: Aux, entry: Entry<'_>) -> Option<Aux>
    ensures { option_map aux_view result ≡ with_entry (aux_view aux) (entry_view entry.entry) }
{
    if entry.identifier == Known::Birth.bytes() {
        with_birth(aux, entry.value)
    } else if entry.identifier == Known::Expiry.bytes() {
        with_expiry(aux, entry.value)
    } else if entry.identifier == Known::Community.bytes() {
        with_community(aux, entry.value)
    } else {
        Some(aux)
    }
}

/// The data with this date of birth; `None` comes where there was one before, or the value is no date.
#[tactic(auto, unfolding(crate::specs::AuxiliaryIn::with_birth))]
fn with_birth(aux: Aux, value: &[u8]) -> Option<Aux>
    ensures { option_map aux_view result ≡ with_birth (aux_view aux) value.now }
{
    let Some(birth) = new_date(aux.birth, value) else {
        return None;
    };
    Some(Aux {
        birth: Some(birth),
        expiry: aux.expiry,
        community: aux.community,
    })
}

/// The data with this expiry; `None` comes where there was one before, or the value is no date.
#[tactic(auto, unfolding(crate::specs::AuxiliaryIn::with_expiry))]
fn with_expiry(aux: Aux, value: &[u8]) -> Option<Aux>
    ensures { option_map aux_view result ≡ with_expiry (aux_view aux) value.now }
{
    let Some(expiry) = new_date(aux.expiry, value) else {
        return None;
    };
    Some(Aux {
        birth: aux.birth,
        expiry: Some(expiry),
        community: aux.community,
    })
}

/// The data with this community; `None` comes where there was one before, or the value has not 1 to 16 bytes.
#[tactic(auto, unfolding(crate::specs::AuxiliaryIn::with_community))]
fn with_community(aux: Aux, value: &[u8]) -> Option<Aux>
    ensures { option_map aux_view result ≡ with_community (aux_view aux) value.now }
{
    if aux.community.is_some() {
        return None;
    }
    let Some(community) = read_community(value) else {
        return None;
    };
    Some(Aux {
        birth: aux.birth,
        expiry: aux.expiry,
        community: Some(community),
    })
}

/// A date of eight digits, where there was none before.
fn new_date(earlier: Option<Date8>, value: &[u8]) -> Option<Date8>
    ensures { option_map date_text result ≡ new_value is_long_date (option_map date_text earlier) value.now }
{
    if earlier.is_some() {
        return None;
    }
    match Date8::from_bytes(value) {
        Ok(date) => Some(date),
        Err(_) => None,
    }
}

/// A community of 1 to 16 bytes.
fn read_community(value: &[u8]) -> Option<ArrayVec<u8, 16>>
    ensures { option_map (λ c. c.items) result ≡ new_value is_community None value.now }
{
    if !matches!(value.len(), 1..=16) {
        return None;
    }
    let mut community = ArrayVec::new();
    community.try_extend_from_slice(value).unwrap();
    Some(community)
}
