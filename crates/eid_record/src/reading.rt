ghost use Rattle.std.specs.Prelude.{◌≡◌, ◌+◌, ◌<◌, ◌≤◌, IsTrue, IfOk, slice_index};
ghost use Rattle.std.specs.Char.{is_ascii_digit};
ghost use Rattle.eid_record.specs.Layout.{file_count, lengths_place};
ghost use Rattle.eid_record.specs.Reading.{Reads, bytes_from, at_most, digits_at, date_at, is_trust_point_at, trust_point_at, optional_point_at, size, length_at, lengths_from, counters_in, passwords_in, record_in};
ghost use Rattle.eid_record.specs.Valid.{IsValid};
ghost use Rattle.eid_record.specs.View.{trust_point_view, record_view};
ghost use Rattle.std.specs.List.{list_all};
ghost use Rattle.std.specs.Option.{option_map};
ghost use Rattle.std.specs.Int.{w16, from_be_bytes};
ghost use Rattle.eid_bits.specs.Dates.{date_digits};
ghost use Rattle.eid_bits.specs.Template.{template_bytes};

use crate::fields::{Record, TrustPoint, size_of};
use crate::layout::*;
use arrayvec::ArrayVec;
use eid_bits::{Date6, Template};

/// A field of the fixed bytes has a value that no record has.
#[derive(Clone, Copy)]
pub struct BadRecord {
    /// The place of the field's first byte; of several refused fields it is the lowest.
    pub place: u16,
}

/// The N bytes from this place on.
fn bytes_at<const N: usize>(fixed: &[u8; FIXED], place: u16) -> [u8; N]
    requires { place + N ≤ 448 }
    ensures { result ≡ bytes_from N place fixed.now }
{
    let from = usize::from(place);
    let mut bytes = [0; N];
    bytes.copy_from_slice(&fixed[from..from + N]);
    bytes
}

#[tactic(auto, unfolding(crate::specs::Reading::at_most))]
fn at_most(fixed: &[u8; FIXED], place: u16, most: u8) -> Result<u8, BadRecord>
    requires { place < 448 }
    ensures { Reads (λ n. n) result (at_most most place fixed.now) }
{
    let number = fixed[usize::from(place)];
    if number > most {
        return Err(BadRecord { place });
    }
    Ok(number)
}

/// Whether each byte is an ASCII digit.
pub fn are_digits(bytes: &[u8]) -> bool
    ensures { result ≡ list_all is_ascii_digit bytes.now }
{
    bytes.iter().all(|byte| byte.is_ascii_digit())
}

#[tactic(auto, unfolding(crate::specs::Reading::digits_at))]
fn digits_at<const N: usize>(fixed: &[u8; FIXED], place: u16) -> Result<[u8; N], BadRecord>
    requires { place + N ≤ 448 }
    ensures { Reads (λ bytes. bytes) result (digits_at N place fixed.now) }
{
    let bytes = bytes_at::<N>(fixed, place);
    if !are_digits(&bytes) {
        return Err(BadRecord { place });
    }
    Ok(bytes)
}

#[tactic(auto, unfolding(crate::specs::Reading::date_at))]
fn date_at(fixed: &[u8; FIXED], place: u16) -> Result<Date6, BadRecord>
    requires { place + 6 ≤ 448 }
    ensures { Reads date_digits result (date_at place fixed.now) }
{
    let bytes = bytes_at::<6>(fixed, place);
    match Date6::from_bytes(&bytes) {
        Ok(date) => Ok(date),
        Err(_) => Err(BadRecord { place }),
    }
}

/// Whether a valid trust point stands at this place.
fn is_trust_point(fixed: &[u8; FIXED], place: u16) -> bool
    requires { place + 128 ≤ 448 }
    ensures { result ≡ is_trust_point_at place fixed.now }
{
    let from = usize::from(place);
    fixed[from + usize::from(PRESENT)] == 1
        && matches!(fixed[from], 1..=16)
        && fixed[from + usize::from(KEY)] == 4
}

#[tactic(auto, unfolding(crate::specs::Reading::trust_point_at))]
fn trust_point_at(fixed: &[u8; FIXED], place: u16) -> Result<TrustPoint, BadRecord>
    requires { place + 128 ≤ 448 }
    ensures { Reads trust_point_view result (trust_point_at place fixed.now) }
{
    if !is_trust_point(fixed, place) {
        return Err(BadRecord { place });
    }
    Ok(TrustPoint {
        name: name_at(fixed, place),
        template: template_at(fixed, place + TEMPLATE),
        key: bytes_at(fixed, place + KEY),
    })
}

/// The name of the trust point at this place, whose first byte is the name's length.
fn name_at(fixed: &[u8; FIXED], place: u16) -> ArrayVec<u8, 16>
    requires within { place + 128 ≤ 448 }
    requires fits { slice_index fixed.now place ≤ 16 }
    ensures { result.items ≡ bytes_from (slice_index fixed.now place) (place + 1) fixed.now }
{
    let length = usize::from(fixed[usize::from(place)]);
    let from = usize::from(place + NAME);
    let mut name = ArrayVec::new();
    let _ = name.try_extend_from_slice(&fixed[from..from + length]);
    name
}

fn template_at(fixed: &[u8; FIXED], place: u16) -> Template
    requires { place + 5 ≤ 448 }
    ensures { template_bytes result ≡ bytes_from 5 place fixed.now }
{
    let bytes = bytes_at::<5>(fixed, place);
    Template::from_bytes(&bytes).unwrap()
}

#[tactic(auto, unfolding(crate::specs::Reading::optional_point_at))]
fn optional_point_at(fixed: &[u8; FIXED], place: u16) -> Result<Option<TrustPoint>, BadRecord>
    requires { place + 128 ≤ 448 }
    ensures { Reads (option_map trust_point_view) result (optional_point_at place fixed.now) }
{
    if fixed[usize::from(place + PRESENT)] == 0 {
        return Ok(None);
    }
    let point = trust_point_at(fixed, place)?;
    Ok(Some(point))
}

#[tactic(auto, unfolding(crate::specs::Reading::length_at))]
fn length_at(fixed: &[u8; FIXED], place: u16, sum: u32) -> Result<Option<u16>, BadRecord>
    requires within { place + 2 ≤ 448 }
    requires sum { sum ≤ 24000 }
    ensures sum { IfOk result (λ n. sum + size n ≤ 24000) }
    ensures reads { Reads (λ n. n) result (length_at place sum (from_be_bytes w16 (bytes_from 2 place fixed.now))) }
{
    let length = u16::from_be_bytes(bytes_at(fixed, place));
    if length == ABSENT {
        return Ok(None);
    }
    if length > MAX_FILE || sum + u32::from(length) > MAX_FILES {
        return Err(BadRecord { place });
    }
    Ok(Some(length))
}

fn lengths(fixed: &[u8; FIXED]) -> Result<[Option<u16>; FILES], BadRecord>
    ensures { Reads (λ x. x) result (lengths_from file_count lengths_place 0 fixed.now) }
{
    let mut lengths = [None; FILES];
    let mut place = LENGTHS;
    let mut sum = 0;
    for i in 0..FILES {
        let length = length_at(fixed, place, sum)?;
        lengths[i] = length;
        sum += size_of(length);
        place += 2;
    }
    Ok(lengths)
}

#[tactic(auto, unfolding(crate::specs::Reading::counters_in))]
fn counters(fixed: &[u8; FIXED]) -> Result<(u8, u8, bool), BadRecord>
    ensures { Reads (λ x. x) result (counters_in fixed.now) }
{
    let tries = at_most(fixed, TRIES, 3)?;
    let unblocks = at_most(fixed, UNBLOCKS, 10)?;
    let active = at_most(fixed, ACTIVE, 1)?;
    Ok((tries, unblocks, active == 1))
}

#[tactic(auto, unfolding(crate::specs::Reading::passwords_in))]
fn passwords(fixed: &[u8; FIXED]) -> Result<([u8; 6], [u8; 6], [u8; 10]), BadRecord>
    ensures { Reads (λ x. x) result (passwords_in fixed.now) }
{
    let pin = digits_at(fixed, PIN)?;
    let can = digits_at(fixed, CAN)?;
    let puk = digits_at(fixed, PUK)?;
    Ok((pin, can, puk))
}

/// The record that the fixed bytes spell. `BadRecord` comes exactly where a field has a value that no record has,
/// and names the lowest such field.
pub fn read_record(fixed: &[u8; FIXED]) -> Result<Record, BadRecord>
    ensures exact { Reads record_view result (record_in fixed.now) }
    ensures valid { IfOk result (λ r. IsValid (record_view r)) }
{
    fields(fixed)
}

#[tactic(auto, unfolding(crate::specs::Reading::record_in))]
fn fields(fixed: &[u8; FIXED]) -> Result<Record, BadRecord>
    ensures { Reads record_view result (record_in fixed.now) }
{
    let (tries, unblocks, active) = counters(fixed)?;
    let (pin, can, puk) = passwords(fixed)?;
    let date = date_at(fixed, DATE)?;
    let current = trust_point_at(fixed, CURRENT)?;
    let previous = optional_point_at(fixed, PREVIOUS)?;
    let lengths = lengths(fixed)?;
    Ok(Record {
        number: u32::from_be_bytes(bytes_at(fixed, NUMBER)),
        tries,
        unblocks,
        active,
        pin,
        can,
        puk,
        date,
        current,
        previous,
        ca_secret: bytes_at(fixed, CA_SECRET),
        ri_secret: bytes_at(fixed, RI_SECRET),
        lengths,
    })
}
