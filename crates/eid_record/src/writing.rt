ghost use Rattle.std.specs.Prelude.{◌≡◌, ◌+◌, ◌^◌, ◌<◌, ◌≤◌, ◌∷◌, [], length, Some, Ok};
ghost use Rattle.std.specs.List.{flat_map};
ghost use Rattle.std.specs.Option.{option_map};
ghost use Rattle.eid_record.specs.Layout.{replaced, laid, ◌at◌, flag, length_bytes, trust_point_pieces, value_pieces, fixed_bytes};
ghost use Rattle.eid_record.specs.Reading.{record_in};
ghost use Rattle.eid_record.specs.Valid.{IsTrustPoint, IsValid};
ghost use Rattle.eid_record.specs.View.{trust_point_view, record_view};

use crate::fields::{Record, TrustPoint};
use crate::layout::*;

/// Puts these bytes at this place.
fn put(fixed: &mut [u8; FIXED], place: u16, bytes: &[u8])
    requires { place + length bytes.now ≤ 448 }
    ensures { fixed.new ≡ replaced place bytes.now fixed.old }
{
    let from = usize::from(place);
    fixed[from..from + bytes.len()].copy_from_slice(bytes);
}

/// Puts a trust point at this place.
fn put_trust_point(fixed: &mut [u8; FIXED], place: u16, point: &TrustPoint)
    requires within { place + 128 ≤ 448 }
    ensures { fixed.new ≡ laid (trust_point_pieces place (Some (trust_point_view point.now))) fixed.old }
{
    put(fixed, place, &[point.name.len() as u8]);
    put(fixed, place + NAME, &point.name);
    put(fixed, place + TEMPLATE, point.template.as_bytes());
    put(fixed, place + KEY, &point.key);
    put(fixed, place + PRESENT, &[1]);
}

fn length_bytes(length: Option<u16>) -> [u8; 2]
    ensures { result ≡ length_bytes length }
{
    match length {
        None => ABSENT.to_be_bytes(),
        Some(length) => length.to_be_bytes(),
    }
}

/// Puts the lengths of the files, two bytes each.
fn put_lengths(fixed: &mut [u8; FIXED], lengths: &[Option<u16>; FILES])
    ensures { fixed.new ≡ replaced 384 (flat_map length_bytes lengths.now) fixed.old }
{
    let mut place = LENGTHS;
    for length in lengths {
        put(fixed, place, &length_bytes(*length));
        place += 2;
    }
}

/// Puts a trust point at this place, and nothing where there is none.
fn put_optional_point(fixed: &mut [u8; FIXED], place: u16, point: &Option<TrustPoint>)
    requires { place + 128 ≤ 448 }
    ensures { fixed.new ≡ laid (trust_point_pieces place (option_map trust_point_view point.now)) fixed.old }
{
    if let Some(point) = point {
        put_trust_point(fixed, place, point);
    }
}

/// Puts the values that stand before the trust points.
fn put_values(fixed: &mut [u8; FIXED], kept: &Record)
    ensures pieces { fixed.new ≡ laid (value_pieces (record_view kept.now)) fixed.old }
    // What the type of the number says, for a caller that does not read it.
    ensures number { kept.now.number < 2 ^ 32 }
{
    put(fixed, NUMBER, &kept.number.to_be_bytes());
    put(fixed, TRIES, &[kept.tries]);
    put(fixed, UNBLOCKS, &[kept.unblocks]);
    put(fixed, ACTIVE, &[flag(kept.active)]);
    put(fixed, PIN, &kept.pin);
    put(fixed, CAN, &kept.can);
    put(fixed, PUK, &kept.puk);
    put(fixed, DATE, kept.date.as_bytes());
}

fn flag(set: bool) -> u8
    ensures { result ≡ flag set }
{
    if set { 1 } else { 0 }
}

/// Writes the fixed bytes of a record: each field at its place, an absent trust point as 00 throughout, and 00
/// at each place that no field has. `read_record` reads them as the same record.
#[tactic(auto, unfolding(crate::specs::Layout::fixed_bytes))]
pub fn write_record(kept: &Record, fixed: &mut [u8; FIXED])
    requires { IsValid (record_view kept.now) }
    ensures bytes { fixed.new ≡ fixed_bytes (record_view kept.now) }
    ensures again { record_in fixed.new ≡ Ok (record_view kept.now) }
{
    *fixed = [0; FIXED];
    put_values(fixed, kept);
    put_trust_point(fixed, CURRENT, &kept.current);
    put_optional_point(fixed, PREVIOUS, &kept.previous);
    put(fixed, CA_SECRET, &kept.ca_secret);
    put(fixed, RI_SECRET, &kept.ri_secret);
    put_lengths(fixed, &kept.lengths);
}
