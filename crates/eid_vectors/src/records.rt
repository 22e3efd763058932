//! Questions about records, their fixed bytes, and what effects change.
ghost use Rattle.std.specs.Prelude.{IfOk};
ghost use Rattle.std.specs.Option.{ForSome, option_map};
ghost use Rattle.eid_record.specs.Effect.{IsNamed};
ghost use Rattle.eid_record.specs.Valid.{AreDigits, IsValid};
ghost use Rattle.eid_record.specs.View.{record_view, trust_point_view};

use crate::words::{
    Answer, Piece, Unanswered, buffer, bytes, cut, fixed, line, number, one, parts, put_pieces,
    put_word, word,
};
use eid_bits::{Date6, Template};
use eid_record::{Effect, FIXED, Record, TrustPoint, apply, are_digits, read_record, write_record};
use std::alloc::Global;

/// The bytes of a record that a separate writing of the formats made, in pieces as they stand in a question: 3 tries,
/// 10 unblockings, PIN 123456, CAN 654321, PUK 0123456789, one trust point, DECVCAAT00001, and eight files of 50 bytes
/// together.
const IMAGE: &str =
    "00000000+03+0a+01+313233343536+363534333231+30313233343536373839+020600010001+00*29+0d+44454356434141543030303031+00*3+fe1fffff37+04+00*31+23+00*32+01+00*40+00*128+00*31+09+00*31+0b+0002*2+ffff*2+0008+0005+000a+ffff*2+0008+ffff*8+0008+0007+ffff*3+00*18+3100+3000+3230333031323331+4552494b41+4d55535445524d414e4e+3139393030333135+00*8+02761100000000";

/// The bytes of the record that questions are about.
pub fn image(alloc: Global) -> Result<Vec<u8>, Unanswered> {
    bytes(alloc, IMAGE)
}

/// The fixed bytes of that record.
fn unchanged(alloc: Global) -> Result<[u8; FIXED], Unanswered> {
    let image = image(alloc)?;
    match image.as_slice().first_chunk::<FIXED>() {
        Some(front) => Ok(*front),
        None => Err(Unanswered::Unclear),
    }
}

/// The fixed bytes of that record, with changes, each a word `PLACE:BYTES`.
fn changed(alloc: Global, changes: &[&str]) -> Result<[u8; FIXED], Unanswered> {
    let mut fixed = unchanged(alloc)?;
    for change in changes {
        put_change(alloc, change, &mut fixed)?;
    }
    Ok(fixed)
}

fn put_change(alloc: Global, change: &str, fixed: &mut [u8; FIXED]) -> Result<(), Unanswered> {
    let (place, put) = cut(change)?;
    let from = number(place)? as usize;
    let put = bytes(alloc, put)?;
    put_at(fixed, from, &put)
}

fn put_at(fixed: &mut [u8; FIXED], from: usize, put: &[u8]) -> Result<(), Unanswered> {
    if from > FIXED || put.len() > FIXED - from {
        return Err(Unanswered::Unclear);
    }
    fixed[from..from + put.len()].copy_from_slice(put);
    Ok(())
}

/// `record CHANGE ..`: the record that the fixed bytes spell, a name before each value, or `bad PLACE`.
pub fn record(alloc: Global, words: &[&str]) -> Answer {
    let fixed = changed(alloc, words)?;
    match read_record(&fixed) {
        Ok(kept) => fields(alloc, &kept),
        Err(bad) => bad_place(alloc, bad.place),
    }
}

fn bad_place(alloc: Global, place: u16) -> Answer {
    line(
        alloc,
        &[Piece::Text("bad "), Piece::Number(u32::from(place))],
    )
}

fn fields(alloc: Global, kept: &Record) -> Answer {
    let mut text = String::new(alloc);
    put_values(alloc, kept, &mut text)?;
    put_points(alloc, kept, &mut text)?;
    put_secrets(alloc, kept, &mut text)?;
    put_lengths(alloc, &kept.lengths, &mut text)?;
    Ok(text)
}

fn put_values(alloc: Global, kept: &Record, text: &mut String) -> Result<(), Unanswered> {
    let active = if kept.active { "true" } else { "false" };
    put_pieces(
        alloc,
        &[
            Piece::Text("number "),
            Piece::Number(kept.number),
            Piece::Text(" tries "),
            Piece::Number(u32::from(kept.tries)),
            Piece::Text(" unblocks "),
            Piece::Number(u32::from(kept.unblocks)),
            Piece::Text(" active "),
            Piece::Text(active),
            Piece::Text(" pin "),
            Piece::Bytes(&kept.pin),
            Piece::Text(" can "),
            Piece::Bytes(&kept.can),
            Piece::Text(" puk "),
            Piece::Bytes(&kept.puk),
            Piece::Text(" date "),
            Piece::Bytes(kept.date.as_bytes()),
        ],
        text,
    )
}

fn put_points(alloc: Global, kept: &Record, text: &mut String) -> Result<(), Unanswered> {
    text.push_str(" current ")?;
    put_point(alloc, &kept.current, text)?;
    text.push_str(" previous ")?;
    match &kept.previous {
        Some(previous) => put_point(alloc, previous, text),
        None => Ok(text.push_str("none")?),
    }
}

fn put_point(alloc: Global, point: &TrustPoint, text: &mut String) -> Result<(), Unanswered> {
    put_pieces(
        alloc,
        &[
            Piece::Bytes(point.name.as_slice()),
            Piece::Text(","),
            Piece::Bytes(point.template.as_bytes()),
            Piece::Text(","),
            Piece::Bytes(&point.key),
        ],
        text,
    )
}

fn put_secrets(alloc: Global, kept: &Record, text: &mut String) -> Result<(), Unanswered> {
    put_pieces(
        alloc,
        &[
            Piece::Text(" ca "),
            Piece::Bytes(&kept.ca_secret),
            Piece::Text(" ri "),
            Piece::Bytes(&kept.ri_secret),
            Piece::Text(" lengths "),
        ],
        text,
    )
}

/// The lengths of the files by their numbers; an absent file is `-`.
fn put_lengths(
    alloc: Global,
    lengths: &[Option<u16>],
    text: &mut String,
) -> Result<(), Unanswered> {
    let mut before = "";
    for length in lengths {
        put_length(alloc, before, *length, text)?;
        before = ",";
    }
    Ok(())
}

fn put_length(
    alloc: Global,
    before: &str,
    length: Option<u16>,
    text: &mut String,
) -> Result<(), Unanswered> {
    let length = match length {
        Some(length) => Piece::Number(u32::from(length)),
        None => Piece::Text("-"),
    };
    put_pieces(alloc, &[Piece::Text(before), length], text)
}

/// `effect EFFECT CHANGE ..`: which fixed bytes the effect changes, each run of them as `PLACE:BYTES`, or `same`. The
/// effects are `none`, `spend`, `refill`, `unblock:puk`, `unblock:pin`, `set-pin:DIGITS`, `set-can:DIGITS`, `active:1`,
/// `active:0` and `advance:DATE:NAME:TEMPLATE:KEY`, behind which a previous point's three may stand.
pub fn effect(alloc: Global, words: &[&str]) -> Answer {
    let [effect, changes @ ..] = words else {
        return Err(Unanswered::Unclear);
    };
    let before = changed(alloc, changes)?;
    let after = affected(alloc, effect, &before)?;
    differences(alloc, &before, &after)
}

/// The fixed bytes after an effect.
fn affected(alloc: Global, effect: &str, before: &[u8; FIXED]) -> Result<[u8; FIXED], Unanswered> {
    let Ok(mut kept) = read_record(before) else {
        return Err(Unanswered::Unclear);
    };
    apply_named(alloc, &mut kept, effect)?;
    let mut after = [0; FIXED];
    write_record(&kept, &mut after);
    Ok(after)
}

/// The runs of bytes that differ.
fn differences(alloc: Global, before: &[u8; FIXED], after: &[u8; FIXED]) -> Answer {
    let mut text = String::new(alloc);
    let mut last = FIXED;
    for place in 0..FIXED {
        if before[place] != after[place] {
            put_difference(alloc, place, last == place, after[place], &mut text)?;
            last = place + 1;
        }
    }
    if text.is_empty() {
        return word(alloc, "same");
    }
    Ok(text)
}

/// Appends a byte that differs, with its place where the byte before it does not differ.
fn put_difference(
    alloc: Global,
    place: usize,
    is_next: bool,
    byte: u8,
    text: &mut String,
) -> Result<(), Unanswered> {
    if !is_next {
        put_place(alloc, place, text)?;
    }
    put_pieces(alloc, &[Piece::Bytes(&[byte])], text)
}

fn put_place(alloc: Global, place: usize, text: &mut String) -> Result<(), Unanswered> {
    let place = format!(in alloc; "{place}:")?;
    put_word(text, &place)?;
    Ok(())
}

/// Applies the effect that a word names.
fn apply_named(alloc: Global, kept: &mut Record, effect: &str) -> Result<(), Unanswered>
    requires { IsValid (record_view kept.old) }
    ensures { IsValid (record_view kept.new) }
{
    match effect {
        "none" => Ok(()),
        "spend" => spend(kept),
        "refill" => refill(kept),
        "unblock:puk" => unblock(kept, true),
        "unblock:pin" => unblock(kept, false),
        "active:1" => activate(kept, true),
        "active:0" => activate(kept, false),
        _ => apply_with_bytes(alloc, kept, effect),
    }
}

fn spend(kept: &mut Record) -> Result<(), Unanswered>
    requires { IsValid (record_view kept.old) }
    ensures { IsValid (record_view kept.new) }
{
    if kept.tries == 0 {
        return Err(Unanswered::Unclear);
    }
    apply(kept, &Effect::Spend);
    Ok(())
}

fn refill(kept: &mut Record) -> Result<(), Unanswered>
    requires { IsValid (record_view kept.old) }
    ensures { IsValid (record_view kept.new) }
{
    apply(kept, &Effect::Refill);
    Ok(())
}

fn unblock(kept: &mut Record, by_puk: bool) -> Result<(), Unanswered>
    requires { IsValid (record_view kept.old) }
    ensures { IsValid (record_view kept.new) }
{
    if kept.unblocks == 0 {
        return Err(Unanswered::Unclear);
    }
    apply(kept, &Effect::Unblock { by_puk });
    Ok(())
}

fn activate(kept: &mut Record, active: bool) -> Result<(), Unanswered>
    requires { IsValid (record_view kept.old) }
    ensures { IsValid (record_view kept.new) }
{
    apply(kept, &Effect::Active(active));
    Ok(())
}

/// Applies the effect that a word names by bytes.
fn apply_with_bytes(alloc: Global, kept: &mut Record, effect: &str) -> Result<(), Unanswered>
    requires { IsValid (record_view kept.old) }
    ensures { IsValid (record_view kept.new) }
{
    let (name, given) = cut(effect)?;
    let given = parts(alloc, given)?;
    match name {
        "set-pin" => set_pin(kept, &given),
        "set-can" => set_can(kept, &given),
        "advance" => advance(kept, &given),
        _ => Err(Unanswered::Unclear),
    }
}

fn set_pin(kept: &mut Record, given: &[Vec<u8>]) -> Result<(), Unanswered>
    requires { IsValid (record_view kept.old) }
    ensures { IsValid (record_view kept.new) }
{
    let digits = six_digits(given)?;
    apply(kept, &Effect::SetPin(digits));
    Ok(())
}

fn set_can(kept: &mut Record, given: &[Vec<u8>]) -> Result<(), Unanswered>
    requires { IsValid (record_view kept.old) }
    ensures { IsValid (record_view kept.new) }
{
    let digits = six_digits(given)?;
    apply(kept, &Effect::SetCan(digits));
    Ok(())
}

fn six_digits(given: &[Vec<u8>]) -> Result<[u8; 6], Unanswered>
    ensures { IfOk result (λ read. AreDigits 6 read) }
{
    let Some(read) = one::<6>(given) else {
        return Err(Unanswered::Unclear);
    };
    if !are_digits(&read) {
        return Err(Unanswered::Unclear);
    }
    Ok(read)
}

fn advance(kept: &mut Record, given: &[Vec<u8>]) -> Result<(), Unanswered>
    requires { IsValid (record_view kept.old) }
    ensures { IsValid (record_view kept.new) }
{
    let [date, name, template, key, previous @ ..] = given else {
        return Err(Unanswered::Unclear);
    };
    let Ok(date) = Date6::from_bytes(date) else {
        return Err(Unanswered::Unclear);
    };
    let current = named_point(name, template, key)?;
    let previous = named_previous(previous)?;
    let effect = Effect::Advance {
        date,
        current,
        previous,
    };
    apply(kept, &effect);
    Ok(())
}

fn named_previous(given: &[Vec<u8>]) -> Result<Option<TrustPoint>, Unanswered>
    ensures { IfOk result (λ point. ForSome (option_map trust_point_view point) IsNamed) }
{
    match given {
        [] => Ok(None),
        [name, template, key] => Ok(Some(named_point(name, template, key)?)),
        _ => Err(Unanswered::Unclear),
    }
}

fn named_point(name: &[u8], template: &[u8], key: &[u8]) -> Result<TrustPoint, Unanswered>
    ensures { IfOk result (λ point. IsNamed (trust_point_view point)) }
{
    let Ok(template) = Template::from_bytes(template) else {
        return Err(Unanswered::Unclear);
    };
    let (Some(name), Some(key)) = (buffer::<16>(name), fixed::<65>(key)) else {
        return Err(Unanswered::Unclear);
    };
    if name.is_empty() || key[0] != 4 {
        return Err(Unanswered::Unclear);
    }
    Ok(TrustPoint {
        name,
        template,
        key,
    })
}
