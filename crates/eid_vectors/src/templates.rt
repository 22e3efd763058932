//! Questions about dates, templates and identifiers.
use crate::words::{Answer, Piece, Unanswered, line, shown, word};
use eid_bits::{Date6, Known, Template};
use std::alloc::Global;

/// `date BYTES`: the date that the bytes are, and its number, or `bad`.
pub fn date(alloc: Global, given: &[Vec<u8>]) -> Answer {
    let [read] = given else {
        return Err(Unanswered::Unclear);
    };
    match Date6::from_bytes(read) {
        Ok(date) => shown_date(alloc, &date),
        Err(_) => word(alloc, "bad"),
    }
}

fn shown_date(alloc: Global, date: &Date6) -> Answer {
    line(
        alloc,
        &[
            Piece::Bytes(date.as_bytes()),
            Piece::Text(" number "),
            Piece::Number(date.number()),
        ],
    )
}

/// `template BYTES`: the template that the bytes are, or `bad`.
pub fn template(alloc: Global, given: &[Vec<u8>]) -> Answer {
    let [read] = given else {
        return Err(Unanswered::Unclear);
    };
    match Template::from_bytes(read) {
        Ok(template) => shown(alloc, template.as_bytes()),
        Err(_) => word(alloc, "bad"),
    }
}

/// `identifier BYTES`: the name of the identifier that chip and terminal know with these bytes, or `none`.
pub fn identifier(alloc: Global, given: &[Vec<u8>]) -> Answer {
    let [read] = given else {
        return Err(Unanswered::Unclear);
    };
    match eid_bits::known(read) {
        Some(known) => shown_identifier(alloc, known),
        None => word(alloc, "none"),
    }
}

fn shown_identifier(alloc: Global, known: Known) -> Answer {
    let bytes = shown(alloc, known.bytes())?;
    Ok(format!(in alloc; "{known:?} {bytes}")?)
}
