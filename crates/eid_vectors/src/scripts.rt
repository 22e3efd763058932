//! Questions about scripts.
use crate::words::{self, Piece, Unanswered, bytes, line, put_word, text, word};
use eid_cells::Tear;
use eid_script::{Line, ScriptError, read_script};
use std::alloc::Global;

/// What a cut leaves, as a word.
fn shown_tear(alloc: Global, tear: Tear) -> words::Answer {
    match tear {
        Tear::Old => word(alloc, "old"),
        Tear::New => word(alloc, "new"),
        Tear::Half => word(alloc, "half"),
        Tear::Fill(byte) => line(alloc, &[Piece::Text("fill:"), Piece::Bytes(&[byte])]),
    }
}

/// A planned cut as a word.
fn shown_cut(alloc: Global, write: u32, tear: Tear) -> words::Answer {
    let tear = shown_tear(alloc, tear)?;
    line(
        alloc,
        &[
            Piece::Text("cut:"),
            Piece::Number(write),
            Piece::Text(":"),
            Piece::Text(&tear),
        ],
    )
}

/// A line as a word.
fn shown_line(alloc: Global, said: &Line) -> words::Answer {
    match said {
        Line::On => word(alloc, "on"),
        Line::Off => word(alloc, "off"),
        Line::Apdu(bytes) => line(alloc, &[Piece::Text("apdu:"), Piece::Bytes(bytes)]),
        Line::Cut { write, tear } => shown_cut(alloc, *write, *tear),
    }
}

/// Lines as words, `-` where there are none.
fn shown_lines(alloc: Global, lines: &[Line]) -> words::Answer {
    if lines.is_empty() {
        return word(alloc, "-");
    }
    let mut shown = String::new(alloc);
    for said in lines {
        put_line(alloc, said, &mut shown)?;
    }
    Ok(shown)
}

fn put_line(alloc: Global, said: &Line, shown: &mut String) -> Result<(), Unanswered> {
    let said = shown_line(alloc, said)?;
    put_word(shown, &said)?;
    Ok(())
}

/// What a text is read to, or its first bad line.
fn read(alloc: Global, text: &[u8]) -> words::Answer {
    match read_script(alloc, text) {
        Ok(lines) => shown_lines(alloc, &lines),
        Err(ScriptError::Bad { line }) => bad(alloc, line),
        Err(ScriptError::NoMemory) => Err(Unanswered::NoMemory),
    }
}

/// The number of a bad line.
pub fn bad(alloc: Global, number: u32) -> words::Answer {
    line(alloc, &[Piece::Text("bad "), Piece::Number(number)])
}

/// `script TEXT`: what the text is read to, or its first bad line; `|` stands for LF.
pub fn script(alloc: Global, words: &str) -> words::Answer {
    let text = text(alloc, words)?;
    read(alloc, &text)
}

/// `script-in BYTES`: the same of a text by its bytes.
pub fn script_in(alloc: Global, word: &str) -> words::Answer {
    let text = bytes(alloc, word)?;
    read(alloc, &text)
}
