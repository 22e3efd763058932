//! The words of a question, and the pieces of an answer.
use arrayvec::ArrayVec;
use eid_base::NoMemory;
use hex::FromHexError;
use sha2::{Digest, Sha256};
use std::alloc::{AllocError, Global};

/// How many bytes an answer shows; more are told by their number and their digest.
const MAX_SHOWN: usize = 512;

/// Why a question gets no answer.
#[derive(Drop)]
pub enum Unanswered {
    /// It is unknown, or its words are not those that it wants.
    Unclear,
    /// Memory was refused.
    NoMemory,
}

/// An answer, as the line that is printed.
pub type Answer = Result<String, Unanswered>;

impl From<AllocError> for Unanswered {
    fn from(_error: AllocError) -> Unanswered {
        Unanswered::NoMemory
    }
}

impl From<NoMemory> for Unanswered {
    fn from(_error: NoMemory) -> Unanswered {
        Unanswered::NoMemory
    }
}

impl From<FromHexError> for Unanswered {
    fn from(error: FromHexError) -> Unanswered {
        match error {
            FromHexError::OutOfMemory => Unanswered::NoMemory,
            _ => Unanswered::Unclear,
        }
    }
}

/// The words of a text, which spaces part; none where it is empty.
pub fn split(alloc: Global, text: &str) -> Result<Vec<&str>, AllocError> {
    if text.is_empty() {
        return Ok(Vec::new(alloc));
    }
    text.split(' ').collect(alloc)
}

/// The first word of a text, and what is behind it; nothing where that is all.
pub fn first(text: &str) -> (&str, &str) {
    match text.split_once(' ') {
        Some(parts) => parts,
        None => (text, ""),
    }
}

/// What stands before a colon, and what behind it.
pub fn cut(word: &str) -> Result<(&str, &str), Unanswered> {
    word.split_once(':').ok_or(Unanswered::Unclear)
}

/// The bytes of a text in which `|` stands for LF.
pub fn text(alloc: Global, words: &str) -> Result<Vec<u8>, AllocError> {
    let mut text = Vec::new(alloc);
    for byte in words.as_bytes() {
        text.push(if *byte == b'|' { b'\n' } else { *byte })?;
    }
    Ok(text)
}

/// The bytes of a word: `-` for none, else pieces that `+` joins, each of them hexadecimal digits,
/// or digits, `*` and how many times they stand.
pub fn bytes(alloc: Global, word: &str) -> Result<Vec<u8>, Unanswered> {
    let mut bytes = Vec::new(alloc);
    if word == "-" {
        return Ok(bytes);
    }
    for piece in word.split('+') {
        put_digits(alloc, piece, &mut bytes)?;
    }
    Ok(bytes)
}

/// Appends the bytes of a piece of a word.
fn put_digits(alloc: Global, piece: &str, bytes: &mut Vec<u8>) -> Result<(), Unanswered> {
    let (digits, count) = counted(piece)?;
    let digits = hex::decode(alloc, digits)?;
    repeat(bytes, &digits, count)
}

/// The digits of a piece of a word, and how many times they stand.
fn counted(piece: &str) -> Result<(&str, u32), Unanswered> {
    match piece.split_once('*') {
        Some((digits, count)) => Ok((digits, number(count)?)),
        None => Ok((piece, 1)),
    }
}

/// Appends bytes so many times.
fn repeat(bytes: &mut Vec<u8>, repeated: &[u8], count: u32) -> Result<(), Unanswered> {
    for _ in 0..count {
        bytes.extend_from_slice(repeated)?;
    }
    Ok(())
}

/// The bytes of each word.
pub fn all_bytes(alloc: Global, words: &[&str]) -> Result<Vec<Vec<u8>>, Unanswered> {
    let mut all = Vec::new(alloc);
    for word in words {
        put_bytes(&mut all, bytes(alloc, word)?)?;
    }
    Ok(all)
}

/// The bytes of each part of a word; colons part them.
pub fn parts(alloc: Global, word: &str) -> Result<Vec<Vec<u8>>, Unanswered> {
    let mut all = Vec::new(alloc);
    for part in word.split(':') {
        put_bytes(&mut all, bytes(alloc, part)?)?;
    }
    Ok(all)
}

fn put_bytes(all: &mut Vec<Vec<u8>>, bytes: Vec<u8>) -> Result<(), AllocError> {
    all.push(bytes)?;
    Ok(())
}

/// The number that a word writes in decimal.
pub fn number(word: &str) -> Result<u32, Unanswered> {
    match word.parse::<u32>() {
        Ok(number) => Ok(number),
        Err(_) => Err(Unanswered::Unclear),
    }
}

/// The number below 256 that a word writes in decimal.
pub fn small(word: &str) -> Result<u8, Unanswered> {
    match u8::try_from(number(word)?) {
        Ok(number) => Ok(number),
        Err(_) => Err(Unanswered::Unclear),
    }
}

/// Whether a word is `yes`; else it is `no`.
pub fn truth(word: &str) -> Result<bool, Unanswered> {
    match word {
        "yes" => Ok(true),
        "no" => Ok(false),
        _ => Err(Unanswered::Unclear),
    }
}

/// Bytes as an array, where they are so many.
pub fn fixed<const N: usize>(bytes: &[u8]) -> Option<[u8; N]> {
    match <[u8; N]>::try_from(bytes) {
        Ok(bytes) => Some(bytes),
        Err(_) => None,
    }
}

/// One array, where that is all that was given.
pub fn one<const A: usize>(given: &[Vec<u8>]) -> Option<[u8; A]> {
    let [first] = given else {
        return None;
    };
    fixed::<A>(first)
}

/// Two arrays, where they are all that was given.
pub fn two<const A: usize, const B: usize>(given: &[Vec<u8>]) -> Option<([u8; A], [u8; B])> {
    let [first, second] = given else {
        return None;
    };
    match (fixed::<A>(first), fixed::<B>(second)) {
        (Some(first), Some(second)) => Some((first, second)),
        _ => None,
    }
}

/// Three arrays, where they are all that was given.
pub fn three<const A: usize, const B: usize, const C: usize>(
    given: &[Vec<u8>],
) -> Option<([u8; A], [u8; B], [u8; C])> {
    let [first, others @ ..] = given else {
        return None;
    };
    let first = fixed::<A>(first)?;
    let (second, third) = two::<B, C>(others)?;
    Some((first, second, third))
}

/// A buffer that holds bytes, where they fit in it.
pub fn buffer<const N: usize>(bytes: &[u8]) -> Option<ArrayVec<u8, N>> {
    let mut out = ArrayVec::new();
    match out.try_extend_from_slice(bytes) {
        Ok(()) => Some(out),
        Err(_) => None,
    }
}

/// A piece of an answer.
#[derive(Clone, Copy)]
pub enum Piece<'a> {
    /// A text, as it is.
    Text(&'a str),
    /// A number, in decimal.
    Number(u32),
    /// Bytes, as `shown` writes them.
    Bytes(&'a [u8]),
}

/// The answer that pieces are, one behind the other.
pub fn line(alloc: Global, pieces: &[Piece<'_>]) -> Answer {
    let mut line = String::new(alloc);
    put_pieces(alloc, pieces, &mut line)?;
    Ok(line)
}

/// Appends pieces to a line.
pub fn put_pieces(
    alloc: Global,
    pieces: &[Piece<'_>],
    line: &mut String,
) -> Result<(), Unanswered> {
    for piece in pieces {
        let piece = shown_piece(alloc, piece)?;
        line.push_str(&piece)?;
    }
    Ok(())
}

/// Appends a word to a line, behind a space where it is not the first one.
pub fn put_word(line: &mut String, word: &str) -> Result<(), AllocError> {
    if !line.is_empty() {
        line.push_str(" ")?;
    }
    line.push_str(word)
}

fn shown_piece(alloc: Global, piece: &Piece<'_>) -> Answer {
    match piece {
        Piece::Text(text) => word(alloc, text),
        Piece::Number(number) => shown_number(alloc, *number),
        Piece::Bytes(bytes) => shown(alloc, bytes),
    }
}

/// An answer of one word.
pub fn word(alloc: Global, text: &str) -> Answer {
    Ok(String::from_str(alloc, text)?)
}

fn shown_number(alloc: Global, number: u32) -> Answer {
    Ok(format!(in alloc; "{number}")?)
}

/// Bytes as a word of an answer: in hexadecimal, `-` where there are none, and their number and
/// SHA-256 where there are many.
pub fn shown(alloc: Global, bytes: &[u8]) -> Answer {
    if bytes.is_empty() {
        return word(alloc, "-");
    }
    if bytes.len() <= MAX_SHOWN {
        return in_hexadecimal(alloc, bytes);
    }
    digest(alloc, bytes)
}

fn in_hexadecimal(alloc: Global, bytes: &[u8]) -> Answer {
    Ok(hex::encode(alloc, bytes)?)
}

fn digest(alloc: Global, bytes: &[u8]) -> Answer {
    let mut hasher = Sha256::new();
    hasher.update(bytes);
    let digest = hasher.finalize();
    let digest = in_hexadecimal(alloc, digest.as_slice())?;
    let count = bytes.len();
    Ok(format!(in alloc; "{count} bytes, SHA-256 {digest}")?)
}

/// What a buffer holds after something was written behind what it held, or was to be.
pub fn shown_buffer(alloc: Global, fits: bool, bytes: &[u8]) -> Answer {
    if fits {
        return shown(alloc, bytes);
    }
    line(alloc, &[Piece::Text("full "), Piece::Bytes(bytes)])
}
