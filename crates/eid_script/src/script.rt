//! Reading a script.
ghost use Rattle.std.specs.Prelude.{◌≡◌, ◌↔◌, ◌<◌, ◌≤◌, ◌++◌, [], ◌∷◌, length, map, position, option_map, true};
ghost use Rattle.std.specs.Prelude.{Some, None, Ok, IfOk, IfErr, OnOk, IsErrOf, IfSome, IfNone, IsSome};
ghost use Rattle.std.specs.Option.{option_to_list};
ghost use Rattle.std.specs.List.{slice_split, before_first, after_first, list_all};
ghost use Rattle.std.specs.Char.{is_ascii_digit};
ghost use Rattle.std.specs.Str.Parse.{digits_value};
ghost use Rattle.hex.specs.Hex.{decode_sized};
ghost use Rattle.eid_text.specs.Hexadecimal.{bytes_within};
ghost use Rattle.eid_text.specs.Lines.{is_lf, is_space, text_limit, text_says};
ghost use Rattle.eid_script.specs.Scripts.{plain_line, command_line, filled, tear_of, write_of, cut_line, says, script_of, NamesLine};

use eid_base::NoMemory;
use eid_cells::Tear;
use eid_text::{are_digits, decode_hex};
use std::alloc::Global;

/// A line of a script.
#[derive(Drop)]
pub enum Line {
    /// Power.
    On,
    /// Power taken away.
    Off,
    /// The bytes of a command, 1 to 65,544 of them.
    Apdu(Vec<u8>),
    /// A power cut that is planned.
    Cut {
        /// The write that it strikes, counted from this line, 1 for the next one.
        write: u32,
        /// What it leaves in the range of that write.
        tear: Tear,
    },
}

/// Why a script was not read.
#[derive(Clone, Copy, Debug)]
pub enum ScriptError {
    /// The text is no script.
    Bad {
        /// The first line that is not of the grammar, from 1, or 0 where the text is too long.
        line: u32,
    },
    /// Memory was asked for and refused.
    NoMemory,
}

/// Why a line was not read.
#[derive(Clone, Copy)]
enum LineError {
    /// It is not of the grammar.
    Bad,
    /// Memory was asked for and refused.
    NoMemory,
}

/// How many bytes the longest command of a script has.
const MAX_COMMAND: usize = 65544;

/// How many bytes the longest script has.
const MAX_SCRIPT: usize = 1_048_576;

/// The highest number of a write.
const MAX_WRITE: u32 = 1_000_000;

/// How many digits that number has.
const MAX_DIGITS: usize = 7;

/// The command whose bytes stand there in hexadecimal.
#[tactic(auto, using(crate::proofs::Commands::command_said, crate::proofs::Commands::good_command, crate::proofs::Commands::no_command))]
fn read_apdu(alloc: Global, digits: &[u8]) -> Result<Line, LineError>
    ensures found { IfOk result (λ line. command_line (bytes_within 65544 digits.now) ≡ Some (plain_line line ∷ [])) }
    ensures bad { IsErrOf result LineError.Bad → command_line (bytes_within 65544 digits.now) ≡ None }
    ensures no_memory { IsErrOf result LineError.NoMemory → IsSome (command_line (bytes_within 65544 digits.now)) }
{
    if digits.is_empty() {
        return Err(LineError::Bad);
    }
    match decode_hex(alloc, digits, MAX_COMMAND) {
        Ok(Some(bytes)) => Ok(Line::Apdu(bytes)),
        Ok(None) => Err(LineError::Bad),
        Err(NoMemory) => Err(LineError::NoMemory),
    }
}

/// The number that at most seven digits write.
fn number_of(digits: &[u8]) -> u32
    requires digits { list_all is_ascii_digit digits.now ≡ true }
    requires few { length digits.now ≤ 7 }
    ensures { result ≡ digits_value 10 digits.now }
{
    let mut number = 0u32;
    for &digit in digits {
        number = number * 10 + u32::from(digit - b'0');
    }
    number
}

/// The number of a write, in decimal without leading zeros.
fn read_write(word: &[u8]) -> Option<u32>
    ensures { result ≡ write_of word.now }
{
    if word.is_empty() || word.len() > MAX_DIGITS || word[0] <= b'0' || !are_digits(word) {
        return None;
    }
    let write = number_of(word);
    if write > MAX_WRITE {
        return None;
    }
    Some(write)
}

/// The byte that two hexadecimal digits write.
fn read_fill(digits: &[u8]) -> Option<Tear>
    ensures { result ≡ filled (decode_sized digits.now 1) }
{
    let mut bytes = [0u8; 1];
    match hex::decode_to_slice(digits, &mut bytes) {
        Ok(()) => Some(Tear::Fill(bytes[0])),
        Err(_) => None,
    }
}

/// What a cut leaves.
fn read_tear(words: &[u8]) -> Option<Tear>
    ensures { result ≡ tear_of words.now }
{
    if words == b"old".as_slice() {
        return Some(Tear::Old);
    }
    if words == b"new".as_slice() {
        return Some(Tear::New);
    }
    if words == b"half".as_slice() {
        return Some(Tear::Half);
    }
    match words.strip_prefix(b"fill ".as_slice()) {
        Some(digits) => read_fill(digits),
        None => None,
    }
}

/// Where the first space stands.
fn space_at(words: &[u8]) -> Option<usize>
    ensures { result ≡ position is_space words.now }
{
    words.iter().position(|c| *c == b' ')
}

/// The first word, and what follows the space behind it.
fn split_word(words: &[u8]) -> Option<(&[u8], &[u8])>
    ensures found { IfSome result (λ x. (x.0.now ≡ before_first is_space words.now) × (x.1.now ≡ after_first is_space words.now)) }
    ensures none { IfNone result (after_first is_space words.now ≡ []) }
{
    match space_at(words) {
        Some(at) => Some((&words[..at], &words[at + 1..])),
        None => None,
    }
}

/// The planned cut that the words behind `cut ` say.
fn read_cut(words: &[u8]) -> Option<Line>
    ensures { cut_line words.now ≡ option_map (λ line. plain_line line ∷ []) result }
{
    let Some((write, tear)) = split_word(words) else {
        return None;
    };
    let Some(write) = read_write(write) else {
        return None;
    };
    let Some(tear) = read_tear(tear) else {
        return None;
    };
    Some(Line::Cut { write, tear })
}

/// What one line says: nothing where it is empty or a comment.
fn read_line(alloc: Global, line: &[u8]) -> Result<Option<Line>, LineError>
    ensures found { IfOk result (λ said. says line.now ≡ Some (map plain_line (option_to_list said))) }
    ensures bad { IsErrOf result LineError.Bad → says line.now ≡ None }
    ensures no_memory { IsErrOf result LineError.NoMemory → IsSome (says line.now) }
{
    if line.is_empty() || line[0] == b'#' {
        return Ok(None);
    }
    if line == b"on".as_slice() {
        return Ok(Some(Line::On));
    }
    if line == b"off".as_slice() {
        return Ok(Some(Line::Off));
    }
    if let Some(digits) = line.strip_prefix(b"apdu ".as_slice()) {
        return match read_apdu(alloc, digits) {
            Ok(line) => Ok(Some(line)),
            Err(e) => Err(e),
        };
    }
    let Some(words) = line.strip_prefix(b"cut ".as_slice()) else {
        return Err(LineError::Bad);
    };
    match read_cut(words) {
        Some(line) => Ok(Some(line)),
        None => Err(LineError::Bad),
    }
}

/// Appends what a line said.
fn keep(lines: &mut Vec<Line>, said: Option<Line>) -> Result<(), NoMemory>
    ensures { OnOk result (map plain_line lines.new.items ≡ map plain_line lines.old.items ++ map plain_line (option_to_list said)) }
{
    if let Some(line) = said {
        lines.push(line)?;
    }
    Ok(())
}

/// Reads the lines of a text.
fn read_lines(alloc: Global, text: &[u8]) -> Result<Vec<Line>, ScriptError>
    requires { length text.now ≤ text_limit }
    ensures found { IfOk result (λ lines. text_says says text.now ≡ Ok (map plain_line lines.items)) }
    ensures bad { IfErr result (λ e. NamesLine e (text_says says text.now)) }
{
    let mut lines = Vec::new(alloc);
    let mut number = 0;
    for line in text.split(|byte| *byte == b'\n') {
        number += 1;
        let said = match read_line(alloc, line) {
            Ok(said) => said,
            Err(LineError::Bad) => return Err(ScriptError::Bad { line: number }),
            Err(LineError::NoMemory) => return Err(ScriptError::NoMemory),
        };
        let Ok(()) = keep(&mut lines, said) else {
            return Err(ScriptError::NoMemory);
        };
    }
    Ok(lines)
}

/// Reads a script: lines ended by LF, the last one with or without it. An empty line and one
/// that begins with `#` are skipped; the others are `on`, `off`, `apdu HEX` with 1 to 65,544
/// bytes in hexadecimal of either case, and `cut WRITE old`, `cut WRITE new`, `cut WRITE half`
/// and `cut WRITE fill XX`, with WRITE from 1 to 1,000,000 without leading zeros and XX a byte
/// in hexadecimal. One space parts the words, and nothing else stands in a line.
///
/// # Errors
/// `Bad` with the first line that is none of these, where lines are counted from 1 and the
/// skipped ones count; with line 0 exactly where the text is over 1,048,576 bytes. `NoMemory`
/// only where memory was refused.
#[tactic(auto, using(crate::proofs::Numbers::too_long, crate::proofs::Numbers::short_enough, crate::proofs::Numbers::names_a_line))]
pub fn read_script(alloc: Global, text: &[u8]) -> Result<Vec<Line>, ScriptError>
    ensures found { IfOk result (λ lines. script_of text.now ≡ Ok (map plain_line lines.items)) }
    ensures bad { IfErr result (λ e. NamesLine e (script_of text.now)) }
    ensures too_long { IsErrOf result (ScriptError.Bad 0) ↔ (text_limit < length text.now) }
{
    if text.len() > MAX_SCRIPT {
        return Err(ScriptError::Bad { line: 0 });
    }
    read_lines(alloc, text)
}
