//! Answers as lines of text.
ghost use Rattle.std.specs.Prelude.{◌≡◌, ◌≤◌, ◌++◌, length, Ok, IfOk, IfErr, OnOk, option_map};
ghost use Rattle.std.specs.List.{after_first, before_first, position};
ghost use Rattle.std.specs.Option.{option_to_list};
ghost use Rattle.eid_text.specs.Lines.{is_space, text_limit, text_says};
ghost use Rattle.eid_copro.specs.Refusal.{Refuses};
ghost use Rattle.eid_copro.specs.Lines.{answer_in, answers_of, bytes_of, line_answer, or_none, pair_in, says, verdict_in};

use crate::ask::Answer;
use eid_base::NoMemory;
use hex::FromHex;
use std::alloc::Global;

/// Why a text is no list of answers.
#[derive(Clone, Copy, Debug)]
pub enum AnswersError {
    /// The number of the first line that is none; 0 where the text is over 1,048,576 bytes.
    Bad { line: u32 },
    /// Memory was asked for and refused.
    NoMemory,
}

const LONGEST: usize = 1_048_576;

#[tactic(auto, unfolding(crate::specs::Lines::line_answer))]
fn read_line(line: &[u8]) -> Option<Answer>
    ensures { result ≡ line_answer line.now }
{
    if line == b"fault".as_slice() {
        return Some(Answer::Fault);
    }
    let (word, rest) = cut(line);
    read_answer(word, rest)
}

#[tactic(auto, unfolding(crate::specs::Lines::answer_in))]
fn read_answer(word: &[u8], rest: &[u8]) -> Option<Answer>
    ensures { result ≡ answer_in word.now rest.now }
{
    match word {
        b"nonce" => read_nonce(rest),
        b"challenge" => read_challenge(rest),
        b"pair" => read_pair(rest),
        b"map" => read_map(rest),
        b"agree" => read_agree(rest),
        b"verify" => read_verdict(rest),
        b"sign" => read_signature(rest),
        _ => None,
    }
}

fn read_nonce(rest: &[u8]) -> Option<Answer>
    ensures { result ≡ option_map (λ bytes. Answer.Nonce bytes) (bytes_of 16 rest.now) }
{
    read_bytes(rest).map(Answer::Nonce)
}

fn read_challenge(rest: &[u8]) -> Option<Answer>
    ensures { result ≡ option_map (λ bytes. Answer.Challenge bytes) (bytes_of 8 rest.now) }
{
    read_bytes(rest).map(Answer::Challenge)
}

fn read_signature(rest: &[u8]) -> Option<Answer>
    ensures { result ≡ option_map (λ bytes. Answer.Signed bytes) (bytes_of 64 rest.now) }
{
    read_bytes(rest).map(Answer::Signed)
}

#[tactic(auto, unfolding(crate::specs::Lines::pair_in))]
fn read_pair(rest: &[u8]) -> Option<Answer>
    ensures { result ≡ pair_in rest.now }
{
    let (secret, public) = cut(rest);
    let secret = read_bytes(secret)?;
    let public = read_bytes(public)?;
    Some(Answer::Pair { secret, public })
}

fn read_map(rest: &[u8]) -> Option<Answer>
    ensures { result ≡ or_none (λ bytes. Answer.Mapped bytes) 65 rest.now }
{
    if rest == b"none".as_slice() {
        return Some(Answer::NoPoint);
    }
    read_bytes(rest).map(Answer::Mapped)
}

fn read_agree(rest: &[u8]) -> Option<Answer>
    ensures { result ≡ or_none (λ bytes. Answer.Shared bytes) 32 rest.now }
{
    if rest == b"none".as_slice() {
        return Some(Answer::NoPoint);
    }
    read_bytes(rest).map(Answer::Shared)
}

#[tactic(auto, unfolding(crate::specs::Lines::verdict_in))]
fn read_verdict(rest: &[u8]) -> Option<Answer>
    ensures { result ≡ verdict_in rest.now }
{
    if rest == b"yes".as_slice() {
        return Some(Answer::Verdict(true));
    }
    if rest == b"no".as_slice() {
        return Some(Answer::Verdict(false));
    }
    None
}

// So many bytes in hexadecimal.
#[tactic(auto, unfolding(crate::specs::Lines::bytes_of))]
fn read_bytes<const N: usize>(text: &[u8]) -> Option<[u8; N]>
    ensures { result ≡ bytes_of N text.now }
{
    <[u8; N] as FromHex>::from_hex(text).ok()
}

// What stands before the first space, and what behind it.
#[tactic(auto, using(crate::proofs::Cuts::found_at, crate::proofs::Cuts::not_found))]
fn cut(line: &[u8]) -> (&[u8], &[u8])
    ensures before { result.0.now ≡ before_first is_space line.now }
    ensures behind { result.1.now ≡ after_first is_space line.now }
{
    match first_space(line) {
        Some(at) => (&line[..at], &line[at + 1..]),
        None => (line, &[]),
    }
}

fn first_space(line: &[u8]) -> Option<usize>
    ensures { result ≡ position is_space line.now }
{
    line.iter().position(|byte| *byte == b' ')
}

// What one line says: nothing where it is empty.
fn read_any_line(line: &[u8]) -> Option<Option<Answer>>
    ensures { option_map (λ said. option_to_list said) result ≡ says line.now }
{
    if line.is_empty() {
        return Some(None);
    }
    match read_line(line) {
        Some(answer) => Some(Some(answer)),
        None => None,
    }
}

// Appends what a line said.
fn keep(answers: &mut Vec<Answer>, said: Option<Answer>) -> Result<(), NoMemory>
    ensures { OnOk result (answers.new.items ≡ answers.old.items ++ option_to_list said) }
{
    if let Some(answer) = said {
        answers.push(answer)?;
    }
    Ok(())
}

/// Reads answers: lines ended by LF, the last one with or without it. Empty lines are skipped; the others are `nonce HEX`
/// (16 bytes), `challenge HEX` (8), `pair SECRET PUBLIC` (32 and 65), `map POINT` (65) or `map none`, `agree HEX` (32) or
/// `agree none`, `verify yes`, `verify no`, `sign HEX` (64) and `fault`, with HEX in hexadecimal of either case. One
/// space parts the words, and nothing else stands in a line.
///
/// # Errors
/// `Bad` with the first line that is none of these, where lines are counted from 1 and the empty ones count; with line 0
/// exactly where the text is over 1,048,576 bytes. `NoMemory` only where memory was refused.
#[tactic(auto, using(crate::proofs::TextLines::too_long, crate::proofs::TextLines::short_enough))]
pub fn read_answers(alloc: Global, text: &[u8]) -> Result<Vec<Answer>, AnswersError>
    ensures read { IfOk result (λ answers. answers_of text.now ≡ Ok answers.items) }
    ensures refused { IfErr result (Refuses (answers_of text.now)) }
{
    if text.len() > LONGEST {
        return Err(AnswersError::Bad { line: 0 });
    }
    read_lines(alloc, text)
}

fn read_lines(alloc: Global, text: &[u8]) -> Result<Vec<Answer>, AnswersError>
    requires { length text.now ≤ text_limit }
    ensures read { IfOk result (λ answers. text_says says text.now ≡ Ok answers.items) }
    ensures refused { IfErr result (Refuses (text_says says text.now)) }
{
    let mut answers = Vec::new(alloc);
    let mut number = 0;
    for line in text.split(|byte| *byte == b'\n') {
        number += 1;
        let Some(said) = read_any_line(line) else {
            return Err(AnswersError::Bad { line: number });
        };
        let Ok(()) = keep(&mut answers, said) else {
            return Err(AnswersError::NoMemory);
        };
    }
    Ok(answers)
}
