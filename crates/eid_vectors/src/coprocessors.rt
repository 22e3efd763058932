//! Questions about the coprocessor and the answers of a file. A question or an answer is a word with its parts behind
//! colons: `nonce`, `challenge`, `pair:BASE` (`pair:-` over the generator), `map:NONCE:SECRET:POINT`,
//! `agree:SECRET:POINT`, `verify:POINT:DIGEST:SIGNATURE`, `sign:SECRET:DIGEST`; `nonce:BYTES`, `challenge:BYTES`,
//! `pair:SECRET:POINT`, `map:POINT` or `map:none`, `agree:BYTES` or `agree:none`, `verify:yes`, `verify:no`,
//! `sign:BYTES`, `fault`.
use crate::scripts::bad;
use crate::words::{
    self, Piece, Unanswered, bytes, cut, line, one, parts, put_word, text, three, two, word,
};
use eid_copro::{
    Answer, AnswersError, AnyCopro, Ask, Coprocessor, ModelCoprocessor, Question,
    ScriptCoprocessor, read_answers,
};
use std::alloc::{AllocError, Global};

/// The answer that a word names.
fn answer_in(alloc: Global, word: &str) -> Result<Answer, Unanswered> {
    match word {
        "fault" => Ok(Answer::Fault),
        "map:none" => Ok(Answer::NoPoint),
        "agree:none" => Ok(Answer::NoPoint),
        "verify:yes" => Ok(Answer::Verdict(true)),
        "verify:no" => Ok(Answer::Verdict(false)),
        _ => answer_with_bytes(alloc, word),
    }
}

/// The answer of bytes that a word names.
fn answer_with_bytes(alloc: Global, word: &str) -> Result<Answer, Unanswered> {
    let (kind, given) = cut(word)?;
    let given = parts(alloc, given)?;
    answer_of(kind, &given).ok_or(Unanswered::Unclear)
}

/// The answer of that kind with these bytes.
fn answer_of(kind: &str, given: &[Vec<u8>]) -> Option<Answer> {
    match kind {
        "nonce" => one::<16>(given).map(Answer::Nonce),
        "challenge" => one::<8>(given).map(Answer::Challenge),
        "pair" => pair_in(given),
        "map" => one::<65>(given).map(Answer::Mapped),
        "agree" => one::<32>(given).map(Answer::Shared),
        "sign" => one::<64>(given).map(Answer::Signed),
        _ => None,
    }
}

/// A pair, by its secret and its point.
fn pair_in(given: &[Vec<u8>]) -> Option<Answer> {
    let (secret, public) = two::<32, 65>(given)?;
    Some(Answer::Pair { secret, public })
}

/// The answers that words name.
fn answers_in(alloc: Global, words: &[&str]) -> Result<Vec<Answer>, Unanswered> {
    let mut answers = Vec::new(alloc);
    for word in words {
        keep(&mut answers, answer_in(alloc, word)?)?;
    }
    Ok(answers)
}

/// Appends an answer.
fn keep(answers: &mut Vec<Answer>, answer: Answer) -> Result<(), AllocError> {
    answers.push(answer)?;
    Ok(())
}

/// The question that a word names.
fn question_in(alloc: Global, word: &str) -> Result<Question, Unanswered> {
    match word {
        "nonce" => Ok(Question::Nonce),
        "challenge" => Ok(Question::Challenge),
        "pair:-" => Ok(Question::Pair { base: None }),
        _ => question_with_bytes(alloc, word),
    }
}

/// The question of bytes that a word names.
fn question_with_bytes(alloc: Global, word: &str) -> Result<Question, Unanswered> {
    let (kind, given) = cut(word)?;
    let given = parts(alloc, given)?;
    question_of(kind, &given).ok_or(Unanswered::Unclear)
}

/// The question of that kind with these bytes.
fn question_of(kind: &str, given: &[Vec<u8>]) -> Option<Question> {
    match kind {
        "pair" => pair_over(given),
        "map" => map_of(given),
        "agree" => agree_with(given),
        "verify" => verify_of(given),
        "sign" => sign_of(given),
        _ => None,
    }
}

fn pair_over(given: &[Vec<u8>]) -> Option<Question> {
    let base = one::<65>(given)?;
    Some(Question::Pair { base: Some(base) })
}

fn map_of(given: &[Vec<u8>]) -> Option<Question> {
    let (nonce, secret, peer) = three::<16, 32, 65>(given)?;
    Some(Question::Map {
        nonce,
        secret,
        peer,
    })
}

fn agree_with(given: &[Vec<u8>]) -> Option<Question> {
    let (secret, peer) = two::<32, 65>(given)?;
    Some(Question::Agree { secret, peer })
}

fn verify_of(given: &[Vec<u8>]) -> Option<Question> {
    let (key, digest, signature) = three::<65, 32, 64>(given)?;
    Some(Question::Verify {
        key,
        digest,
        signature,
    })
}

fn sign_of(given: &[Vec<u8>]) -> Option<Question> {
    let (secret, digest) = two::<32, 32>(given)?;
    Some(Question::Sign { secret, digest })
}

/// Puts a question; what is answered stands in the log.
fn put<C: Coprocessor>(copro: &mut C, question: &Question) -> Result<(), Unanswered> {
    copro.make_room(1)?;
    match question {
        Question::Nonce => {
            let _ = copro.nonce();
        }
        Question::Challenge => {
            let _ = copro.challenge();
        }
        Question::Pair { base } => {
            let _ = copro.pair(base.as_ref());
        }
        Question::Map {
            nonce,
            secret,
            peer,
        } => {
            let _ = copro.map(nonce, secret, peer);
        }
        Question::Agree { secret, peer } => {
            let _ = copro.agree(secret, peer);
        }
        Question::Verify {
            key,
            digest,
            signature,
        } => {
            let _ = copro.verify(key, digest, signature);
        }
        Question::Sign { secret, digest } => {
            let _ = copro.sign(secret, digest);
        }
    }
    Ok(())
}

/// Puts the question that a word names.
fn put_named(alloc: Global, copro: &mut AnyCopro, word: &str) -> Result<(), Unanswered> {
    let question = question_in(alloc, word)?;
    put(copro, &question)
}

/// An answer as a word.
fn shown_answer(alloc: Global, answer: &Answer) -> words::Answer {
    match answer {
        Answer::Nonce(nonce) => named(alloc, "nonce:", nonce),
        Answer::Challenge(challenge) => named(alloc, "challenge:", challenge),
        Answer::Pair { secret, public } => shown_pair(alloc, secret, public),
        Answer::Mapped(base) => named(alloc, "map:", base),
        Answer::Shared(shared) => named(alloc, "agree:", shared),
        Answer::NoPoint => word(alloc, "none"),
        Answer::Verdict(is_signed) => verdict(alloc, *is_signed),
        Answer::Signed(signature) => named(alloc, "sign:", signature),
        Answer::Fault => word(alloc, "fault"),
    }
}

fn verdict(alloc: Global, is_signed: bool) -> words::Answer {
    word(alloc, if is_signed { "verify:yes" } else { "verify:no" })
}

fn shown_pair<'a>(alloc: Global, secret: &'a [u8], public: &'a [u8]) -> words::Answer {
    line(
        alloc,
        &[
            Piece::Text("pair:"),
            Piece::Bytes(secret),
            Piece::Text(":"),
            Piece::Bytes(public),
        ],
    )
}

/// A name and bytes.
fn named<'a>(alloc: Global, name: &'a str, bytes: &'a [u8]) -> words::Answer {
    line(alloc, &[Piece::Text(name), Piece::Bytes(bytes)])
}

/// Appends an answer as a word.
fn put_answer(alloc: Global, answer: &Answer, line: &mut String) -> Result<(), Unanswered> {
    let answer = shown_answer(alloc, answer)?;
    put_word(line, &answer)?;
    Ok(())
}

/// Answers as words, `-` where there are none.
fn shown_answers(alloc: Global, answers: &[Answer]) -> words::Answer {
    if answers.is_empty() {
        return word(alloc, "-");
    }
    let mut line = String::new(alloc);
    for answer in answers {
        put_answer(alloc, answer, &mut line)?;
    }
    Ok(line)
}

/// What a coprocessor answered so far, `-` where nothing was asked.
fn shown_log(alloc: Global, log: &[Ask]) -> words::Answer {
    if log.is_empty() {
        return word(alloc, "-");
    }
    let mut line = String::new(alloc);
    for ask in log {
        put_answer(alloc, &ask.answer, &mut line)?;
    }
    Ok(line)
}

/// Puts questions.
fn put_all(alloc: Global, copro: &mut AnyCopro, questions: &[&str]) -> Result<(), Unanswered> {
    for question in questions {
        put_named(alloc, copro, question)?;
    }
    Ok(())
}

/// The coprocessor that words name: a number, the start of the model, or answers.
pub fn coprocessor(alloc: Global, words: &[&str]) -> Result<AnyCopro, Unanswered> {
    if let [start] = words {
        if let Ok(start) = start.parse::<u64>() {
            return Ok(AnyCopro::Model(ModelCoprocessor::new(alloc, start)));
        }
    }
    let answers = answers_in(alloc, words)?;
    Ok(AnyCopro::Script(ScriptCoprocessor::new(alloc, answers)))
}

/// What stands before the word `=`, and what behind it.
pub fn sides<'a>(words: &'a [&'a str]) -> Result<(&'a [&'a str], &'a [&'a str]), Unanswered> {
    let Some(at) = words.iter().position(|word| *word == "=") else {
        return Err(Unanswered::Unclear);
    };
    Ok((&words[..at], &words[at + 1..]))
}

/// `ask QUESTION.. = COPROCESSOR`: what it answers; `none` stands for no point.
pub fn ask(alloc: Global, words: &[&str]) -> words::Answer {
    let (questions, copro) = sides(words)?;
    let mut copro = coprocessor(alloc, copro)?;
    put_all(alloc, &mut copro, questions)?;
    shown_log(alloc, copro.log())
}

/// The answers that a text is read to, or its first bad line.
fn read(alloc: Global, text: &[u8]) -> words::Answer {
    match read_answers(alloc, text) {
        Ok(answers) => shown_answers(alloc, &answers),
        Err(AnswersError::Bad { line }) => bad(alloc, line),
        Err(AnswersError::NoMemory) => Err(Unanswered::NoMemory),
    }
}

/// `answers TEXT`: what the text is read to, or its first bad line; `|` stands for LF.
pub fn answers(alloc: Global, words: &str) -> words::Answer {
    let text = text(alloc, words)?;
    read(alloc, &text)
}

/// `answers-in BYTES`: the same of a text by its bytes.
pub fn answers_in_bytes(alloc: Global, word: &str) -> words::Answer {
    let text = bytes(alloc, word)?;
    read(alloc, &text)
}
