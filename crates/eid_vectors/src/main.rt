//! Answers questions to the layers, a line each, so that outside vectors are rows of a file: `command 00b0840700`
//! is answered by what the bytes are read as. Lines that begin with `#`, and empty ones, are printed
//! as they are; what is no question is answered by `?`.
#![tactic(auto)]

mod certificates;
mod channels;
mod ciphers;
mod configurations;
mod coprocessors;
mod devices;
mod messages;
mod objects;
mod passwords;
mod records;
mod scripts;
mod templates;
mod terminals;
mod words;

use std::alloc::{AllocError, Global};
use std::io;
use words::{Answer, Unanswered};

/// The answer to a question, by its first word.
fn answer(alloc: Global, line: &str) -> Answer {
    let (question, rest) = words::first(line);
    about_text(alloc, question, rest)
}

/// The answer to a question about the whole text behind its first word.
fn about_text(alloc: Global, question: &str, rest: &str) -> Answer {
    match question {
        "config" => configurations::config(alloc, rest),
        "plan" => configurations::plan(alloc, rest),
        "document" => configurations::document(alloc, rest),
        "document-in" => configurations::document_in(alloc, rest),
        "image" => configurations::image(alloc, rest),
        "show" => configurations::show(alloc, rest),
        "terminal" => terminals::terminal(alloc, rest),
        _ => about_lines(alloc, question, rest),
    }
}

/// The answer to a question about lines of text.
fn about_lines(alloc: Global, question: &str, rest: &str) -> Answer {
    match question {
        "script" => scripts::script(alloc, rest),
        "script-in" => scripts::script_in(alloc, rest),
        "answers" => coprocessors::answers(alloc, rest),
        "answers-in" => coprocessors::answers_in_bytes(alloc, rest),
        _ => about_words(alloc, question, rest),
    }
}

/// The answer to a question about words.
fn about_words(alloc: Global, question: &str, rest: &str) -> Answer {
    let words = words::split(alloc, rest)?;
    about_chip(alloc, question, &words)
}

/// The answer to a question about what the chip keeps, and about its coprocessor.
fn about_chip(alloc: Global, question: &str, words: &[&str]) -> Answer {
    match question {
        "record" => records::record(alloc, words),
        "effect" => records::effect(alloc, words),
        "device" => devices::device(alloc, words),
        "store" => devices::store(alloc, words),
        "ask" => coprocessors::ask(alloc, words),
        _ => about_password(alloc, question, words),
    }
}

/// The answer to a question about passwords.
fn about_password(alloc: Global, question: &str, words: &[&str]) -> Answer {
    match question {
        "password" => passwords::password(alloc, words),
        "may-start" => passwords::may_start(alloc, words),
        "select-status" => passwords::select_status(alloc, words),
        "pace" => passwords::pace(alloc, words),
        _ => about_channel(alloc, question, words),
    }
}

/// The answer to a question about a channel, or another one that has a number beside its bytes.
fn about_channel(alloc: Global, question: &str, words: &[&str]) -> Answer {
    match question {
        "wrap" => channels::wrap(alloc, words),
        "unwrap" => channels::unwrap(alloc, words),
        "seal" => channels::seal(alloc, words),
        "unseal" => channels::unseal(alloc, words),
        "write-command" => messages::write_command(alloc, words),
        "derive" => ciphers::derive(alloc, words),
        _ => about_bytes(alloc, question, words),
    }
}

/// The answer to a question whose words are all bytes.
fn about_bytes(alloc: Global, question: &str, words: &[&str]) -> Answer {
    let given = words::all_bytes(alloc, words)?;
    about_cipher(alloc, question, &given)
}

/// The answer to a question about a cipher.
fn about_cipher(alloc: Global, question: &str, given: &[Vec<u8>]) -> Answer {
    match question {
        "encrypt" => ciphers::encrypt(alloc, given),
        "decrypt" => ciphers::decrypt(alloc, given),
        "cbc-encrypt" => ciphers::cbc_encrypt(alloc, given),
        "cbc-decrypt" => ciphers::cbc_decrypt(alloc, given),
        "cmac" => ciphers::cmac(alloc, given),
        "mac8" => ciphers::mac8(alloc, given),
        "pad" => ciphers::pad(alloc, given),
        "unpad" => ciphers::unpad(alloc, given),
        _ => about_message(alloc, question, given),
    }
}

/// The answer to a question about a message or a data object.
fn about_message(alloc: Global, question: &str, given: &[Vec<u8>]) -> Answer {
    match question {
        "command" => messages::command(alloc, given),
        "reply" => messages::reply(alloc, given),
        "write-reply" => messages::write_reply(alloc, given),
        "chain" => messages::chain(alloc, given),
        "object" => objects::object(alloc, given),
        "put" => objects::put(alloc, given),
        "find" => objects::find(alloc, given),
        "only" => objects::only(alloc, given),
        _ => about_value(alloc, question, given),
    }
}

/// The answer to a question about a value of its own type.
fn about_value(alloc: Global, question: &str, given: &[Vec<u8>]) -> Answer {
    match question {
        "date" => templates::date(alloc, given),
        "template" => templates::template(alloc, given),
        "identifier" => templates::identifier(alloc, given),
        "certificate" => certificates::certificate(alloc, given),
        "write-certificate" => certificates::write_certificate(alloc, given),
        "select" => passwords::select(alloc, given),
        _ => Err(Unanswered::Unclear),
    }
}

fn main(rt: HostRuntime) -> io::Result<()> {
    let alloc = rt.alloc();
    for line in rt.lines(alloc) {
        let line = line?;
        if line.is_empty() || line.starts_with('#') {
            println!(rt; "{line}")?;
            continue;
        }
        match answer(alloc, line.as_str()) {
            Ok(text) => println!(rt; "{text}")?,
            Err(Unanswered::Unclear) => println!(rt; "?")?,
            Err(Unanswered::NoMemory) => return Err(AllocError.into()),
        }
    }
    Ok(())
}
