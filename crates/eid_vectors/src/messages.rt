//! Questions about command and response APDUs.
use crate::words::{
    Answer, Piece, Unanswered, all_bytes, buffer, fixed, line, number, put_word, shown_buffer, word,
};
use eid_apdu::{Chain, Command, Fed, MAX_REQUEST, Reply};
use eid_base::Status;
use std::alloc::Global;

/// How many bytes the buffer has that a command or a reply is written into.
const ROOM: usize = 300;

/// A command as an answer.
pub fn shown_command(alloc: Global, c: &Command<'_>) -> Answer {
    command_line(alloc, &[c.cla, c.ins, c.p1, c.p2], c.ne, c.body)
}

fn command_line<'a>(alloc: Global, header: &'a [u8], ne: u32, body: &'a [u8]) -> Answer {
    line(
        alloc,
        &[
            Piece::Bytes(header),
            Piece::Text(" ne "),
            Piece::Number(ne),
            Piece::Text(" body "),
            Piece::Bytes(body),
        ],
    )
}

/// A reply as an answer.
pub fn shown_reply(alloc: Global, reply: &Reply) -> Answer {
    let status = reply.status.0.to_be_bytes();
    reply_line(alloc, &status, reply.content.as_slice())
}

fn reply_line<'a>(alloc: Global, status: &'a [u8], content: &'a [u8]) -> Answer {
    line(
        alloc,
        &[
            Piece::Bytes(status),
            Piece::Text(" content "),
            Piece::Bytes(content),
        ],
    )
}

/// `command BYTES`: the command that the bytes are, or `bad`.
pub fn command(alloc: Global, given: &[Vec<u8>]) -> Answer {
    let [sent] = given else {
        return Err(Unanswered::Unclear);
    };
    match eid_apdu::read_command(sent) {
        Ok(c) => shown_command(alloc, &c),
        Err(_) => word(alloc, "bad"),
    }
}

/// `write-command BEFORE HEADER NE BODY`: what the buffer holds once the command is written behind BEFORE.
pub fn write_command(alloc: Global, words: &[&str]) -> Answer {
    let [before, header, ne, body] = words else {
        return Err(Unanswered::Unclear);
    };
    let ne = number(ne)?;
    let given = all_bytes(alloc, &[*before, *header, *body])?;
    written_command(alloc, ne, &given)
}

fn written_command(alloc: Global, ne: u32, given: &[Vec<u8>]) -> Answer {
    let [before, header, body] = given else {
        return Err(Unanswered::Unclear);
    };
    let Some(header) = fixed::<4>(header) else {
        return Err(Unanswered::Unclear);
    };
    let [cla, ins, p1, p2] = header;
    if body.len() > 65_535 || ne > 65_536 {
        return Err(Unanswered::Unclear);
    }
    let Some(mut out) = buffer::<ROOM>(before) else {
        return Err(Unanswered::Unclear);
    };
    let c = Command {
        cla,
        ins,
        p1,
        p2,
        body: body.as_slice(),
        ne,
    };
    let fits = eid_apdu::write_command(&c, &mut out).is_ok();
    shown_buffer(alloc, fits, out.as_slice())
}

/// `reply BYTES`: the reply that the bytes are, or `bad`.
pub fn reply(alloc: Global, given: &[Vec<u8>]) -> Answer {
    let [sent] = given else {
        return Err(Unanswered::Unclear);
    };
    match eid_apdu::read_reply(sent) {
        Ok(reply) => shown_reply(alloc, &reply),
        Err(_) => word(alloc, "bad"),
    }
}

/// `write-reply BEFORE STATUS CONTENT`: what the buffer holds once the reply is written behind BEFORE.
pub fn write_reply(alloc: Global, given: &[Vec<u8>]) -> Answer {
    let [before, status, content] = given else {
        return Err(Unanswered::Unclear);
    };
    let Some(status) = fixed::<2>(status) else {
        return Err(Unanswered::Unclear);
    };
    let (Some(mut out), Some(content)) = (buffer::<ROOM>(before), buffer(content)) else {
        return Err(Unanswered::Unclear);
    };
    let reply = Reply {
        content,
        status: Status(u16::from_be_bytes(status)),
    };
    let fits = eid_apdu::write_reply(&reply, &mut out).is_ok();
    shown_buffer(alloc, fits, out.as_slice())
}

/// `chain COMMAND ..`: what each command is to the chain that those before it left, and the bodies joined so far.
pub fn chain(alloc: Global, given: &[Vec<u8>]) -> Answer {
    let mut chain = Chain::<MAX_REQUEST>::new();
    let mut told = String::new(alloc);
    for sent in given {
        let Ok(c) = eid_apdu::read_command(sent) else {
            return Err(Unanswered::Unclear);
        };
        let fed = shown_fed(chain.feed(&c));
        put_fed(alloc, fed, chain.body(), &mut told)?;
    }
    Ok(told)
}

fn shown_fed(fed: Fed) -> &'static str {
    match fed {
        Fed::More => "more ",
        Fed::Whole => "whole ",
        Fed::Broken => "broken ",
        Fed::TooLong => "too-long ",
    }
}

fn put_fed<'a>(
    alloc: Global,
    fed: &'a str,
    body: &'a [u8],
    told: &mut String,
) -> Result<(), Unanswered> {
    let piece = line(alloc, &[Piece::Text(fed), Piece::Bytes(body)])?;
    put_word(told, &piece)?;
    Ok(())
}
