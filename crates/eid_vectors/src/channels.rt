//! Questions about secure messaging. Each names a channel by its key for encryption, its key for MACs, and how
//! many messages went through it before.
use crate::messages::{shown_command, shown_reply};
use crate::words::{Answer, Unanswered, all_bytes, buffer, number, shown, three, two, word};
use arrayvec::ArrayVec;
use eid_apdu::{Command, Reply};
use eid_base::Status;
use eid_cmac::SessionKeys;
use eid_sm::{Channel, MAX_MESSAGE, MAX_PLAIN, SmError};
use std::alloc::Global;

/// The channel under these keys after so many messages.
fn channel(enc: [u8; 16], mac: [u8; 16], count: u32) -> Channel {
    let mut channel = Channel::new(SessionKeys::Short { enc, mac });
    let mut out = ArrayVec::new();
    let any = Command {
        cla: 0,
        ins: 0,
        p1: 0,
        p2: 0,
        body: &[],
        ne: 0,
    };
    for _ in 0..count {
        channel.wrap(&any, &mut out);
    }
    channel
}

/// Why a protected message was refused.
fn refused(alloc: Global, error: SmError) -> Answer {
    match error {
        SmError::Missing => word(alloc, "missing"),
        SmError::Wrong => word(alloc, "wrong"),
    }
}

/// `wrap ENC MAC COUNT HEADER NE BODY`: the protected form of the command as the terminal writes it.
pub fn wrap(alloc: Global, words: &[&str]) -> Answer {
    let [enc, mac, count, header, ne, body] = words else {
        return Err(Unanswered::Unclear);
    };
    let count = number(count)?;
    let ne = number(ne)?;
    let given = all_bytes(alloc, &[*enc, *mac, *header, *body])?;
    wrapped(alloc, count, ne, &given)
}

fn wrapped(alloc: Global, count: u32, ne: u32, given: &[Vec<u8>]) -> Answer {
    let [keys @ .., body] = given else {
        return Err(Unanswered::Unclear);
    };
    let Some(read) = three::<16, 16, 4>(keys) else {
        return Err(Unanswered::Unclear);
    };
    let (enc, mac, header) = read;
    let [cla, ins, p1, p2] = header;
    if body.len() > MAX_PLAIN || ne > 65_536 || cla / 4 % 4 != 0 {
        return Err(Unanswered::Unclear);
    }
    let c = Command {
        cla,
        ins,
        p1,
        p2,
        body: body.as_slice(),
        ne,
    };
    let mut out = ArrayVec::new();
    channel(enc, mac, count).wrap(&c, &mut out);
    shown(alloc, out.as_slice())
}

/// `unwrap ENC MAC COUNT BYTES`: the command whose protected form the bytes are, or why they are refused.
pub fn unwrap(alloc: Global, words: &[&str]) -> Answer {
    let [enc, mac, count, sent] = words else {
        return Err(Unanswered::Unclear);
    };
    let count = number(count)?;
    let given = all_bytes(alloc, &[*enc, *mac, *sent])?;
    unwrapped(alloc, count, &given)
}

fn unwrapped(alloc: Global, count: u32, given: &[Vec<u8>]) -> Answer {
    let [keys @ .., sent] = given else {
        return Err(Unanswered::Unclear);
    };
    let Some(read) = two::<16, 16>(keys) else {
        return Err(Unanswered::Unclear);
    };
    let (enc, mac) = read;
    let mut body = ArrayVec::<u8, MAX_MESSAGE>::new();
    match channel(enc, mac, count).unwrap(sent, &mut body) {
        Ok(h) => shown_command(alloc, &h.with_body(body.as_slice())),
        Err(error) => refused(alloc, error),
    }
}

/// `seal ENC MAC COUNT STATUS CONTENT`: the protected form of the reply.
pub fn seal(alloc: Global, words: &[&str]) -> Answer {
    let [enc, mac, count, status, content] = words else {
        return Err(Unanswered::Unclear);
    };
    let count = number(count)?;
    let given = all_bytes(alloc, &[*enc, *mac, *status, *content])?;
    sealed(alloc, count, &given)
}

fn sealed(alloc: Global, count: u32, given: &[Vec<u8>]) -> Answer {
    let [keys @ .., content] = given else {
        return Err(Unanswered::Unclear);
    };
    let Some(read) = three::<16, 16, 2>(keys) else {
        return Err(Unanswered::Unclear);
    };
    let (enc, mac, status) = read;
    let Some(content) = buffer(content) else {
        return Err(Unanswered::Unclear);
    };
    let reply = Reply {
        content,
        status: Status(u16::from_be_bytes(status)),
    };
    if reply.content.len() > MAX_PLAIN {
        return Err(Unanswered::Unclear);
    }
    let mut out = ArrayVec::new();
    channel(enc, mac, count).seal(&reply, &mut out);
    shown(alloc, out.as_slice())
}

/// `unseal ENC MAC COUNT BYTES`: the reply whose protected form the bytes are, or why they are refused.
pub fn unseal(alloc: Global, words: &[&str]) -> Answer {
    let [enc, mac, count, sent] = words else {
        return Err(Unanswered::Unclear);
    };
    let count = number(count)?;
    let given = all_bytes(alloc, &[*enc, *mac, *sent])?;
    unsealed(alloc, count, &given)
}

fn unsealed(alloc: Global, count: u32, given: &[Vec<u8>]) -> Answer {
    let [keys @ .., sent] = given else {
        return Err(Unanswered::Unclear);
    };
    let Some(read) = two::<16, 16>(keys) else {
        return Err(Unanswered::Unclear);
    };
    let (enc, mac) = read;
    let mut reply = Reply {
        content: ArrayVec::new(),
        status: Status(0),
    };
    match channel(enc, mac, count).unseal(sent, &mut reply) {
        Ok(()) => shown_reply(alloc, &reply),
        Err(error) => refused(alloc, error),
    }
}
