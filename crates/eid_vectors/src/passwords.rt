//! Questions about PACE and its passwords.
ghost use Rattle.std.specs.Prelude.{IfOk};
ghost use Rattle.eid_pace.specs.Check.{IsPaid};
ghost use Rattle.eid_pace.specs.View.{agreed_view};

use crate::coprocessors::{coprocessor, sides};
use crate::devices::spent;
use crate::words::{
    self, Piece, Unanswered, all_bytes, line, put_pieces, shown, small, three, truth, word,
};
use arrayvec::ArrayVec;
use eid_base::{Point, Rule};
use eid_bits::{Date6, Template};
use eid_cmac::SessionKeys;
use eid_copro::{AnyCopro, Coprocessor};
use eid_pace::{Agreed, Chosen, Done, Mapped, NonceSent};
use eid_record::{Password, Record, TrustPoint};
use eid_store::Receipt;
use std::alloc::Global;

/// A record with these passwords.
fn record(can: [u8; 6], pin: [u8; 6], puk: [u8; 10]) -> Result<Record, Unanswered> {
    let Ok(date) = Date6::from_bytes(&[2, 6, 0, 1, 0, 1]) else {
        return Err(Unanswered::Unclear);
    };
    let Ok(template) = Template::from_bytes(&[0xFE, 0x1F, 0xFF, 0xFF, 0x37]) else {
        return Err(Unanswered::Unclear);
    };
    Ok(Record {
        number: 0,
        tries: 3,
        unblocks: 10,
        active: true,
        pin,
        can,
        puk,
        date,
        current: TrustPoint {
            name: ArrayVec::new(),
            template,
            key: [4; 65],
        },
        previous: None,
        ca_secret: [0; 32],
        ri_secret: [0; 32],
        lengths: [None; 23],
    })
}

/// So many digits, as they are written.
fn digits<const N: usize>(word: &str) -> Result<[u8; N], Unanswered> {
    match <[u8; N]>::try_from(word.as_bytes()) {
        Ok(digits) => Ok(digits),
        Err(_) => Err(Unanswered::Unclear),
    }
}

/// The password that a word names.
fn password_in(word: &str) -> Result<Password, Unanswered> {
    match word {
        "can" => Ok(Password::Can),
        "pin" => Ok(Password::Pin),
        "puk" => Ok(Password::Puk),
        _ => Err(Unanswered::Unclear),
    }
}

/// `password CAN PIN PUK WHICH`: the digits of that password, in hexadecimal.
pub fn password(alloc: Global, words: &[&str]) -> words::Answer {
    let [can, pin, puk, which] = words else {
        return Err(Unanswered::Unclear);
    };
    let which = password_in(which)?;
    let kept = record(digits::<6>(can)?, digits::<6>(pin)?, digits::<10>(puk)?)?;
    shown(alloc, eid_password::digits(&kept, which))
}

/// A record with so many tries of the PIN, which is active or not.
fn record_with(tries: &str, active: &str) -> Result<Record, Unanswered> {
    let tries = small(tries)?;
    let active = truth(active)?;
    let mut kept = record(*b"654321", *b"123456", *b"0123456789")?;
    kept.tries = tries;
    kept.active = active;
    Ok(kept)
}

/// `may-start PASSWORD TRIES ACTIVE BY_CAN`: 0 where PACE may start with the password when the PIN has so many tries and
/// is active (`yes` or `no`), and the session's last PACE was with the CAN (`yes` or `no`); else the rule that fails.
pub fn may_start(alloc: Global, words: &[&str]) -> words::Answer {
    let [which, tries, active, by_can] = words else {
        return Err(Unanswered::Unclear);
    };
    let which = password_in(which)?;
    let by_can = truth(by_can)?;
    let kept = record_with(tries, active)?;
    let rule = match eid_password::may_start(&kept, which, by_can) {
        Ok(()) => 0,
        Err(rule) => rule.0,
    };
    line(alloc, &[Piece::Number(u32::from(rule))])
}

/// `select-status PASSWORD TRIES ACTIVE`: the status of the selection of the password when the PIN has so many tries and
/// is active (`yes` or `no`).
pub fn select_status(alloc: Global, words: &[&str]) -> words::Answer {
    let [which, tries, active] = words else {
        return Err(Unanswered::Unclear);
    };
    let which = password_in(which)?;
    let kept = record_with(tries, active)?;
    let status = eid_password::select_status(&kept, which);
    shown(alloc, &status.0.to_be_bytes())
}

/// `select BODY`: whether the body chooses a password, or the rule that fails.
pub fn select(alloc: Global, given: &[Vec<u8>]) -> words::Answer {
    let [body] = given else {
        return Err(Unanswered::Unclear);
    };
    match Chosen::select(body) {
        Ok(_) => word(alloc, "chosen"),
        Err(rule) => failed(alloc, rule),
    }
}

/// A rule that failed.
fn failed(alloc: Global, rule: Rule) -> words::Answer {
    line(
        alloc,
        &[Piece::Text("rule "), Piece::Number(u32::from(rule.0))],
    )
}

/// What the terminal sends, and what the chip sent so far.
#[derive(Drop)]
struct Talk {
    alloc: Global,
    map_point: Point,
    agree_point: Point,
    token: [u8; 8],
    sent: String,
}

impl Talk {
    /// Appends a word and bytes that the chip sends.
    fn put<'a>(&mut self, name: &'a str, bytes: &'a [u8]) -> Result<(), Unanswered> {
        let before = if self.sent.is_empty() { "" } else { " " };
        let pieces = [
            Piece::Text(before),
            Piece::Text(name),
            Piece::Text(" "),
            Piece::Bytes(bytes),
        ];
        put_pieces(self.alloc, &pieces, &mut self.sent)
    }

    /// Ends with the rule that failed, and how many questions were put.
    fn end(&mut self, rule: Rule, asks: usize) -> Result<(), Unanswered> {
        let before = if self.sent.is_empty() { "" } else { " " };
        let number = rule.0;
        let text = format!(in self.alloc; "{before}rule {number} after {asks} questions")?;
        self.sent.push_str(&text)?;
        Ok(())
    }

    fn select(
        &mut self,
        body: &[u8],
        kept: &Record,
        copro: &mut AnyCopro,
    ) -> Result<(), Unanswered> {
        match Chosen::select(body) {
            Ok(chosen) => self.send_nonce(chosen, kept, copro),
            Err(rule) => self.end(rule, 0),
        }
    }

    fn send_nonce(
        &mut self,
        chosen: Chosen,
        kept: &Record,
        copro: &mut AnyCopro,
    ) -> Result<(), Unanswered> {
        copro.make_room(1)?;
        match chosen.send_nonce(kept, false, copro) {
            Ok(given) => {
                let (next, sent) = given;
                self.put("nonce", &sent)?;
                self.map(next, copro)
            }
            Err(rule) => self.end(rule, copro.log().len()),
        }
    }

    fn map(&mut self, state: NonceSent, copro: &mut AnyCopro) -> Result<(), Unanswered> {
        copro.make_room(2)?;
        let peer = self.map_point;
        match state.map(&peer, copro) {
            Ok(given) => {
                let (next, sent) = given;
                self.put("map", &sent)?;
                self.agree(next, copro)
            }
            Err(rule) => self.end(rule, copro.log().len()),
        }
    }

    fn agree(&mut self, state: Mapped, copro: &mut AnyCopro) -> Result<(), Unanswered> {
        copro.make_room(2)?;
        let peer = self.agree_point;
        match state.agree(&peer, copro) {
            Ok(given) => {
                let (next, sent) = given;
                self.put("agree", &sent)?;
                self.check(next, copro.log().len())
            }
            Err(rule) => self.end(rule, copro.log().len()),
        }
    }

    fn check(&mut self, state: Agreed, asks: usize) -> Result<(), Unanswered> {
        let paid = pay(self.alloc, &state)?;
        let token = self.token;
        match state.check(&token, paid) {
            Ok(given) => {
                let (done, sent) = given;
                self.put("token", &sent)?;
                self.finish(&done)
            }
            Err(rule) => self.end(rule, asks),
        }
    }

    fn finish(&mut self, done: &Done) -> Result<(), Unanswered> {
        match &done.template {
            Some(template) => self.put("template", template.as_bytes())?,
            None => self.put("template", &[])?,
        }
        let SessionKeys::Short { enc, mac } = &done.keys;
        let pieces = [
            Piece::Text(" identity "),
            Piece::Bytes(&done.identity),
            Piece::Text(" enc "),
            Piece::Bytes(enc),
            Piece::Text(" mac "),
            Piece::Bytes(mac),
        ];
        put_pieces(self.alloc, &pieces, &mut self.sent)
    }
}

/// What is to be paid before the last step: with the PIN the receipt of a commit that took a try.
fn pay(alloc: Global, state: &Agreed) -> Result<Option<Receipt>, Unanswered>
    ensures { IfOk result (λ paid. IsPaid (agreed_view state.now).choice.password paid) }
{
    match state.password() {
        Password::Can => Ok(None),
        Password::Pin => Ok(Some(spent(alloc)?)),
        Password::Puk => Ok(None),
    }
}

/// `pace CAN BODY POINT POINT TOKEN = COPROCESSOR`: what the chip sends in a PACE in which the terminal sends that
/// body, those points and that token, and what the PACE leaves; or where it breaks off. The PIN is 123456 with three
/// tries, the PUK 0123456789, and the session's last PACE was not with the CAN.
pub fn pace(alloc: Global, words: &[&str]) -> words::Answer {
    let (terminal, copro) = sides(words)?;
    let [can, body, points @ ..] = terminal else {
        return Err(Unanswered::Unclear);
    };
    let kept = record(digits::<6>(can)?, *b"123456", *b"0123456789")?;
    let body = words::bytes(alloc, body)?;
    let mut talk = begin(alloc, points)?;
    let mut copro = coprocessor(alloc, copro)?;
    talk.select(&body, &kept, &mut copro)?;
    Ok(talk.sent)
}

/// What a terminal sends that has these two points and this token.
fn begin(alloc: Global, words: &[&str]) -> Result<Talk, Unanswered> {
    let given = all_bytes(alloc, words)?;
    let Some(read) = three::<65, 65, 8>(&given) else {
        return Err(Unanswered::Unclear);
    };
    let (map_point, agree_point, token) = read;
    Ok(Talk {
        alloc,
        map_point,
        agree_point,
        token,
        sent: String::new(alloc),
    })
}
