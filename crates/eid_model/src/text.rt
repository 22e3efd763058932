//! Writing the text of a moment.
ghost use Rattle.std.specs.Prelude.{◌≡◌, [], ◌++◌, OnOk, IfOk, codes, decimal, option_map};
ghost use Rattle.hex.specs.Hex.{encode_lower};
ghost use Rattle.eid_apdu.specs.Answer.{plain_reply, status_bytes, spelled};
ghost use Rattle.eid_apdu.specs.Command.{plain_command};
ghost use Rattle.eid_model.specs.Trace.{line, header_text, body_text, plain_text, bytes_text, answer_text, found_text, word_text, base_text, question_text, verdict_text, given_text, ask_text, asks_text, handled_text, command_lines, text};
ghost use Rattle.eid_model.specs.View as view;

use crate::moment::{InputRef, Moment, MomentRef};
use eid_apdu::{Command, Reply};
use eid_base::{NoMemory, Point, Status};
use eid_copro::{Answer, Ask, Question};
use std::alloc::Global;
use std::marker::Model;

/// A text that grows: moments are appended as a trace has them, and pieces of other lines. A contract sees its bytes.
/// `NoMemory` of an append is want of memory; the text may then have a part of what was to be appended.
#[derive(Drop)]
pub struct Text {
    bytes: Vec<u8>,
}

impl Model for Text {
    ghost use Rattle.std.specs.Prelude.{ℕ, List};

    ghost Value = { List ℕ };

    ghost view = { λ t. t.bytes.items };
}

impl Text {
    /// An empty text.
    pub fn new(alloc: Global) -> Text
        ensures { result ≡ [] }
    {
        Text {
            bytes: Vec::new(alloc),
        }
    }

    /// Its bytes.
    pub fn as_bytes(&self) -> &[u8]
        ensures { result.now ≡ self.now }
    {
        self.bytes.as_slice()
    }

    /// Takes its bytes away, and keeps their memory.
    pub fn clear(&mut self)
        ensures { self.new ≡ [] }
    {
        self.bytes.clear();
    }

    /// Appends bytes as they are.
    pub fn put(&mut self, bytes: &[u8]) -> Result<(), NoMemory>
        ensures { OnOk result (self.new ≡ self.old ++ bytes.now) }
    {
        self.bytes.extend_from_slice(bytes)?;
        Ok(())
    }

    /// Appends bytes in hexadecimal, in lower case.
    pub fn put_hex(&mut self, bytes: &[u8]) -> Result<(), NoMemory>
        ensures { OnOk result (self.new ≡ self.old ++ encode_lower bytes.now) }
    {
        eid_text::put_hex(bytes, &mut self.bytes)
    }

    /// Appends a number in decimal.
    pub fn put_decimal(&mut self, number: u32) -> Result<(), NoMemory>
        ensures { OnOk result (self.new ≡ self.old ++ decimal number) }
    {
        eid_text::put_decimal(number, &mut self.bytes)
    }

    /// Appends a line: its label, and bytes in hexadecimal or `none`.
    fn put_bytes_line(&mut self, label: &[u8], bytes: Option<&[u8]>) -> Result<(), NoMemory>
        ensures { OnOk result (self.new ≡ self.old ++ line label.now (bytes_text (option_map (λ b. b.now) bytes.entry))) }
    {
        self.put(label)?;
        match bytes {
            None => self.put(b"none")?,
            Some(bytes) => self.put_hex(bytes)?,
        }
        self.put(b"\n")
    }

    /// Appends a line: its label, and a number.
    fn put_number_line(&mut self, label: &[u8], number: u32) -> Result<(), NoMemory>
        ensures { OnOk result (self.new ≡ self.old ++ line label.now (decimal number)) }
    {
        self.put(label)?;
        self.put_decimal(number)?;
        self.put(b"\n")
    }

    /// Appends a header in hexadecimal: class, instruction and parameters.
    fn put_header(&mut self, c: &Command<'_>) -> Result<(), NoMemory>
        ensures { OnOk result (self.new ≡ self.old ++ header_text (plain_command c.now)) }
    {
        self.put_hex(&[c.cla])?;
        self.put(b" ")?;
        self.put_hex(&[c.ins])?;
        self.put(b" ")?;
        self.put_hex(&[c.p1, c.p2])
    }

    /// Appends a body in hexadecimal, or a dash.
    fn put_body(&mut self, body: &[u8]) -> Result<(), NoMemory>
        ensures { OnOk result (self.new ≡ self.old ++ body_text body.now) }
    {
        if body.is_empty() {
            self.put(b"-")
        } else {
            self.put_hex(body)
        }
    }

    /// Appends a plain command, or `none`.
    fn put_plain(&mut self, plain: &Option<Command<'_>>) -> Result<(), NoMemory>
        ensures { OnOk result (self.new ≡ self.old ++ plain_text (option_map plain_command plain.now)) }
    {
        let Some(c) = plain else {
            return self.put(b"none");
        };
        self.put_header(c)?;
        self.put(b" ")?;
        self.put_body(c.body)?;
        self.put(b" ")?;
        self.put_decimal(c.ne)
    }

    /// Appends the line of the plain command.
    fn put_plain_line(&mut self, plain: &Option<Command<'_>>) -> Result<(), NoMemory>
        ensures { OnOk result (self.new ≡ self.old ++ line (codes " plain ") (plain_text (option_map plain_command plain.now))) }
    {
        self.put(b" plain ")?;
        self.put_plain(plain)?;
        self.put(b"\n")
    }

    /// Appends the line of the answer: its data and status, or `none`.
    fn put_answer_line(&mut self, answer: Option<&Reply>) -> Result<(), NoMemory>
        ensures { OnOk result (self.new ≡ self.old ++ line (codes " answer ") (answer_text (option_map (λ reply. plain_reply reply.now) answer.entry))) }
    {
        self.put(b" answer ")?;
        match answer {
            None => self.put(b"none")?,
            Some(reply) => self.put_reply(reply)?,
        }
        self.put(b"\n")
    }

    /// Appends a reply in hexadecimal.
    #[tactic(auto, using(eid_text::proofs::Encoding::encode_parts))]
    fn put_reply(&mut self, reply: &Reply) -> Result<(), NoMemory>
        ensures { OnOk result (self.new ≡ self.old ++ encode_lower (spelled (plain_reply reply.now))) }
    {
        self.put_hex(reply.content.as_slice())?;
        self.put_status(reply.status)
    }

    /// Appends a status in hexadecimal, SW1 first.
    fn put_status(&mut self, status: Status) -> Result<(), NoMemory>
        ensures { OnOk result (self.new ≡ self.old ++ encode_lower (status_bytes status.0)) }
    {
        self.put_hex(&status.0.to_be_bytes())
    }

    /// Appends a space, and bytes in hexadecimal.
    fn put_word(&mut self, bytes: &[u8]) -> Result<(), NoMemory>
        ensures { OnOk result (self.new ≡ word_text self.old bytes.now) }
    {
        self.put(b" ")?;
        self.put_hex(bytes)
    }

    /// Appends a word, and behind it bytes in hexadecimal.
    fn put_one(&mut self, word: &[u8], bytes: &[u8]) -> Result<(), NoMemory>
        ensures { OnOk result (self.new ≡ self.old ++ word_text word.now bytes.now) }
    {
        self.put(word)?;
        self.put_word(bytes)
    }

    /// Appends the question for a pair, over a base or over the generator.
    fn put_pair_question(&mut self, base: &Option<Point>) -> Result<(), NoMemory>
        ensures { OnOk result (self.new ≡ self.old ++ base_text base.now) }
    {
        match base {
            None => self.put(b"pair -"),
            Some(base) => self.put_one(b"pair", base),
        }
    }

    /// Appends a word, and behind it bytes in hexadecimal, twice.
    fn put_two(&mut self, word: &[u8], first: &[u8], second: &[u8]) -> Result<(), NoMemory>
        ensures { OnOk result (self.new ≡ self.old ++ word_text (word_text word.now first.now) second.now) }
    {
        self.put_one(word, first)?;
        self.put_word(second)
    }

    /// Appends what the coprocessor was asked.
    #[tactic(auto, unfolding(crate::specs::Trace::question_text))]
    fn put_question(&mut self, question: &Question) -> Result<(), NoMemory>
        ensures { OnOk result (self.new ≡ self.old ++ question_text question.now) }
    {
        match question {
            Question::Nonce => self.put(b"nonce"),
            Question::Challenge => self.put(b"challenge"),
            Question::Pair { base } => self.put_pair_question(base),
            Question::Map {
                nonce,
                secret,
                peer,
            } => {
                self.put_two(b"map", nonce, secret)?;
                self.put_word(peer)
            }
            Question::Agree { secret, peer } => self.put_two(b"agree", secret, peer),
            Question::Verify {
                key,
                digest,
                signature,
            } => {
                self.put_two(b"verify", key, digest)?;
                self.put_word(signature)
            }
            Question::Sign { secret, digest } => self.put_two(b"sign", secret, digest),
        }
    }

    /// Appends a verdict.
    fn put_verdict(&mut self, good: bool) -> Result<(), NoMemory>
        ensures { OnOk result (self.new ≡ self.old ++ verdict_text good) }
    {
        if good {
            self.put(b"yes")
        } else {
            self.put(b"no")
        }
    }

    /// Appends what the coprocessor answered.
    #[tactic(auto, unfolding(crate::specs::Trace::given_text))]
    fn put_given(&mut self, answer: &Answer) -> Result<(), NoMemory>
        ensures { OnOk result (self.new ≡ self.old ++ given_text answer.now) }
    {
        match answer {
            Answer::Nonce(nonce) => self.put_hex(nonce),
            Answer::Challenge(challenge) => self.put_hex(challenge),
            Answer::Pair { secret, public } => {
                self.put_hex(secret)?;
                self.put_word(public)
            }
            Answer::Mapped(base) => self.put_hex(base),
            Answer::Shared(shared) => self.put_hex(shared),
            Answer::NoPoint => self.put(b"none"),
            Answer::Verdict(good) => self.put_verdict(*good),
            Answer::Signed(signature) => self.put_hex(signature),
            Answer::Fault => self.put(b"fault"),
        }
    }

    /// Appends the line of a question with its answer.
    fn put_ask(&mut self, ask: &Ask) -> Result<(), NoMemory>
        ensures { OnOk result (self.new ≡ self.old ++ ask_text ask.now) }
    {
        self.put(b" ask ")?;
        self.put_question(&ask.question)?;
        self.put(b" = ")?;
        self.put_given(&ask.answer)?;
        self.put(b"\n")
    }

    /// Appends a line for each question with its answer.
    fn put_asks(&mut self, asks: &[Ask]) -> Result<(), NoMemory>
        ensures { OnOk result (self.new ≡ self.old ++ asks_text asks.now) }
    {
        for ask in asks {
            self.put_ask(ask)?;
        }
        Ok(())
    }

    /// Appends what the moment of a command says behind its bytes.
    fn put_handled(&mut self, m: &MomentRef<'_>) -> Result<(), NoMemory>
        ensures { OnOk result (self.new ≡ self.old ++ handled_text (view.moment_ref m.now)) }
    {
        self.put_plain_line(&m.plain)?;
        self.put_asks(m.asks)?;
        self.put_number_line(b" finished ", u32::from(m.finished))?;
        self.put_number_line(b" rule ", u32::from(m.rule.0))?;
        self.put_answer_line(m.answer)?;
        self.put_bytes_line(b" sent ", m.sent)
    }

    /// Appends the line of a power-on.
    fn put_on(&mut self, found: Option<u32>) -> Result<(), NoMemory>
        ensures { OnOk result (self.new ≡ self.old ++ line (codes "on ") (found_text found)) }
    {
        match found {
            None => self.put(b"on lost\n"),
            Some(number) => self.put_number_line(b"on ", number),
        }
    }

    /// Appends the text of a command's moment.
    fn put_command(&mut self, bytes: &[u8], m: &MomentRef<'_>) -> Result<(), NoMemory>
        ensures { OnOk result (self.new ≡ self.old ++ command_lines bytes.now (view.moment_ref m.now)) }
    {
        self.put_bytes_line(b"apdu ", Some(bytes))?;
        self.put_handled(m)
    }

    /// Appends the text of a moment.
    ///
    /// # Errors
    /// `NoMemory` where memory for it is refused. What the text holds then is not said; `clear` makes it
    /// empty.
    pub fn put_moment(&mut self, m: &MomentRef<'_>) -> Result<(), NoMemory>
        ensures { OnOk result (self.new ≡ self.old ++ text (view.moment_ref m.now)) }
    {
        match &m.input {
            InputRef::On { found } => self.put_on(*found),
            InputRef::Off => self.put(b"off\n"),
            InputRef::Apdu(bytes) => self.put_command(bytes, m),
        }
    }
}

/// The text of a moment, as a trace has it.
///
/// # Errors
/// `NoMemory` where memory for the text is refused.
pub fn trace_text(alloc: Global, m: &Moment) -> Result<Vec<u8>, NoMemory>
    ensures { IfOk result (λ written. written.items ≡ text (view.moment m.now)) }
{
    let mut out = Text::new(alloc);
    out.put_moment(&m.borrowed())?;
    Ok(out.bytes)
}
