//! What happened at one moment.
ghost use Rattle.std.specs.Prelude.{◌≡◌, option_map};
ghost use Rattle.eid_apdu.specs.Command.{plain_command};
ghost use Rattle.eid_model.specs.View as view;

use arrayvec::ArrayVec;
use eid_apdu::{Command, Reply};
use eid_base::Rule;
use eid_copro::Ask;

/// The longest body of one command, in bytes.
pub const MAX_BODY: usize = 2200;

/// What came from outside.
#[derive(Drop)]
pub enum Input {
    /// Power, and the commit number that was found, or none where mounting was cut.
    On {
        /// The number of commits since personalisation.
        found: Option<u32>,
    },
    /// Power was taken away.
    Off,
    /// The bytes of a command.
    Apdu(Vec<u8>),
}

/// A command after secure messaging was taken off, with a body of its own.
#[derive(Drop)]
pub struct Plain {
    /// The class byte.
    pub cla: u8,
    /// The instruction byte.
    pub ins: u8,
    /// The first parameter byte.
    pub p1: u8,
    /// The second parameter byte.
    pub p2: u8,
    /// The command data field.
    pub body: ArrayVec<u8, MAX_BODY>,
    /// How many bytes of reply data are expected at most; 0 where no length is expected.
    pub ne: u32,
}

/// One moment of a journal.
#[derive(Drop)]
pub struct Moment {
    /// What came.
    pub input: Input,
    /// The plain command, where there is one.
    pub plain: Option<Plain>,
    /// The questions to the coprocessor with their answers, the first one first.
    pub asks: Vec<Ask>,
    /// How many commits finished.
    pub finished: u8,
    /// The first failed rule, or 0.
    pub rule: Rule,
    /// The answer before secure messaging, where there is one.
    pub answer: Option<Reply>,
    /// The bytes sent, where there are any.
    pub sent: Option<ArrayVec<u8, MAX_BODY>>,
}

/// What came from outside, over bytes that stand elsewhere.
#[derive(Clone, Copy)]
pub enum InputRef<'a> {
    /// As `Input::On`.
    On {
        /// The number of commits since personalisation.
        found: Option<u32>,
    },
    /// Power was taken away.
    Off,
    /// The bytes of a command.
    Apdu(&'a [u8]),
}

/// One moment of a journal, over bytes that stand elsewhere: what a run writes, without a copy.
#[derive(Clone, Copy)]
pub struct MomentRef<'a> {
    /// What came.
    pub input: InputRef<'a>,
    /// The plain command, where there is one.
    pub plain: Option<Command<'a>>,
    /// The questions to the coprocessor with their answers, the first one first.
    pub asks: &'a [Ask],
    /// How many commits finished.
    pub finished: u8,
    /// The first failed rule, or 0.
    pub rule: Rule,
    /// The answer before secure messaging, where there is one.
    pub answer: Option<&'a Reply>,
    /// The bytes sent, where there are any.
    pub sent: Option<&'a [u8]>,
}

impl Input {
    /// The input over its own bytes.
    pub fn borrowed(&self) -> InputRef<'_>
        ensures { view.event_ref result ≡ view.event self.now }
    {
        match self {
            Input::On { found } => InputRef::On { found: *found },
            Input::Off => InputRef::Off,
            Input::Apdu(bytes) => InputRef::Apdu(bytes.as_slice()),
        }
    }
}

impl Plain {
    /// The command over its own body.
    pub fn borrowed(&self) -> Command<'_>
        ensures { plain_command result ≡ view.plain self.now }
    {
        Command {
            cla: self.cla,
            ins: self.ins,
            p1: self.p1,
            p2: self.p2,
            body: self.body.as_slice(),
            ne: self.ne,
        }
    }
}

/// A command over its own body, where there is one.
fn borrowed_plain(plain: &Option<Plain>) -> Option<Command<'_>>
    ensures { option_map plain_command result ≡ option_map view.plain plain.now }
{
    match plain {
        None => None,
        Some(plain) => Some(plain.borrowed()),
    }
}

impl Moment {
    /// The moment over its own bytes.
    pub fn borrowed(&self) -> MomentRef<'_>
        ensures { view.moment_ref result ≡ view.moment self.now }
    {
        MomentRef {
            input: self.input.borrowed(),
            plain: borrowed_plain(&self.plain),
            asks: self.asks.as_slice(),
            finished: self.finished,
            rule: self.rule,
            answer: self.answer.as_ref(),
            sent: self.sent.as_ref().map(|sent| sent.as_slice()),
        }
    }
}
