//! What the chip receives and sends of one command.
ghost use Rattle.std.specs.Prelude.{◌≡◌, [], option_map};
ghost use Rattle.eid_apdu.specs.Answer.{plain_reply};
ghost use Rattle.eid_model.specs.Answers.{status_alone};
ghost use Rattle.eid_model.specs.View as view;
ghost use Rattle.eid_sm.specs.Plain.{plain_of};

use arrayvec::ArrayVec;
use eid_apdu::Reply;
use eid_base::{Rule, Status};
use eid_model::{MAX_BODY, Plain};
use eid_sm::Header;

/// The bytes of one command and its answer. It is kept from one command to the next, so that no buffer
/// is filled anew.
#[derive(Drop)]
pub struct Exchange {
    /// The body of the plain command, where there is one.
    pub body: ArrayVec<u8, MAX_BODY>,
    /// The reply before secure messaging.
    pub reply: Reply,
    /// The bytes sent.
    pub sent: ArrayVec<u8, MAX_BODY>,
}

impl Exchange {
    /// An exchange in which nothing was said.
    pub fn new() -> Exchange
        ensures body { result.body.items ≡ [] }
        ensures reply { plain_reply result.reply ≡ status_alone 0x9000 }
        ensures sent { result.sent.items ≡ [] }
    {
        Exchange {
            body: ArrayVec::new(),
            reply: Reply {
                content: ArrayVec::new(),
                status: Status(0x9000),
            },
            sent: ArrayVec::new(),
        }
    }
}

/// What came of the bytes of a command, beside the bytes of its exchange.
#[derive(Clone, Copy)]
pub enum HandledIn {
    /// The chip has no power.
    Silent,
    /// The chip answered.
    Answered {
        /// The plain command without its body, where the bytes are one.
        plain: Option<Header>,
        /// How many commits finished.
        finished: u8,
        /// The first failed rule, or 0.
        rule: Rule,
    },
    /// The power was cut in a commit.
    Lost {
        /// The plain command without its body, where the bytes are one.
        plain: Option<Header>,
        /// How many commits finished before it.
        finished: u8,
    },
}

/// What came of the bytes of a command.
#[derive(Drop)]
pub enum Handled {
    /// The chip has no power.
    Silent,
    /// The chip answered.
    Answered {
        /// The plain command, where the bytes are one.
        plain: Option<Plain>,
        /// How many commits finished.
        finished: u8,
        /// The first failed rule, or 0.
        rule: Rule,
        /// The answer before secure messaging.
        answer: Reply,
        /// The bytes sent.
        sent: ArrayVec<u8, MAX_BODY>,
    },
    /// The power was cut in a commit.
    Lost {
        /// The plain command, where the bytes are one.
        plain: Option<Plain>,
        /// How many commits finished before it.
        finished: u8,
    },
}

/// A plain command with a body of its own.
fn plain_with(header: Header, body: ArrayVec<u8, MAX_BODY>) -> Plain
    ensures { view.plain result ≡ plain_of header body.items }
{
    Plain {
        cla: header.cla,
        ins: header.ins,
        p1: header.p1,
        p2: header.p2,
        body,
        ne: header.ne,
    }
}

/// The plain command with a body of its own, where there is one.
fn own_plain(plain: Option<Header>, body: ArrayVec<u8, MAX_BODY>) -> Option<Plain>
    ensures { option_map view.plain result ≡ option_map (λ header. plain_of header body.items) plain }
{
    match plain {
        None => None,
        Some(header) => Some(plain_with(header, body)),
    }
}

impl HandledIn {
    ghost use Rattle.eid_chip.specs.Endings.{is_loss};
    ghost use Rattle.eid_chip.specs.Fits.{came, came_in};

    /// Whether the power was cut in a commit.
    pub fn is_loss(&self) -> bool
        ensures { result ≡ is_loss self.now }
    {
        match self {
            HandledIn::Silent => false,
            HandledIn::Answered { .. } => false,
            HandledIn::Lost { .. } => true,
        }
    }

    /// The same with the bytes of its exchange.
    pub fn with(self, exchange: Exchange) -> Handled
        ensures { came result ≡ came_in exchange self }
    {
        match self {
            HandledIn::Silent => Handled::Silent,
            HandledIn::Answered {
                plain,
                finished,
                rule,
            } => Handled::Answered {
                plain: own_plain(plain, exchange.body),
                finished,
                rule,
                answer: exchange.reply,
                sent: exchange.sent,
            },
            HandledIn::Lost { plain, finished } => Handled::Lost {
                plain: own_plain(plain, exchange.body),
                finished,
            },
        }
    }
}
