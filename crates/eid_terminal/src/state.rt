//! Where a terminal stands between two calls.
use crate::action::{Deed, Step};
use crate::plan::Request;
use arrayvec::ArrayVec;
use eid_base::{Point, Secret, Signature, Status};
use eid_bits::Template;
use eid_record::Password;

/// What a PACE is made with.
#[derive(Drop)]
pub struct Terms {
    /// The password.
    pub password: Password,
    /// Its digits.
    pub digits: ArrayVec<u8, 10>,
    /// The holder's template, where one is sent.
    pub template: Option<Template>,
}

/// Which PACE it is.
#[derive(Clone, Copy)]
pub enum Round {
    /// The one with the card access number before that with the password.
    Can,
    /// The one with the password.
    Password,
}

/// An ephemeral key pair of the terminal.
#[derive(Clone, Copy)]
pub struct Pair {
    /// The secret.
    pub secret: Secret,
    /// Its public point.
    pub point: Point,
}

/// The command of PACE whose reply is due, with what later steps need.
#[derive(Drop)]
pub enum PaceCommand {
    /// MSE:Set AT for PACE.
    Selection {
        round: Round,
        terms: Terms,
    },
    /// The first step.
    Nonce {
        round: Round,
        digits: ArrayVec<u8, 10>,
    },
    /// The second step, to which the pair's point was sent.
    Mapping {
        round: Round,
        nonce: [u8; 16],
        pair: Pair,
    },
    /// The third step, to which the pair's point was sent.
    Agreement {
        round: Round,
        pair: Pair,
    },
    /// The fourth step: the secret, the terminal's ephemeral point and the chip's.
    Token {
        round: Round,
        shared: [u8; 32],
        point: Point,
        peer: Point,
    },
}

/// The command of terminal authentication whose reply is due, with what later steps need. `identity` is the chip's in
/// PACE.
#[derive(Drop)]
pub enum TerminalCommand {
    /// MSE:Set DST for the certificate at this place.
    KeySelection { identity: [u8; 32], place: usize },
    /// The certificate at this place.
    Certificate { identity: [u8; 32], place: usize },
    /// MSE:Set AT for terminal authentication.
    Announcement { identity: [u8; 32], pair: Pair },
    /// GET CHALLENGE.
    Challenge { identity: [u8; 32], pair: Pair },
    /// EXTERNAL AUTHENTICATE.
    Signature { pair: Pair, signature: Signature },
}

/// The command of chip authentication, or of the selection behind it, whose reply is due, with what later steps need.
#[derive(Drop)]
pub enum ChipCommand {
    /// MSE:Set AT for chip authentication.
    Selection { pair: Pair },
    /// GENERAL AUTHENTICATE.
    Proof { pair: Pair },
    /// The selection of the application.
    Application,
}

/// The command of the request at this place whose reply is due.
#[derive(Drop)]
pub enum RequestCommand {
    /// Its first one.
    First { request: Request, place: u8 },
    /// The sector key of restricted identification.
    Sector { place: u8 },
}

/// The command whose reply is due.
#[derive(Drop)]
pub enum Awaited {
    Pace(PaceCommand),
    Terminal(TerminalCommand),
    Chip(ChipCommand),
    Request(RequestCommand),
}

/// Where the terminal goes on without a reply.
#[derive(Drop)]
pub enum Standing {
    /// Before the first command.
    Start,
    /// Behind the PACE with the card access number.
    OpenedByCan,
    /// Behind the PACE with the password.
    Opened { identity: [u8; 32] },
    /// Behind terminal authentication.
    TerminalProven { pair: Pair },
    /// Behind chip authentication.
    ChipProven,
    /// Before the request at this place.
    Requests { place: u8 },
}

/// How a terminal ended.
#[derive(Clone, Copy)]
pub enum Ending {
    /// All was done.
    Done,
    /// A step did not succeed.
    Stopped { step: Step, status: Status },
    /// The coprocessor failed.
    Fault { step: Step },
}

/// Where a terminal stands, apart from its channel.
#[derive(Drop)]
pub enum State {
    /// A command was sent, which the channel counted where one is open.
    Waiting(Awaited),
    /// No reply is due.
    Ready(Standing),
    /// Nothing comes any more, and the channel is not used again.
    Ended(Ending),
}

/// What a terminal does, and where it stands then.
#[derive(Drop)]
pub struct Turn {
    pub state: State,
    pub deed: Deed,
}
