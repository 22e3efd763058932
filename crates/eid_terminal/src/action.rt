//! What a terminal does.
use arrayvec::ArrayVec;
use eid_apdu::Reply;
use eid_base::Status;
use eid_sm::MAX_MESSAGE;

/// A step of a session (BSI TR-03110-2).
#[derive(Clone, Copy)]
pub enum Step {
    /// PACE.
    Pace,
    /// Terminal authentication, with the import of certificates.
    Ta,
    /// Chip authentication.
    Ca,
    /// The selection of the application.
    Select,
}

/// The bytes of a command, at most 2,200.
pub type Message = ArrayVec<u8, MAX_MESSAGE>;

/// What a terminal does next; the command that it sends, and the reply that it heard, stand beside it.
#[derive(Clone, Copy)]
pub enum Deed {
    /// It sends the command, and waits for the reply.
    Send,
    /// A request has a result: the reply that was heard, to the last command that was sent for it.
    Result {
        /// The place of the request in the plan, from 0.
        request: u8,
    },
    /// A step succeeded.
    Passed {
        /// That step.
        step: Step,
    },
    /// All is done.
    Done,
    /// A step did not succeed.
    Stopped {
        /// The last step begun.
        step: Step,
        /// The status of the last reply, or 0000 where it cannot be read or unsealed.
        status: Status,
    },
    /// The coprocessor failed.
    Fault {
        /// The last step begun.
        step: Step,
    },
}

/// What a terminal does next, with the command that it sends, or the reply that is a result.
#[derive(Drop)]
pub enum Action {
    /// It sends these bytes, and waits for the reply.
    Send(Message),
    /// A request has a result.
    Result {
        /// The place of the request in the plan, from 0.
        request: u8,
        /// The plain reply to the last command that was sent for it.
        reply: Reply,
    },
    /// A step succeeded.
    Passed {
        /// That step.
        step: Step,
    },
    /// All is done.
    Done,
    /// A step did not succeed.
    Stopped {
        /// The last step begun.
        step: Step,
        /// The status of the last reply, or 0000 where it cannot be read or unsealed.
        status: Status,
    },
    /// The coprocessor failed.
    Fault {
        /// The last step begun.
        step: Step,
    },
}
