use std::alloc::{AllocError, AllocFailed};

/// The two status bytes of a reply, SW1 and SW2, as one number (ISO/IEC 7816-4).
#[derive(Clone, Copy, Debug, PartialEq, Eq, Hash)]
pub struct Status(pub u16);

/// The number of the rule that a command failed; 0 is none. The numbers are this project's own.
#[derive(Clone, Copy, Debug, PartialEq, Eq, Hash)]
pub struct Rule(pub u8);

/// Memory was asked for and refused.
#[derive(Clone, Copy, Debug, PartialEq, Eq, Hash)]
pub struct NoMemory;

impl From<AllocError> for NoMemory {
    fn from(_: AllocError) -> Self {
        NoMemory
    }
}

impl<T: Drop> From<AllocFailed<T>> for NoMemory {
    fn from(_: AllocFailed<T>) -> Self {
        NoMemory
    }
}

/// There is no room in a fixed buffer for what was to be written.
#[derive(Clone, Copy, Debug, PartialEq, Eq, Hash)]
pub struct Full;

/// Why a run of a script or of a session broke off.
#[derive(Clone, Copy)]
pub enum RunError {
    /// The sink failed.
    SinkFault,
    /// Memory was asked for and refused.
    NoMemory,
}
