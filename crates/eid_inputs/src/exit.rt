//! How the program ends.
ghost use Rattle.std.specs.Prelude.{◌≡◌};
ghost use Rattle.eid_inputs.specs.Exits.{exit_status};
ghost use Rattle.eid_inputs.specs.Exits.{exit_broken, exit_not_printed, exit_refused};

use eid_base::{IoError, RunError};
use eid_perso::ConfigError;

/// What the program ends in. The exit statuses are 0 to 8 in this order.
#[derive(Clone, Copy)]
pub enum Exit {
    /// The work is done.
    Done,
    /// The words are none of the program's.
    Usage,
    /// The folder failed, or an input file is absent.
    FileFault,
    /// Memory was asked for and refused.
    NoMemory,
    /// The image stands for no record.
    BadImage,
    /// The script is none: the first line that is not of its grammar, or 0.
    BadScript {
        /// The line, from 1.
        line: u32,
    },
    /// The configuration is none: the first key that is absent or refused, or 0.
    BadConfig {
        /// The key's number.
        key: u8,
    },
    /// The sink failed.
    SinkFault,
    /// The answers are none: the first line that is not of their grammar, or 0.
    BadAnswers {
        /// The line, from 1.
        line: u32,
    },
}

impl Exit {
    /// The exit status of the process.
    pub fn status(self) -> u8
        ensures { result ≡ exit_status self }
    {
        match self {
            Exit::Done => 0,
            Exit::Usage => 1,
            Exit::FileFault => 2,
            Exit::NoMemory => 3,
            Exit::BadImage => 4,
            Exit::BadScript { .. } => 5,
            Exit::BadConfig { .. } => 6,
            Exit::SinkFault => 7,
            Exit::BadAnswers { .. } => 8,
        }
    }

    /// The exit of a run that broke off.
    pub fn of_run(error: RunError) -> Exit
        ensures { result ≡ exit_broken error }
    {
        match error {
            RunError::SinkFault => Exit::SinkFault,
            RunError::NoMemory => Exit::NoMemory,
        }
    }

    /// The exit of a configuration or plan that is refused.
    pub fn of_config(error: ConfigError) -> Exit
        ensures { result ≡ exit_refused error }
    {
        match error {
            ConfigError::Bad { key } => Exit::BadConfig { key },
            ConfigError::NoMemory => Exit::NoMemory,
        }
    }

    /// The exit of a write to a sink that failed.
    pub fn of_put(error: IoError) -> Exit
        ensures { result ≡ exit_not_printed error }
    {
        match error {
            IoError::NoMemory => Exit::NoMemory,
            IoError::Absent | IoError::Fault => Exit::SinkFault,
        }
    }
}
