//! A sink for what nobody reads.
use eid_base::{IoError, Sink};

/// A sink that keeps nothing.
#[derive(Drop)]
pub struct Quiet;

impl Sink for Quiet {
    ghost use Rattle.eid_run.specs.Attempts.{quiet_seen};

    ghost seen = { quiet_seen };

    fn put(&mut self, _bytes: &[u8]) -> Result<(), IoError> {
        Ok(())
    }
}
