//! Storing the file that a command makes.
ghost use Rattle.std.specs.Prelude.{◌≡◌, ◌≢◌};
ghost use Rattle.eid_inputs.specs.Storing.{IsStored};

use crate::exit::Exit;
use eid_base::{Folder, IoError};

/// Makes a file hold these bytes and no others, and gives the exit that comes of it.
pub fn store_file<F: Folder>(folder: &mut F, name: &str, bytes: &[u8]) -> Exit
    ensures stored { IsStored name.now bytes.now (F.seen folder.old) (F.seen folder.new) result }
    ensures faults { result ≢ Exit.FileFault → (F.seen folder.new).faults ≡ (F.seen folder.old).faults }
{
    match folder.write(name, bytes) {
        Ok(()) => Exit::Done,
        Err(IoError::NoMemory) => Exit::NoMemory,
        Err(_) => Exit::FileFault,
    }
}
