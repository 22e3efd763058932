//! The outside world, a folder of files and a sink of bytes.
ghost use Rattle.std.specs.Prelude.{◌≡◌, ◌≢◌, ◌+◌, ◌≤◌, IsTrue, IfOk, OnOk, OnErr, IsErrOf, IsSome, Some, None, vec_len};
ghost use Rattle.eid_base.specs.Faults.{HasCause};
ghost use Rattle.eid_base.specs.Seen.{FolderSeen, SinkSeen, SameFiles, SameOthers, front_of, IsLeftBy, Grew, GrewByPart};

use std::alloc::Global;

/// Why a folder or a sink did not do what it was asked.
#[derive(Clone, Copy)]
pub enum IoError {
    /// The folder tells its content, and has no file of this name.
    Absent,
    /// The folder or the sink failed.
    Fault,
    /// Memory was asked for and refused.
    NoMemory,
}

/// A folder of files, each with a name.
pub trait Folder {
    /// Whether it tells its content, what each name holds, and its count of faults.
    ghost seen: { Self → FolderSeen };

    /// The first `limit + 1` bytes of a file, or all where there are fewer. Changes no content. A folder that tells its
    /// content answers `Absent` exactly where it has no such file, but for a fault.
    fn read(&mut self, alloc: Global, name: &str, limit: usize) -> Result<Vec<u8>, IoError>
        requires { limit ≤ 16777216 }
        ensures found { IfOk result (λ bytes. IsTrue (seen self.old).tells → front_of (seen self.old) name.now limit ≡ Some bytes.items) }
        ensures bounded { IfOk result (λ bytes. vec_len bytes ≤ limit + 1) }
        ensures absent { IsErrOf result IoError.Absent → IsTrue (seen self.old).tells
            × ((seen self.old).file name.now ≡ None) }
        ensures there { IsErrOf result IoError.NoMemory → IsTrue (seen self.old).tells
            → IsSome ((seen self.old).file name.now) }
        ensures same { SameFiles (seen self.old) (seen self.new) }
        ensures cause { HasCause (seen self.old).faults (seen self.new).faults result };

    /// Makes the file hold these bytes and no others. After an error that name may be absent, hold
    /// what it held, or a front of the bytes.
    fn write(&mut self, name: &str, bytes: &[u8]) -> Result<(), IoError>
        ensures stored { OnOk result (IsTrue (seen self.old).tells → (seen self.new).file name.now ≡ Some bytes.now) }
        ensures left { OnErr result (IsTrue (seen self.old).tells → IsLeftBy ((seen self.old).file name.now) ((seen self.new).file name.now) bytes.now) }
        ensures others { SameOthers name.now (seen self.old) (seen self.new) }
        ensures never_absent { result ≢ Err IoError.Absent }
        ensures cause { HasCause (seen self.old).faults (seen self.new).faults result };
}

/// What takes the bytes that are written, one piece after the other.
pub trait Sink {
    /// Whether it tells the bytes written, these bytes, and its count of faults.
    ghost seen: { Self → SinkSeen };

    /// Writes a piece behind what was written. After an error a front of the piece was written.
    fn put(&mut self, bytes: &[u8]) -> Result<(), IoError>
        ensures tells { (seen self.new).tells ≡ (seen self.old).tells }
        ensures whole { OnOk result (IsTrue (seen self.old).tells → Grew (seen self.old).written (seen self.new).written bytes.now) }
        ensures part { OnErr result (IsTrue (seen self.old).tells → GrewByPart (seen self.old).written (seen self.new).written bytes.now) }
        ensures never_absent { result ≢ Err IoError.Absent }
        ensures cause { HasCause (seen self.old).faults (seen self.new).faults result };
}
