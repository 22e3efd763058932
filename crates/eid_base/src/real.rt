//! The working folder and standard output. They tell no content, and count every failure.
ghost use Rattle.std.specs.Prelude.{◌≡◌, ◌≢◌, ◌≤◌, [], false, None};
ghost use Rattle.eid_base.specs.Seen.{FolderSeen, SinkSeen};
ghost use Rattle.eid_base.specs.Faults.{Rose};

use crate::memory::next_count;
use crate::outside::{Folder, IoError, Sink};
use crate::replacing::write_file;
use crate::transfer::{Broken, read_front, write_whole};
use std::alloc::Global;
use std::rt::Files;
use std::{fs, io};

/// The working folder, as the runtime has it.
#[derive(Drop)]
pub struct RealFolder<'a, R: Files> {
    rt: &'a R,
    alloc: Global,
    faults: u64,
}

impl<'a, R: Files> RealFolder<'a, R> {
    /// The working folder of this runtime, without a fault so far. It tells no content.
    pub fn new(rt: &'a R, alloc: Global) -> RealFolder<'a, R>
        ensures { ⟦<RealFolder<'a, R> as Folder>⟧.seen result ≡ record { tells = false; file = λ name. None; faults = 0 } }
    {
        RealFolder {
            rt,
            alloc,
            faults: 0,
        }
    }

    /// Counts a failure; a want of memory is none.
    fn counted(&mut self, broken: Broken) -> IoError
        ensures never_absent { result ≢ IoError.Absent }
        ensures later { self.old.faults ≤ self.new.faults }
        ensures fault { result ≡ IoError.Fault → Rose self.old.faults self.new.faults }
        ensures still { result ≢ IoError.Fault → self.new.faults ≡ self.old.faults }
    {
        match broken {
            Broken::Failed => {
                self.faults = next_count(self.faults);
                IoError::Fault
            }
            Broken::NoMemory => IoError::NoMemory,
        }
    }
}

impl<R: Files> Folder for RealFolder<'_, R> {
    ghost seen = { λ folder. record { tells = false; file = λ name. None; faults = folder.faults } };

    fn read(&mut self, alloc: Global, name: &str, limit: usize) -> Result<Vec<u8>, IoError> {
        let Ok(mut file) = fs::open(self.rt, name) else {
            return Err(self.counted(Broken::Failed));
        };
        match read_front(alloc, &mut file, limit + 1) {
            Ok(bytes) => Ok(bytes),
            Err(broken) => Err(self.counted(broken)),
        }
    }

    /// Replaces a regular file in one step, and leaves one alone that holds these bytes already.
    fn write(&mut self, name: &str, bytes: &[u8]) -> Result<(), IoError> {
        match write_file(self.rt, self.alloc, name, bytes) {
            Ok(()) => Ok(()),
            Err(broken) => Err(self.counted(broken)),
        }
    }
}

/// Standard output, as the runtime has it.
#[derive(Drop)]
pub struct RealSink<'a, R: Print> {
    rt: &'a R,
    faults: u64,
}

impl<'a, R: Print> RealSink<'a, R> {
    /// Standard output of this runtime, without a fault so far. It does not tell what was written.
    pub fn new(rt: &'a R) -> RealSink<'a, R>
        ensures { ⟦<RealSink<'a, R> as Sink>⟧.seen result ≡ record { tells = false; written = []; faults = 0 } }
    {
        RealSink { rt, faults: 0 }
    }
}

impl<R: Print> Sink for RealSink<'_, R> {
    ghost seen = { λ sink. record { tells = false; written = []; faults = sink.faults } };

    fn put(&mut self, bytes: &[u8]) -> Result<(), IoError> {
        if write_whole(&mut io::writer(self.rt), bytes) {
            Ok(())
        } else {
            self.faults = next_count(self.faults);
            Err(IoError::Fault)
        }
    }
}

#[cfg(test)]
mod tests {
    use super::*;
    use std::alloc::AllocError;
    use std::fs::Permissions;
    use std::os::unix::fs::{MetadataExt, PermissionsExt};
    use std::test::Fail;

    const NAME: &str = "eid_base-written";

    /// Writes to a file that is there: what each shows, how many bytes the file has and its last one, its permissions,
    /// how many bytes are written and their last one, and whether the file is left alone.
    #[rattlefmt::skip]
    const WRITES: &[(&str, usize, u8, u32, usize, u8, bool)] = &[
        ("the same bytes", 65536, 1, 0o600, 65536, 1, true),
        ("the same bytes, in a file that is only read", 4097, 1, 0o400, 4097, 1, true),
        ("another last byte", 65536, 1, 0o600, 65536, 2, false),
        ("more bytes", 4096, 1, 0o600, 4097, 1, false),
        ("fewer bytes", 4097, 1, 0o600, 4096, 1, false),
        ("other bytes, in a file that is only written", 4096, 1, 0o200, 4096, 2, false),
    ];

    /// Zeros, and behind them another byte.
    fn bytes_of(alloc: Global, count: usize, last: u8) -> Result<Vec<u8>, AllocError> {
        let mut bytes = Vec::new(alloc);
        bytes.resize(count.saturating_sub(1), 0)?;
        bytes.push(last)?;
        Ok(bytes)
    }

    #[test]
    fn a_file_that_holds_the_bytes_is_left_alone(rt: HostRuntime) -> Result<(), Fail> {
        for &(shown, before, last, mode, count, new_last, is_left) in WRITES {
            fs::write(&rt, NAME, bytes_of(rt.alloc(), before, last)?)?;
            fs::set_permissions(&rt, NAME, Permissions::from_mode(mode))?;
            let node = fs::metadata(&rt, NAME)?.ino();
            let written = bytes_of(rt.alloc(), count, new_last)?;
            let mut folder = RealFolder::new(&rt, rt.alloc());
            let result = folder.write(NAME, written.as_slice());
            assert!(rt; result.is_ok() && folder.faults == 0, "{shown}");
            assert_eq!(rt; fs::metadata(&rt, NAME)?.ino() == node, is_left, "{shown}");
            fs::set_permissions(&rt, NAME, Permissions::from_mode(0o600))?;
            assert_eq!(rt;
                fs::read(&rt, NAME)?.as_slice(),
                written.as_slice(),
                "{shown}"
            );
            fs::remove_file(&rt, NAME)?;
        }
        Ok(())
    }
}
