//! A folder and a sink in memory. They tell everything, and fail in the calls that are listed.
ghost use Rattle.std.specs.Prelude.{◌≡◌, ◌≢◌, ◌+◌, ◌≤◌, [], ◌∷◌, ◌++◌, take, false, vec_len, ◌==◌, IfOk, OnOk, OnErr, IsErrOf, IsSome, option_map};
ghost use Rattle.std.specs.List.{list_any};
ghost use Rattle.eid_base.specs.Faults.{next_number};
ghost use Rattle.eid_base.specs.Seen.{SameOthers, front_of};
ghost use Rattle.eid_base.specs.Files.{MemoryFiles, MemoryBytes, file_in, plain_files, folder_seen, sink_seen, fails_next, is_fault, called, stored, wrote};

use crate::outside::{Folder, IoError, Sink};
use std::alloc::{AllocError, Global};
use std::marker::Model;

/// The next number of a count, which stands still at the end of its type.
pub(crate) fn next_count(count: u64) -> u64
    ensures { result ≡ next_number count }
{
    count.saturating_add(1)
}

/// Whether the call of this number is one of those that fail.
fn is_listed(fail: &[u32], call: u64) -> bool
    ensures { result ≡ list_any (λ n. n == call) fail.now }
{
    fail.iter().any(|n| u64::from(*n) == call)
}

/// What the name holds: of equal names the last one counts.
#[tactic(auto, using(crate::proofs::FilesLemmas::file_in_more))]
fn find<'a>(files: &'a [(String, Vec<u8>)], name: &str) -> Option<&'a [u8]>
    ensures { option_map (λ bytes. bytes.now) result ≡ file_in (plain_files files.now) name.now }
{
    let mut held = None;
    for file in files {
        if file.0.as_str() == name {
            held = Some(file.1.as_slice());
        }
    }
    held
}

/// A folder in memory.
#[derive(Drop)]
pub struct MemoryFolder {
    alloc: Global,
    files: Vec<(String, Vec<u8>)>,
    fail: Vec<u32>,
    calls: u64,
    faults: u64,
}

impl Model for MemoryFolder {
    ghost Value = { MemoryFiles };

    ghost view = { λ m. record { files = plain_files m.files.items; fail = m.fail.items; calls = m.calls; faults = m.faults } };
}

impl MemoryFolder {
    /// A folder with these files; of equal names the last one counts. `fail` lists the numbers of the
    /// calls of `read` and `write`, from 1, that fail.
    pub fn new(alloc: Global, files: Vec<(String, Vec<u8>)>, fail: Vec<u32>) -> MemoryFolder
        ensures { result ≡ record { files = plain_files files.items; fail = fail.items; calls = 0; faults = 0 } }
    {
        MemoryFolder {
            alloc,
            files,
            fail,
            calls: 0,
            faults: 0,
        }
    }

    /// What the name holds, `None` exactly where it is absent.
    pub fn file(&self, name: &str) -> Option<&[u8]>
        ensures { option_map (λ bytes. bytes.now) result ≡ file_in self.now.files name.now }
    {
        find(&self.files, name)
    }
}

/// The first bytes of a slice in memory of their own, at most this many.
fn front(alloc: Global, bytes: &[u8], most: usize) -> Result<Vec<u8>, AllocError>
    ensures { IfOk result (λ v. v.items ≡ take most bytes.now) }
{
    let count = bytes.len().min(most);
    bytes[..count].to_vec(alloc)
}

/// Appends a file to a list of files.
fn append(
    alloc: Global,
    files: &mut Vec<(String, Vec<u8>)>,
    name: &str,
    bytes: &[u8],
) -> Result<(), AllocError>
    ensures ok { OnOk result (plain_files files.new.items ≡ plain_files files.old.items ++ (name.now, bytes.now) ∷ []) }
    ensures err { OnErr result (files.new.items ≡ files.old.items) }
{
    let file = (String::from_str(alloc, name)?, bytes.to_vec(alloc)?);
    files.push(file)?;
    Ok(())
}

#[tactic(auto, using(crate::proofs::FilesLemmas::file_in_same, crate::proofs::FilesLemmas::file_in_other))]
impl Folder for MemoryFolder {
    ghost seen = { folder_seen };

    /// Fails exactly in the calls that are listed, and counts these faults alone. Changes no file.
    fn read(&mut self, alloc: Global, name: &str, limit: usize) -> Result<Vec<u8>, IoError>
        requires { limit ≤ 16777216 }
        ensures found { IfOk result (λ bytes. front_of (folder_seen self.old) name.now limit ≡ Some bytes.items) }
        ensures bounded { IfOk result (λ bytes. vec_len bytes ≤ limit + 1) }
        ensures absent { IsErrOf result IoError.Absent → file_in self.old.files name.now ≡ None }
        ensures there { IsErrOf result IoError.NoMemory → IsSome (file_in self.old.files name.now) }
        ensures fails { is_fault result ≡ fails_next self.old.fail self.old.calls }
        ensures same { self.new ≡ called (is_fault result) self.old }
        ensures later { self.old.faults ≤ self.new.faults }
    {
        self.calls = next_count(self.calls);
        if is_listed(&self.fail, self.calls) {
            self.faults = next_count(self.faults);
            return Err(IoError::Fault);
        }
        let Some(bytes) = find(&self.files, name) else {
            return Err(IoError::Absent);
        };
        match front(alloc, bytes, limit + 1) {
            Ok(bytes) => Ok(bytes),
            Err(_) => Err(IoError::NoMemory),
        }
    }

    /// Fails exactly in the calls that are listed, and counts these faults alone. Changes nothing
    /// where it does not answer Ok.
    fn write(&mut self, name: &str, bytes: &[u8]) -> Result<(), IoError>
        ensures stored { OnOk result (self.new ≡ stored name.now bytes.now self.old) }
        ensures content { OnOk result (file_in self.new.files name.now ≡ Some bytes.now) }
        ensures others { SameOthers name.now (folder_seen self.old) (folder_seen self.new) }
        ensures same { OnErr result (self.new ≡ called (is_fault result) self.old) }
        ensures later { self.old.faults ≤ self.new.faults }
        ensures fails { is_fault result ≡ fails_next self.old.fail self.old.calls }
        ensures never_absent { result ≢ Err IoError.Absent }
    {
        self.calls = next_count(self.calls);
        if is_listed(&self.fail, self.calls) {
            self.faults = next_count(self.faults);
            return Err(IoError::Fault);
        }
        match append(self.alloc, &mut self.files, name, bytes) {
            Ok(()) => Ok(()),
            Err(_) => Err(IoError::NoMemory),
        }
    }
}

/// A sink in memory.
#[derive(Drop)]
pub struct MemorySink {
    written: Vec<u8>,
    fail: Vec<u32>,
    calls: u64,
    faults: u64,
}

impl Model for MemorySink {
    ghost Value = { MemoryBytes };

    ghost view = { λ m. record { written = m.written.items; fail = m.fail.items; calls = m.calls; faults = m.faults } };
}

impl MemorySink {
    /// An empty sink. `fail` lists the numbers of the calls of `put`, from 1, that fail.
    pub fn new(alloc: Global, fail: Vec<u32>) -> MemorySink
        ensures { result ≡ record { written = []; fail = fail.items; calls = 0; faults = 0 } }
    {
        MemorySink {
            written: Vec::new(alloc),
            fail,
            calls: 0,
            faults: 0,
        }
    }

    /// The bytes written so far.
    pub fn bytes(&self) -> &[u8]
        ensures { result.now ≡ self.now.written }
    {
        self.written.as_slice()
    }
}

impl Sink for MemorySink {
    ghost seen = { sink_seen };

    /// Fails exactly in the calls that are listed, and counts these faults alone. Writes nothing where
    /// it does not answer Ok.
    fn put(&mut self, bytes: &[u8]) -> Result<(), IoError>
        ensures written { OnOk result (self.new ≡ wrote bytes.now false self.old) }
        ensures same { OnErr result (self.new ≡ wrote [] (is_fault result) self.old) }
        ensures later { self.old.faults ≤ self.new.faults }
        ensures fails { is_fault result ≡ fails_next self.old.fail self.old.calls }
        ensures never_absent { result ≢ Err IoError.Absent }
    {
        self.calls = next_count(self.calls);
        if is_listed(&self.fail, self.calls) {
            self.faults = next_count(self.faults);
            return Err(IoError::Fault);
        }
        match self.written.extend_from_slice(bytes) {
            Ok(()) => Ok(()),
            Err(_) => Err(IoError::NoMemory),
        }
    }
}
