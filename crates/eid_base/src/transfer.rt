//! Bytes to a writer and from a reader, whole. A call that a signal interrupts is tried again.
ghost use Rattle.std.specs.Prelude.{◌≡◌, ℕ, ◌≤◌, ◌<◌, List, length, take, vec_len, true, OnOk, IfOk, IfSome, IfNone};
ghost use Rattle.std.specs.Io.KnownBytes.{Appends, Consumes, IsAtEnd, Keeps};
ghost use Rattle.eid_base.specs.Transfer.{TookFront};

use std::alloc::Global;
use std::io::{ErrorKind, Read, Write};

/// How often in a row an interrupted call is tried.
const TRIES: u32 = 100;

/// How many bytes one read asks for.
const CHUNK: usize = 4096;

/// Why bytes were not moved whole.
pub(crate) enum Broken {
    /// The reader, the writer or the folder failed.
    Failed,
    /// Memory was asked for and refused.
    NoMemory,
}

/// One write: how many of the first bytes were taken. `None` where the writer fails, or is interrupted too often.
fn write_some<W: Write>(to: &mut W, bytes: &[u8]) -> Option<usize>
    ensures some { IfSome result (λ n. (n ≤ length bytes.now)
        × Appends (W.contents to.old) (W.contents to.new) (take n bytes.now)) }
    ensures none { IfNone result (Keeps (W.contents to.old) (W.contents to.new)) }
{
    for _ in 0..TRIES {
        match to.write(bytes) {
            Ok(count) => return Some(count),
            Err(e) if e.kind() == ErrorKind::Interrupted => {}
            Err(_) => return None,
        }
    }
    None
}

/// Writes all the bytes; whether that succeeded. A write that takes nothing is a failure. In either case the writer
/// took a front of the bytes, in order.
pub(crate) fn write_whole<W: Write>(to: &mut W, bytes: &[u8]) -> bool
    ensures whole { result ≡ true → Appends (W.contents to.old) (W.contents to.new) bytes.now }
    ensures front { TookFront (W.contents to.old) (W.contents to.new) bytes.now }
{
    let mut rest = bytes;
    while !rest.is_empty() {
        match write_some(to, rest) {
            Some(count) if count > 0 => rest = &rest[count..],
            _ => return false,
        }
    }
    true
}

/// One read, into the front of `into`: how many bytes came, none only at the end. `None` where the reader fails, or is
/// interrupted too often.
fn read_some<R: Read>(from: &mut R, into: &mut [u8]) -> Option<usize>
    ensures some { IfSome result (λ n. (n ≤ length into.new)
        × Consumes (R.remaining from.old) (R.remaining from.new) (take n into.new)
        × (n ≡ 0 → 0 < length into.new → IsAtEnd (R.remaining from.new))) }
    ensures none { IfNone result (Keeps (R.remaining from.old) (R.remaining from.new)) }
{
    for _ in 0..TRIES {
        match from.read(into) {
            Ok(count) => return Some(count),
            Err(e) if e.kind() == ErrorKind::Interrupted => {}
            Err(_) => return None,
        }
    }
    None
}

/// The first `most` bytes of what a reader gives, or all where it ends earlier.
pub(crate) fn read_front<R: Read>(
    alloc: Global,
    from: &mut R,
    most: usize,
) -> Result<Vec<u8>, Broken>
    requires { most ≤ 16777217 }
    ensures bounded { IfOk result (λ bytes. vec_len bytes ≤ most) }
    ensures front { IfOk result (λ bytes. Consumes (R.remaining from.old) (R.remaining from.new) bytes.items) }
    ensures end { IfOk result (λ bytes. vec_len bytes < most → IsAtEnd (R.remaining from.new)) }
{
    let mut bytes = Vec::new(alloc);
    let mut chunk = [0u8; CHUNK];
    while bytes.len() < most {
        let room = (most - bytes.len()).min(CHUNK);
        let part = &mut chunk[..room];
        let Some(count) = read_some(from, part) else {
            return Err(Broken::Failed);
        };
        if count == 0 {
            return Ok(bytes);
        }
        if bytes.extend_from_slice(&part[..count]).is_err() {
            return Err(Broken::NoMemory);
        }
    }
    Ok(bytes)
}

/// Whether a reader gives exactly these bytes and ends behind them. One that fails does not.
pub(crate) fn gives<R: Read>(from: &mut R, bytes: &[u8]) -> bool
    ensures same { result ≡ true → Consumes (R.remaining from.old) (R.remaining from.new) bytes.now }
    ensures end { result ≡ true → IsAtEnd (R.remaining from.new) }
{
    let mut rest = bytes;
    let mut chunk = [0u8; CHUNK];
    while !rest.is_empty() {
        match read_some(from, &mut chunk) {
            Some(count) if count > 0 && rest.starts_with(&chunk[..count]) => rest = &rest[count..],
            _ => return false,
        }
    }
    matches!(read_some(from, &mut chunk), Some(0))
}
