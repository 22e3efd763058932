//! The program over a folder and a sink in memory: its exits with their lines and keys, and folders and sinks that fail. Traces,
//! reports and images stand in `tests/` at the top of the repository.
mod calls;
mod moment;

use crate::program::program;
use eid_base::{MemoryFolder, MemorySink};
use std::alloc::AllocError;

/// A configuration, but for its `card_access`.
#[rattlefmt::skip]
const CHIP: &str = "pin = '123456'
can = '654321'
puk = '0123456789'
date = '260101'
trust_name = 'DECVCAAT00001'
trust_template = 'FE1FFFFF37'
trust_key = '0400000000000000000000000000000000000000000000000000000000000000230000000000000000000000000000000000000000000000000000000000000000'
ca_secret = '0000000000000000000000000000000000000000000000000000000000000009'
ri_secret = '000000000000000000000000000000000000000000000000000000000000000B'
card_security = '3000'
dg3 = '3230333031323331'
dg4 = '4552494b41'
dg5 = '4d55535445524d414e4e'
dg8 = '3139393030333135'
dg17 = '0000000000000000'
dg18 = '02761100000000'
";

/// An EF.CardAccess of two bytes.
const ACCESS: &str = "card_access = '3100'\n";

/// The words of a command line, separated by spaces.
fn words(rt: &HostRuntime, said: &str) -> Result<Vec<String>, AllocError> {
    let mut words = Vec::new(rt.alloc());
    for word in said.split_whitespace() {
        words.push(String::from_str(rt.alloc(), word)?)?;
    }
    Ok(words)
}

/// The text of these pieces.
fn joined(rt: &HostRuntime, pieces: &[&str]) -> Result<String, AllocError> {
    let mut text = String::new(rt.alloc());
    for piece in pieces {
        text.push_str(piece)?;
    }
    Ok(text)
}

/// The files of a folder: names with their bytes.
type Files = Vec<(String, Vec<u8>)>;

/// Puts a file behind others.
fn push_file(
    rt: &HostRuntime,
    files: &mut Files,
    name: &str,
    bytes: &[u8],
) -> Result<(), AllocError> {
    files.push((
        String::from_str(rt.alloc(), name)?,
        Vec::from_slice(rt.alloc(), bytes)?,
    ))?;
    Ok(())
}

/// A folder with these files, of which one call fails, 0 for none.
fn folder_of(rt: &HostRuntime, files: Files, fail: u32) -> Result<MemoryFolder, AllocError> {
    let fails = Vec::from_slice(rt.alloc(), &[fail])?;
    Ok(MemoryFolder::new(rt.alloc(), files, fails))
}

/// The configuration with this EF.CardAccess.
fn chip(rt: &HostRuntime, access: &str) -> Result<String, AllocError> {
    joined(rt, &[CHIP, access])
}

/// The image that `make` makes of the configuration with this EF.CardAccess.
fn image(rt: &HostRuntime, access: &str) -> Result<Vec<u8>, AllocError> {
    let chip = chip(rt, access)?;
    let mut files = Vec::new(rt.alloc());
    push_file(rt, &mut files, "chip", chip.as_bytes())?;
    let mut folder = folder_of(rt, files, 0)?;
    let mut out = MemorySink::new(rt.alloc(), Vec::new(rt.alloc()));
    let make = words(rt, "make chip image")?;
    if program(rt.alloc(), make.as_slice(), &mut folder, &mut out).status() != 0 {
        return Ok(Vec::new(rt.alloc()));
    }
    Vec::from_slice(rt.alloc(), folder.file("image").unwrap_or(&[]))
}

/// Whether the name holds these bytes.
fn holds(files: &MemoryFolder, name: &str, bytes: &[u8]) -> bool {
    match files.file(name) {
        Some(held) => held == bytes,
        None => false,
    }
}
