//! Files of the working folder, written. A regular file is replaced in one step: whenever the program is killed, it is
//! the old one or the new one, whole.
use crate::transfer::{Broken, gives, write_whole};
use std::alloc::{AllocError, Global};
use std::fs;
use std::fs::{OpenFile, OpenOptions, Permissions};
use std::io::{Error, ErrorKind};
use std::os::unix::fs::OpenOptionsExt;
use std::path::PathBuf;
use std::rt::Files;

/// How many symbolic links are followed from a name to its file.
const LINKS: u32 = 40;

/// The permissions of a file that was not there: its owner may read and write it.
const NEW_MODE: u32 = 0o600;

impl From<AllocError> for Broken {
    fn from(_: AllocError) -> Self {
        Broken::NoMemory
    }
}

impl From<Error> for Broken {
    fn from(error: Error) -> Self {
        if error.kind() == ErrorKind::OutOfMemory {
            Broken::NoMemory
        } else {
            Broken::Failed
        }
    }
}

/// Makes the file of this name hold these bytes and no others. A regular file that holds them is left alone. Any other,
/// and one that is not there, is made anew beside it and then renamed; a pipe or a device is written to. A file that may
/// not be written stays.
pub(crate) fn write_file<R: Files>(
    rt: &R,
    alloc: Global,
    name: &str,
    bytes: &[u8],
) -> Result<(), Broken> {
    if holds(rt, name, bytes) {
        return Ok(());
    }
    match OpenOptions::new().write(true).open(rt, name) {
        Ok(old) => write_over(rt, alloc, name, bytes, old),
        Err(error) if error.kind() == ErrorKind::NotFound => replace(rt, alloc, name, bytes, None),
        Err(error) => Err(Broken::from(error)),
    }
}

/// Whether the name leads to a regular file that holds exactly these bytes. Of a file that cannot be read it says no.
fn holds<R: Files>(rt: &R, name: &str, bytes: &[u8]) -> bool {
    let is_as_long = match fs::metadata(rt, name) {
        Ok(metadata) => metadata.is_file() && metadata.len() == bytes.len() as u64,
        Err(_) => false,
    };
    if !is_as_long {
        return false;
    }
    match fs::open(rt, name) {
        Ok(mut file) => gives(&mut file, bytes),
        Err(_) => false,
    }
}

/// Replaces the file that is open, or writes to it where it is no regular one.
fn write_over<R: Files>(
    rt: &R,
    alloc: Global,
    name: &str,
    bytes: &[u8],
    mut old: R::File,
) -> Result<(), Broken> {
    let metadata = old.metadata()?;
    if metadata.is_file() {
        return replace(rt, alloc, name, bytes, Some(metadata.permissions()));
    }
    written(&mut old, bytes)
}

fn written<W: std::io::Write>(to: &mut W, bytes: &[u8]) -> Result<(), Broken> {
    if write_whole(to, bytes) {
        Ok(())
    } else {
        Err(Broken::Failed)
    }
}

/// Puts a new file with these bytes and permissions in the place of the one that the name leads to. Where that fails
/// the new file is taken away again.
fn replace<R: Files>(
    rt: &R,
    alloc: Global,
    name: &str,
    bytes: &[u8],
    permissions: Option<Permissions>,
) -> Result<(), Broken> {
    let target = behind_links(rt, alloc, name)?;
    let (beside, new) = new_beside(rt, alloc, &target)?;
    let done = put_in_place(
        rt,
        new,
        bytes,
        permissions,
        beside.as_str(),
        target.as_str(),
    );
    if done.is_err() {
        let _ = fs::remove_file(rt, beside.as_str());
    }
    done
}

/// Fills the new file, sees it to the disk, and renames it.
fn put_in_place<R: Files>(
    rt: &R,
    mut new: R::File,
    bytes: &[u8],
    permissions: Option<Permissions>,
    from: &str,
    to: &str,
) -> Result<(), Broken> {
    written(&mut new, bytes)?;
    if let Some(permissions) = permissions {
        new.set_permissions(permissions)?;
    }
    new.sync_all()?;
    fs::rename(rt, from, to)?;
    Ok(())
}

/// The path that a name leads to through symbolic links. Nothing needs to be there.
fn behind_links<R: Files>(rt: &R, alloc: Global, name: &str) -> Result<PathBuf, Broken> {
    let mut path = PathBuf::from_str(alloc, name)?;
    for _ in 0..LINKS {
        if !is_link(rt, path.as_str())? {
            return Ok(path);
        }
        let target = rt.read_link(alloc, path.as_str())?;
        path.pop();
        path.push(target.as_str())?;
    }
    Err(Broken::Failed)
}

fn is_link<R: Files>(rt: &R, path: &str) -> Result<bool, Broken> {
    match fs::symlink_metadata(rt, path) {
        Ok(metadata) => Ok(metadata.is_symlink()),
        Err(error) if error.kind() == ErrorKind::NotFound => Ok(false),
        Err(error) => Err(Broken::from(error)),
    }
}

/// Makes a new file in the folder of this path, under a name that is free: what a program that was killed has left
/// there is passed over.
fn new_beside<R: Files>(
    rt: &R,
    alloc: Global,
    path: &PathBuf,
) -> Result<(PathBuf, R::File), Broken> {
    for number in 0..u32::MAX {
        let name = format!(in alloc; ".eid-new-{number}")?;
        let beside = path.with_file_name(alloc, name.as_str())?;
        match new_file(rt, beside.as_str()) {
            Ok(new) => return Ok((beside, new)),
            Err(error) if error.kind() == ErrorKind::AlreadyExists => {}
            Err(error) => return Err(Broken::from(error)),
        }
    }
    Err(Broken::Failed)
}

fn new_file<R: Files>(rt: &R, path: &str) -> std::io::Result<R::File> {
    OpenOptions::new()
        .write(true)
        .create_new(true)
        .mode(NEW_MODE)
        .open(rt, path)
}
