//! The files of a configuration.
ghost use Rattle.std.specs.Prelude.{◌≡◌, ℕ, ◌≤◌, [], List, None, IfOk, IfSome, length, option_map};
ghost use Rattle.toml.specs.Data.{get_member};
ghost use Rattle.toml.specs.View.{table_view};
ghost use Rattle.eid_perso.specs.Config.{AreFiles, IsFileLength};
ghost use Rattle.eid_perso.specs.Keys.{with_file, next_file, files_from};
ghost use Rattle.eid_perso.specs.Names.{file_names};
ghost use Rattle.eid_perso.specs.Reading.{Reads};

use crate::config::ConfigError;
use crate::forms;
use crate::keys::value_at;
use crate::names::file_name;
use eid_record::FILES;
use std::alloc::Global;
use toml::Table;

/// The files that are read so far.
#[derive(Drop)]
pub struct FileSet {
    /// The length of each file by its number; `None` is an absent file.
    pub lengths: [Option<u16>; FILES],
    /// The bytes of the files that are there, one behind the other.
    pub bytes: Vec<u8>,
}

/// Appends a file, where no more than 24,000 bytes are then there, and gives its length.
fn put_file(
    number: u8,
    file: Option<Vec<u8>>,
    bytes: &mut Vec<u8>,
) -> Result<Option<u16>, ConfigError>
    requires short { IfSome file (λ f. length f.items ≤ 2048) }
    requires room { length bytes.old.items ≤ 24000 }
    ensures reads { Reads (λ n. (n, bytes.new.items)) result (with_file number bytes.old.items (option_map (λ f. f.items) file)) }
    ensures length { IfOk result (λ n. IsFileLength bytes.old.items bytes.new.items n) }
{
    let Some(file) = file else {
        return Err(ConfigError::Bad { key: number });
    };
    if bytes.len() + file.len() > 24_000 {
        return Err(ConfigError::Bad { key: number });
    }
    let length = file.len() as u16;
    match bytes.extend_from_slice(&file) {
        Ok(()) => Ok(Some(length)),
        Err(_) => Err(ConfigError::NoMemory),
    }
}

/// Appends the file of a key, where it is there, and gives its length. The files of the keys 18 and 19 have to be there.
fn next_file(
    alloc: Global,
    table: &Table,
    number: u8,
    key: &str,
    bytes: &mut Vec<u8>,
) -> Result<Option<u16>, ConfigError>
    requires room { length bytes.old.items ≤ 24000 }
    ensures reads { Reads (λ n. (n, bytes.new.items)) result (next_file number bytes.old.items (get_member key.now (table_view table.now))) }
    ensures length { IfOk result (λ n. IsFileLength bytes.old.items bytes.new.items n) }
{
    let Some(value) = value_at(table, key) else {
        return absent(number);
    };
    match forms::file(alloc, value) {
        Ok(file) => put_file(number, file, bytes),
        Err(_) => Err(ConfigError::NoMemory),
    }
}

/// The length of a file that is absent, where it may be.
fn absent(number: u8) -> Result<Option<u16>, ConfigError>
    ensures reads { (bytes : List ℕ) → Reads (λ n. (n, bytes)) result (next_file number bytes None) }
    ensures length { (bytes : List ℕ) → length bytes ≤ 24000 → IfOk result (λ n. IsFileLength bytes bytes n) }
{
    if number < 20 {
        return Err(ConfigError::Bad { key: number });
    }
    Ok(None)
}

/// The files, in the order of their numbers.
pub fn read_files(alloc: Global, table: &Table) -> Result<FileSet, ConfigError>
    ensures reads { Reads (λ f. (f.lengths, f.bytes.items)) result (files_from 18 [] [] file_names (table_view table.now)) }
    ensures valid { IfOk result (λ f. AreFiles f.lengths f.bytes.items) }
{
    let mut lengths = [None; FILES];
    let mut bytes = Vec::new(alloc);
    for i in 0..FILES {
        match next_file(alloc, table, 18 + i as u8, file_name(i), &mut bytes) {
            Ok(length) => lengths[i] = length,
            Err(error) => return Err(error),
        }
    }
    Ok(FileSet { lengths, bytes })
}
