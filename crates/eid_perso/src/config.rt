//! What a configuration says.
use eid_record::Record;

/// A configuration: what a new image holds.
#[derive(Drop)]
pub struct Config {
    /// The layout of the image, which is 1.
    pub layout: u8,
    /// The record that the chip keeps at first.
    pub kept: Record,
    /// The bytes of the files that are there, in the order of the files' numbers.
    pub files: Vec<u8>,
}

/// Why a text gives no configuration.
#[derive(Clone, Copy, Debug)]
pub enum ConfigError {
    /// The first key, in the order of the keys' numbers, that is absent though required, or refused; 0 where the
    /// text is no TOML or has over 1,048,576 bytes.
    Bad { key: u8 },
    /// Memory was asked for and refused.
    NoMemory,
}
