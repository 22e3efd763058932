//! Restricted identification, the chip's side (BSI TR-03110-2 and -3): the selection, the sector keys that a
//! terminal sends, their hashes and the identifier in a sector.
#![tactic(auto)]

mod hashes;
mod sector_keys;
mod selection;

pub use hashes::{identifier, sector_hash};
pub use sector_keys::{SectorKey, SectorKeys, law_sector_keys, read_sector_keys};
pub use selection::names_restricted_identification;
