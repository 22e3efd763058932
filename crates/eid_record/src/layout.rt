//! Where each field stands in the fixed bytes of a record: the place of its first byte. Numbers are big-endian, and a
//! place that no field has is written 00 and not read. The layout is this project's own.

/// The number of the fixed bytes, behind which the present files' bytes stand.
pub const FIXED: usize = 448;
/// The number of files, present or absent.
pub const FILES: usize = 23;
/// The greatest length of a file.
pub const MAX_FILE: u16 = 2048;
/// The greatest length of all files together.
pub const MAX_FILES: u32 = 24_000;

/// The commit number, four bytes.
pub const NUMBER: u16 = 0;
/// The tries that are left for the PIN.
pub const TRIES: u16 = 4;
/// The unblockings that are left for the PUK.
pub const UNBLOCKS: u16 = 5;
/// 01 where the PIN is active, else 00.
pub const ACTIVE: u16 = 6;
/// The PIN, six ASCII digits.
pub const PIN: u16 = 7;
/// The card access number, six ASCII digits.
pub const CAN: u16 = 13;
/// The PIN unblocking key, ten ASCII digits.
pub const PUK: u16 = 19;
/// The date, six digits of a byte each.
pub const DATE: u16 = 29;
/// The current trust point, 128 bytes.
pub const CURRENT: u16 = 64;
/// The previous trust point, 128 bytes.
pub const PREVIOUS: u16 = 192;
/// The static key of chip authentication, 32 bytes.
pub const CA_SECRET: u16 = 320;
/// The static key of restricted identification, 32 bytes.
pub const RI_SECRET: u16 = 352;
/// The files' lengths, two bytes each.
pub const LENGTHS: u16 = 384;

/// In a trust point, whose first byte is the length of its name: the name, in 16 bytes.
pub const NAME: u16 = 1;
/// In a trust point: the rights, five bytes.
pub const TEMPLATE: u16 = 17;
/// In a trust point: the public key, 65 bytes.
pub const KEY: u16 = 22;
/// In a trust point: 01 where there is one, else 00.
pub const PRESENT: u16 = 87;

/// The length of a file that is absent.
pub const ABSENT: u16 = 0xFFFF;
