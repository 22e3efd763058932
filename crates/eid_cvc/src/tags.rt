//! Tags of the data objects in certificates (BSI TR-03110-3).

pub(crate) const OBJECT_IDENTIFIER: u16 = 0x06;

pub(crate) const ISSUER: u16 = 0x42;

pub(crate) const EXTENSIONS: u16 = 0x65;

pub(crate) const EXTENSION: u16 = 0x73;

/// In an extension for terminal sectors.
pub(crate) const FIRST_HASH: u16 = 0x80;

/// In an extension for terminal sectors.
pub(crate) const SECOND_HASH: u16 = 0x81;

pub(crate) const HOLDER: u16 = 0x5F20;

pub(crate) const EXPIRY: u16 = 0x5F24;

pub(crate) const EFFECTIVE: u16 = 0x5F25;

pub(crate) const PROFILE: u16 = 0x5F29;

pub(crate) const SIGNATURE: u16 = 0x5F37;

pub(crate) const PUBLIC_KEY: u16 = 0x7F49;

pub(crate) const TEMPLATE: u16 = 0x7F4C;

pub(crate) const BODY: u16 = 0x7F4E;

/// In a template.
pub(crate) const DISCRETIONARY_DATA: u16 = 0x53;

/// In a public key, as the others that follow.
pub(crate) const PRIME: u16 = 0x81;

pub(crate) const FIRST_COEFFICIENT: u16 = 0x82;

pub(crate) const SECOND_COEFFICIENT: u16 = 0x83;

pub(crate) const BASE_POINT: u16 = 0x84;

pub(crate) const ORDER: u16 = 0x85;

pub(crate) const POINT: u16 = 0x86;

pub(crate) const COFACTOR: u16 = 0x87;
