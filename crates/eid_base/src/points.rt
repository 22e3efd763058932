/// An uncompressed point of the curve: the byte 04, then X and Y of 32 bytes each (BSI TR-03111).
pub type Point = [u8; 65];

/// A secret scalar of the curve, big-endian.
pub type Secret = [u8; 32];

/// An ECDSA signature: r, then s, of 32 bytes each (BSI TR-03111, plain format).
pub type Signature = [u8; 64];
