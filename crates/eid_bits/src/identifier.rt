/// The identifiers that the chip and the terminal know.
#[derive(Clone, Copy, Debug)]
pub enum Known {
    /// The eID application (BSI TR-03110-4).
    Application,
    /// id-PACE-ECDH-GM-AES-CBC-CMAC-128
    PaceAes128,
    /// id-PACE-ECDH-GM-AES-CBC-CMAC-256
    PaceAes256,
    /// id-CA-ECDH-AES-CBC-CMAC-128
    CaAes128,
    /// id-CA-ECDH-AES-CBC-CMAC-256
    CaAes256,
    /// id-TA-ECDSA-SHA-256
    TaSha256,
    /// id-RI-ECDH-SHA-256
    RiSha256,
    /// id-AT, the type of a template for authentication terminals.
    AtTemplate,
    /// Auxiliary data: the date of birth.
    Birth,
    /// Auxiliary data: the document's expiry.
    Expiry,
    /// Auxiliary data: the community.
    Community,
    /// The certificate extension with the terminal sector.
    Sector,
}

/// The identifiers with their bytes, in the order of the variants.
pub const TABLE: [(Known, &[u8]); 12] = [
    (Known::Application, b"\xE8\x07\x04\x00\x7F\x00\x07\x03\x02"),
    (
        Known::PaceAes128,
        b"\x04\x00\x7F\x00\x07\x02\x02\x04\x02\x02",
    ),
    (
        Known::PaceAes256,
        b"\x04\x00\x7F\x00\x07\x02\x02\x04\x02\x04",
    ),
    (Known::CaAes128, b"\x04\x00\x7F\x00\x07\x02\x02\x03\x02\x02"),
    (Known::CaAes256, b"\x04\x00\x7F\x00\x07\x02\x02\x03\x02\x04"),
    (Known::TaSha256, b"\x04\x00\x7F\x00\x07\x02\x02\x02\x02\x03"),
    (Known::RiSha256, b"\x04\x00\x7F\x00\x07\x02\x02\x05\x02\x03"),
    (Known::AtTemplate, b"\x04\x00\x7F\x00\x07\x03\x01\x02\x02"),
    (Known::Birth, b"\x04\x00\x7F\x00\x07\x03\x01\x04\x01"),
    (Known::Expiry, b"\x04\x00\x7F\x00\x07\x03\x01\x04\x02"),
    (Known::Community, b"\x04\x00\x7F\x00\x07\x03\x01\x04\x03"),
    (Known::Sector, b"\x04\x00\x7F\x00\x07\x03\x01\x03\x02"),
];

impl Known {
    ghost use Rattle.std.specs.Prelude.{◌≡◌};
    ghost use Rattle.eid_bits.specs.Identifiers.{known_bytes};

    /// The bytes of the identifier.
    pub fn bytes(self) -> &'static [u8]
        ensures { result.now ≡ known_bytes self }
    {
        TABLE[self as usize].1
    }
}
