ghost use Rattle.std.specs.Prelude.{◌≡◌};
ghost use Rattle.eid_pace.specs.Protocols.{identifier_of, protocol_with};

use eid_bits::Known;

/// The protocols of PACE that can be selected (BSI TR-03110-3).
#[derive(Clone, Copy)]
pub enum Protocol {
    /// Elliptic curves with the generic mapping, AES-128 and its MAC.
    EcdhGmAes128,
}

impl Protocol {
    /// The protocol whose object identifier has these bytes, if there is one.
    pub fn with_bytes(identifier: &[u8]) -> Option<Protocol>
        ensures { result ≡ protocol_with identifier.now }
    {
        if identifier == Protocol::EcdhGmAes128.identifier().bytes() {
            return Some(Protocol::EcdhGmAes128);
        }
        None
    }

    /// Its object identifier.
    pub fn identifier(self) -> Known
        ensures { result ≡ identifier_of self }
    {
        match self {
            Protocol::EcdhGmAes128 => Known::PaceAes128,
        }
    }
}
