ghost use Rattle.std.specs.Prelude.{◌≡◌};
ghost use Rattle.eid_ca.specs.Protocols.{identifier_of, protocol_with};

use eid_bits::Known;

/// The protocols of chip authentication that can be selected (BSI TR-03110-3).
#[derive(Clone, Copy)]
pub enum Protocol {
    /// Agreement on elliptic curves, AES-128 and its MAC.
    EcdhAes128,
}

impl Protocol {
    /// The protocol whose object identifier has these bytes, if there is one.
    pub fn with_bytes(identifier: &[u8]) -> Option<Protocol>
        ensures { result ≡ protocol_with identifier.now }
    {
        if identifier == Protocol::EcdhAes128.identifier().bytes() {
            return Some(Protocol::EcdhAes128);
        }
        None
    }

    /// Its object identifier.
    pub fn identifier(self) -> Known
        ensures { result ≡ identifier_of self }
    {
        match self {
            Protocol::EcdhAes128 => Known::CaAes128,
        }
    }
}
