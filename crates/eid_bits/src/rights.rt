ghost use Rattle.std.specs.Prelude.{⊤, ◌≡◌, ◌==◌, ◌&&◌, ℕ, false};
ghost use Rattle.std.specs.Int.{bit_at};
ghost use Rattle.eid_bits.specs.Rights.{has_right};

use bitflags::{Flag, Flags};

/// Rights of an authorisation template for authentication terminals, each with the number of its bit
/// (BSI TR-03110-4). The constants name those that there are: bits 0 to 28 and 33 to 37.
#[derive(Clone, Copy)]
pub struct Bits(u64);

impl Bits {
    /// The terminal may have the age verified.
    pub const AGE_VERIFICATION: Bits = Bits(1 << 0);
    /// The terminal may have the community verified.
    pub const COMMUNITY_ID_VERIFICATION: Bits = Bits(1 << 1);
    /// The terminal may run restricted identification.
    pub const RESTRICTED_IDENTIFICATION: Bits = Bits(1 << 2);
    /// The terminal is a privileged one.
    pub const PRIVILEGED_TERMINAL: Bits = Bits(1 << 3);
    /// PACE with the CAN serves the terminal as PACE with the PIN does.
    pub const CAN_ALLOWED: Bits = Bits(1 << 4);
    /// The terminal may manage the PIN.
    pub const PIN_MANAGEMENT: Bits = Bits(1 << 5);
    /// The terminal may install a certificate for signatures.
    pub const INSTALL_CERTIFICATE: Bits = Bits(1 << 6);
    /// The terminal may install a certificate for qualified signatures.
    pub const INSTALL_QUALIFIED_CERTIFICATE: Bits = Bits(1 << 7);
    /// The terminal may read data group 1.
    pub const READ_DG1: Bits = Bits(1 << 8);
    /// The terminal may read data group 2.
    pub const READ_DG2: Bits = Bits(1 << 9);
    /// The terminal may read data group 3.
    pub const READ_DG3: Bits = Bits(1 << 10);
    /// The terminal may read data group 4.
    pub const READ_DG4: Bits = Bits(1 << 11);
    /// The terminal may read data group 5.
    pub const READ_DG5: Bits = Bits(1 << 12);
    /// The terminal may read data group 6.
    pub const READ_DG6: Bits = Bits(1 << 13);
    /// The terminal may read data group 7.
    pub const READ_DG7: Bits = Bits(1 << 14);
    /// The terminal may read data group 8.
    pub const READ_DG8: Bits = Bits(1 << 15);
    /// The terminal may read data group 9.
    pub const READ_DG9: Bits = Bits(1 << 16);
    /// The terminal may read data group 10.
    pub const READ_DG10: Bits = Bits(1 << 17);
    /// The terminal may read data group 11.
    pub const READ_DG11: Bits = Bits(1 << 18);
    /// The terminal may read data group 12.
    pub const READ_DG12: Bits = Bits(1 << 19);
    /// The terminal may read data group 13.
    pub const READ_DG13: Bits = Bits(1 << 20);
    /// The terminal may read data group 14.
    pub const READ_DG14: Bits = Bits(1 << 21);
    /// The terminal may read data group 15.
    pub const READ_DG15: Bits = Bits(1 << 22);
    /// The terminal may read data group 16.
    pub const READ_DG16: Bits = Bits(1 << 23);
    /// The terminal may read data group 17.
    pub const READ_DG17: Bits = Bits(1 << 24);
    /// The terminal may read data group 18.
    pub const READ_DG18: Bits = Bits(1 << 25);
    /// The terminal may read data group 19.
    pub const READ_DG19: Bits = Bits(1 << 26);
    /// The terminal may read data group 20.
    pub const READ_DG20: Bits = Bits(1 << 27);
    /// The terminal may read data group 21.
    pub const READ_DG21: Bits = Bits(1 << 28);
    /// The terminal may write data group 21.
    pub const WRITE_DG21: Bits = Bits(1 << 33);
    /// The terminal may write data group 20.
    pub const WRITE_DG20: Bits = Bits(1 << 34);
    /// The terminal may write data group 19.
    pub const WRITE_DG19: Bits = Bits(1 << 35);
    /// The terminal may write data group 18.
    pub const WRITE_DG18: Bits = Bits(1 << 36);
    /// The terminal may write data group 17.
    pub const WRITE_DG17: Bits = Bits(1 << 37);

    /// The rights by their names, in the order of their numbers.
    const FLAGS: &'static [Flag<Bits>] = &[
        Flag {
            name: "AGE_VERIFICATION",
            value: Bits::AGE_VERIFICATION,
        },
        Flag {
            name: "COMMUNITY_ID_VERIFICATION",
            value: Bits::COMMUNITY_ID_VERIFICATION,
        },
        Flag {
            name: "RESTRICTED_IDENTIFICATION",
            value: Bits::RESTRICTED_IDENTIFICATION,
        },
        Flag {
            name: "PRIVILEGED_TERMINAL",
            value: Bits::PRIVILEGED_TERMINAL,
        },
        Flag {
            name: "CAN_ALLOWED",
            value: Bits::CAN_ALLOWED,
        },
        Flag {
            name: "PIN_MANAGEMENT",
            value: Bits::PIN_MANAGEMENT,
        },
        Flag {
            name: "INSTALL_CERTIFICATE",
            value: Bits::INSTALL_CERTIFICATE,
        },
        Flag {
            name: "INSTALL_QUALIFIED_CERTIFICATE",
            value: Bits::INSTALL_QUALIFIED_CERTIFICATE,
        },
        Flag {
            name: "READ_DG1",
            value: Bits::READ_DG1,
        },
        Flag {
            name: "READ_DG2",
            value: Bits::READ_DG2,
        },
        Flag {
            name: "READ_DG3",
            value: Bits::READ_DG3,
        },
        Flag {
            name: "READ_DG4",
            value: Bits::READ_DG4,
        },
        Flag {
            name: "READ_DG5",
            value: Bits::READ_DG5,
        },
        Flag {
            name: "READ_DG6",
            value: Bits::READ_DG6,
        },
        Flag {
            name: "READ_DG7",
            value: Bits::READ_DG7,
        },
        Flag {
            name: "READ_DG8",
            value: Bits::READ_DG8,
        },
        Flag {
            name: "READ_DG9",
            value: Bits::READ_DG9,
        },
        Flag {
            name: "READ_DG10",
            value: Bits::READ_DG10,
        },
        Flag {
            name: "READ_DG11",
            value: Bits::READ_DG11,
        },
        Flag {
            name: "READ_DG12",
            value: Bits::READ_DG12,
        },
        Flag {
            name: "READ_DG13",
            value: Bits::READ_DG13,
        },
        Flag {
            name: "READ_DG14",
            value: Bits::READ_DG14,
        },
        Flag {
            name: "READ_DG15",
            value: Bits::READ_DG15,
        },
        Flag {
            name: "READ_DG16",
            value: Bits::READ_DG16,
        },
        Flag {
            name: "READ_DG17",
            value: Bits::READ_DG17,
        },
        Flag {
            name: "READ_DG18",
            value: Bits::READ_DG18,
        },
        Flag {
            name: "READ_DG19",
            value: Bits::READ_DG19,
        },
        Flag {
            name: "READ_DG20",
            value: Bits::READ_DG20,
        },
        Flag {
            name: "READ_DG21",
            value: Bits::READ_DG21,
        },
        Flag {
            name: "WRITE_DG21",
            value: Bits::WRITE_DG21,
        },
        Flag {
            name: "WRITE_DG20",
            value: Bits::WRITE_DG20,
        },
        Flag {
            name: "WRITE_DG19",
            value: Bits::WRITE_DG19,
        },
        Flag {
            name: "WRITE_DG18",
            value: Bits::WRITE_DG18,
        },
        Flag {
            name: "WRITE_DG17",
            value: Bits::WRITE_DG17,
        },
    ];

    /// No right.
    #[tactic(auto, using(crate::proofs::Masks::none_has))]
    pub fn none() -> Bits
        ensures { (bit : ℕ) → has_right result bit ≡ false }
    {
        Bits::empty()
    }

    /// Whether the right with this number is among them.
    pub fn has(self, bit: u32) -> bool
        ensures { result ≡ has_right self bit }
    {
        is_set(self.0, bit)
    }
}

impl Flags for Bits {
    ghost use Rattle.eid_bits.specs.RightNames.{right_flags};

    type Bits = u64;

    ghost exact = { ⊤ };

    ghost table = { right_flags };

    ghost set_of = { λ rights. rights.0 };

    fn flags<'a>() -> &'a [Flag<Bits>] {
        Bits::FLAGS
    }

    fn bits(&self) -> u64 {
        self.0
    }

    fn from_bits_retain(bits: u64) -> Bits {
        Bits(bits)
    }
}

/// The rights that both have.
#[tactic(auto, using(crate::proofs::Masks::both_have))]
pub fn meet(a: Bits, b: Bits) -> Bits
    ensures { (bit : ℕ) → has_right result bit ≡ (has_right a bit && has_right b bit) }
{
    a.intersection(b)
}

/// Whether a bit of a number is set, where bit 0 is the lowest.
pub(crate) fn is_set(number: u64, bit: u32) -> bool
    ensures { result ≡ (bit_at number bit == 1) }
{
    bit < u64::BITS && number >> bit & 1 == 1
}
