//! The refusals, each with its rule and its status.
ghost use Rattle.std.specs.Prelude.{◌≡◌, ◌==◌, ◌+◌, if◌then◌else◌};
ghost use Rattle.eid_base.specs.Rules.{end_rule};
ghost use Rattle.eid_chip.specs.Steps.{refusal, start_refused};

use eid_base::rules::BEYOND_END;
use eid_base::{Rule, Status, rules};

/// The rule that a command failed, and the status that says so.
#[derive(Clone, Copy)]
pub struct Refusal {
    pub rule: Rule,
    pub status: Status,
}

/// The bytes are no command, or its body is too long.
pub const NO_COMMAND: Refusal = Refusal {
    rule: Rule(1),
    status: Status(0x6700),
};
/// In a channel: the objects of secure messaging are missing.
pub const NO_OBJECTS: Refusal = Refusal {
    rule: Rule(2),
    status: Status(0x6987),
};
/// In a channel: the objects of secure messaging are wrong.
pub const WRONG_OBJECTS: Refusal = Refusal {
    rule: Rule(3),
    status: Status(0x6988),
};
/// No kind has this class.
pub const CLASS: Refusal = Refusal {
    rule: Rule(4),
    status: Status(0x6E00),
};
/// No kind has this class and instruction.
pub const INSTRUCTION: Refusal = Refusal {
    rule: Rule(5),
    status: Status(0x6D00),
};
/// No kind has this class and instruction with these parameters.
pub const PARAMETERS: Refusal = Refusal {
    rule: Rule(6),
    status: Status(0x6A86),
};
/// The command has another instruction or other parameters than the fragments before it.
pub const BROKEN_CHAIN: Refusal = Refusal {
    rule: Rule(7),
    status: Status(0x6883),
};
/// The body of the request is too long.
pub const LONG_REQUEST: Refusal = Refusal {
    rule: Rule(8),
    status: Status(0x6700),
};
/// The step is not the run's next one.
pub const NO_STEP: Refusal = Refusal {
    rule: Rule(9),
    status: Status(0x6985),
};
/// The body has not the form of the kind.
pub const BODY_FORM: Refusal = Refusal {
    rule: Rule(10),
    status: Status(0x6A80),
};
/// The reference names no password that can be chosen.
pub const NO_PASSWORD: Refusal = Refusal {
    rule: Rule(11),
    status: Status(0x6A88),
};
/// There is no current file.
pub const NO_CURRENT_FILE: Refusal = Refusal {
    rule: Rule(12),
    status: Status(0x6986),
};
/// The identifier names neither the application nor a file.
pub const NOT_NAMED: Refusal = Refusal {
    rule: Rule(13),
    status: Status(0x6A82),
};
/// The file is no data group that may be written.
pub const NOT_WRITABLE: Refusal = Refusal {
    rule: Rule(14),
    status: Status(0x6982),
};
/// The PIN is deactivated.
pub const INACTIVE: Refusal = Refusal {
    rule: Rule(15),
    status: Status(0x6984),
};
/// No try of the PIN is left.
pub const BLOCKED: Refusal = Refusal {
    rule: Rule(16),
    status: Status(0x6983),
};
/// One try of the PIN is left, and the last PACE was not with the CAN.
pub const SUSPENDED: Refusal = Refusal {
    rule: Rule(17),
    status: Status(0x6985),
};
/// The session has no PACE.
pub const NO_PACE: Refusal = Refusal {
    rule: Rule(20),
    status: Status(0x6982),
};
/// The last PACE had no template.
pub const NO_TEMPLATE: Refusal = Refusal {
    rule: Rule(21),
    status: Status(0x6985),
};
/// A terminal has authenticated itself after the last PACE.
pub const TERMINAL_IS_KNOWN: Refusal = Refusal {
    rule: Rule(22),
    status: Status(0x6985),
};
/// The name is neither a trust point's nor the document verifier's.
pub const UNKNOWN_KEY: Refusal = Refusal {
    rule: Rule(23),
    status: Status(0x6A88),
};
/// There is no chain of certificates that ends with a terminal.
pub const NO_CHAIN: Refusal = Refusal {
    rule: Rule(24),
    status: Status(0x6985),
};
/// The name is not that of the chain's terminal.
pub const OTHER_TERMINAL: Refusal = Refusal {
    rule: Rule(25),
    status: Status(0x6A88),
};
/// The session has no terminal authentication.
pub const NO_TERMINAL: Refusal = Refusal {
    rule: Rule(26),
    status: Status(0x6982),
};
/// The chip has authenticated itself after the terminal.
pub const CHIP_IS_PROVEN: Refusal = Refusal {
    rule: Rule(27),
    status: Status(0x6985),
};
/// The chip has not authenticated itself after the terminal.
pub const NO_CHIP: Refusal = Refusal {
    rule: Rule(28),
    status: Status(0x6982),
};
/// The last PACE gives no right to manage the PIN in this way.
pub const NO_PIN_MANAGEMENT: Refusal = Refusal {
    rule: Rule(29),
    status: Status(0x6982),
};
/// No unblocking is left.
pub const NO_UNBLOCKING: Refusal = Refusal {
    rule: Rule(30),
    status: Status(0x6983),
};
/// The last PACE was with the PUK, or with the CAN where that is not allowed.
pub const NOT_BY_HOLDER: Refusal = Refusal {
    rule: Rule(31),
    status: Status(0x6982),
};
/// The application is not selected.
pub const NOT_SELECTED: Refusal = Refusal {
    rule: Rule(32),
    status: Status(0x6985),
};
/// The right is not granted.
pub const NO_RIGHT: Refusal = Refusal {
    rule: Rule(33),
    status: Status(0x6982),
};
/// The terminal sent nothing to compare.
pub const NOTHING_SENT: Refusal = Refusal {
    rule: Rule(34),
    status: Status(0x6A88),
};
/// The data group to compare with is absent, or holds nothing to compare.
pub const NO_REFERENCE: Refusal = Refusal {
    rule: Rule(35),
    status: Status(0x6A88),
};
/// The comparison does not hold.
pub const NOT_COMPARED: Refusal = Refusal {
    rule: Rule(36),
    status: Status(0x6300),
};
/// The file is absent.
pub const NO_FILE: Refusal = Refusal {
    rule: Rule(37),
    status: Status(0x6A82),
};
/// The offset is behind the end of the file.
pub const OFFSET: Refusal = Refusal {
    rule: Rule(38),
    status: Status(0x6B00),
};
/// A sector key is not one of the terminal's, by the hashes in its certificate.
pub const OTHER_SECTOR: Refusal = Refusal {
    rule: Rule(40),
    status: Status(0x6300),
};
/// The terminal's point is not the one that it announced.
pub const OTHER_KEY: Refusal = Refusal {
    rule: Rule(41),
    status: Status(0x6300),
};
/// A question to the coprocessor met a fault.
pub const FAULT: Refusal = Refusal {
    rule: Rule(50),
    status: Status(0x6F00),
};
/// The terminal's ephemeral point is the chip's.
pub const SAME_POINT: Refusal = Refusal {
    rule: Rule(51),
    status: Status(0x6300),
};
/// A question to the coprocessor was answered with no point.
pub const NO_POINT: Refusal = Refusal {
    rule: Rule(52),
    status: Status(0x6A80),
};
/// The signature is wrong.
pub const WRONG_SIGNATURE: Refusal = Refusal {
    rule: Rule(53),
    status: Status(0x6300),
};
/// There is no commit number left.
pub const NO_NUMBER: Refusal = Refusal {
    rule: Rule(54),
    status: Status(0x6581),
};
/// The token is wrong, and not of the PIN.
pub const WRONG_TOKEN: Refusal = Refusal {
    rule: Rule(55),
    status: Status(0x6300),
};

/// The token of the PIN is wrong, and so many tries are left.
pub fn wrong_pin(tries: u8) -> Refusal
    ensures { refusal result ≡ record { rule = 55; status = 0x63C0 + tries } }
{
    Refusal {
        rule: Rule(55),
        status: Status(0x63c0 + u16::from(tries)),
    }
}

/// The refusal of the first step of PACE by this rule.
pub fn start_refusal(rule: Rule) -> Refusal
    ensures { refusal result ≡ start_refused rule.0 }
{
    match rule {
        rules::INACTIVE => INACTIVE,
        rules::BLOCKED => BLOCKED,
        rules::SUSPENDED => SUSPENDED,
        _ => FAULT,
    }
}

/// The certificate is refused by one of its own rules, before its signature is verified.
pub fn bad_certificate(rule: Rule) -> Refusal
    ensures { refusal result ≡ record { rule = rule.0; status = 0x6300 } }
{
    Refusal {
        rule,
        status: Status(0x6300),
    }
}

/// What is to be written is refused by its range: its offset is behind the file's end, or it goes beyond it.
pub fn bad_range(rule: Rule) -> Refusal
    ensures { refusal result ≡ record { rule = rule.0; status = if rule.0 == end_rule then 0x6A84 else 0x6B00 } }
{
    let status = if rule == BEYOND_END {
        Status(0x6A84)
    } else {
        Status(0x6B00)
    };
    Refusal { rule, status }
}
