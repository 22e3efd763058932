//! The rules that a command can fail, in the order in which they are asked. The numbers are this project's own.
use crate::codes::Rule;

/// The bytes are no command, or its body is too long.
pub const NO_COMMAND: Rule = Rule(1);
/// In a channel: the objects of secure messaging are missing.
pub const NO_OBJECTS: Rule = Rule(2);
/// In a channel: the objects of secure messaging are wrong.
pub const WRONG_OBJECTS: Rule = Rule(3);
/// No kind has this class.
pub const CLASS: Rule = Rule(4);
/// No kind has this class and instruction.
pub const INSTRUCTION: Rule = Rule(5);
/// No kind has this class and instruction with these parameters.
pub const PARAMETERS: Rule = Rule(6);
/// The command has another instruction or other parameters than the fragments before it.
pub const BROKEN_CHAIN: Rule = Rule(7);
/// The body of the request is too long.
pub const LONG_REQUEST: Rule = Rule(8);
/// The step is not the run's next one.
pub const NO_STEP: Rule = Rule(9);
/// The body has not the form of the kind.
pub const BODY_FORM: Rule = Rule(10);
/// The reference names no password that can be chosen.
pub const NO_PASSWORD: Rule = Rule(11);
/// There is no current file.
pub const NO_CURRENT_FILE: Rule = Rule(12);
/// The identifier names neither the application nor a file.
pub const NOT_NAMED: Rule = Rule(13);
/// The file is no data group that may be written.
pub const NOT_WRITABLE: Rule = Rule(14);
/// The PIN is deactivated.
pub const INACTIVE: Rule = Rule(15);
/// No try of the PIN is left.
pub const BLOCKED: Rule = Rule(16);
/// One try of the PIN is left, and the last PACE was not with the CAN.
pub const SUSPENDED: Rule = Rule(17);
/// The session has no PACE.
pub const NO_PACE: Rule = Rule(20);
/// The last PACE had no template.
pub const NO_TEMPLATE: Rule = Rule(21);
/// A terminal has authenticated itself after the last PACE.
pub const TERMINAL_IS_KNOWN: Rule = Rule(22);
/// The name is neither a trust point's nor the document verifier's.
pub const UNKNOWN_KEY: Rule = Rule(23);
/// There is no chain of certificates that ends with a terminal.
pub const NO_CHAIN: Rule = Rule(24);
/// The name is not that of the chain's terminal.
pub const OTHER_TERMINAL: Rule = Rule(25);
/// The session has no terminal authentication.
pub const NO_TERMINAL: Rule = Rule(26);
/// The chip has authenticated itself after the terminal.
pub const CHIP_IS_PROVEN: Rule = Rule(27);
/// The chip has not authenticated itself after the terminal.
pub const NO_CHIP: Rule = Rule(28);
/// The last PACE gives no right to manage the PIN in this way.
pub const NO_PIN_MANAGEMENT: Rule = Rule(29);
/// No unblocking is left.
pub const NO_UNBLOCKING: Rule = Rule(30);
/// The last PACE was with the PUK, or with the CAN where that is not allowed.
pub const NOT_BY_HOLDER: Rule = Rule(31);
/// The application is not selected.
pub const NOT_SELECTED: Rule = Rule(32);
/// The right is not granted.
pub const NO_RIGHT: Rule = Rule(33);
/// The terminal sent nothing to compare.
pub const NOTHING_SENT: Rule = Rule(34);
/// The data group to compare with is absent, or holds nothing to compare.
pub const NO_REFERENCE: Rule = Rule(35);
/// The comparison does not hold.
pub const NOT_COMPARED: Rule = Rule(36);
/// The file is absent.
pub const NO_FILE: Rule = Rule(37);
/// The offset is behind the end of the file.
pub const OFFSET: Rule = Rule(38);
/// What is to be written goes beyond the end of the file.
pub const BEYOND_END: Rule = Rule(39);
/// A sector key is not one of the terminal's, by the hashes in its certificate.
pub const OTHER_SECTOR: Rule = Rule(40);
/// The terminal's point is not the one that it announced.
pub const OTHER_KEY: Rule = Rule(41);
/// The certificate is issued under another name than the one that was selected.
pub const OTHER_ISSUER: Rule = Rule(42);
/// Nobody is known under the issuer's name, or the one who is signs no certificates of this role.
pub const WRONG_SIGNER: Rule = Rule(43);
/// The link is not signed by the current trust point, and is not its own.
pub const WRONG_LINK: Rule = Rule(44);
/// The certificate has expired.
pub const EXPIRED: Rule = Rule(45);
/// A question to the coprocessor met a fault.
pub const FAULT: Rule = Rule(50);
/// The terminal's ephemeral point is the chip's.
pub const SAME_POINT: Rule = Rule(51);
/// A question to the coprocessor was answered with no point.
pub const NO_POINT: Rule = Rule(52);
/// The signature is wrong.
pub const WRONG_SIGNATURE: Rule = Rule(53);
/// There is no commit number left.
pub const NO_NUMBER: Rule = Rule(54);
/// The token is wrong.
pub const WRONG_TOKEN: Rule = Rule(55);
