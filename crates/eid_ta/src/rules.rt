//! The rules that a step of terminal authentication can fail. Their numbers are this project's own.
use eid_base::Rule;

/// The body has not the form of the step.
pub const BODY_FORM: Rule = Rule(10);
/// No chain of certificates up to a terminal's was accepted.
pub const NO_CHAIN: Rule = Rule(24);
/// The reference is not the terminal's name.
pub const OTHER_NAME: Rule = Rule(25);
/// A question to the coprocessor met a fault.
pub const FAULT: Rule = Rule(50);
/// The signature is not the terminal's.
pub const WRONG_SIGNATURE: Rule = Rule(53);
