//! The rules that a step of PACE can fail. Their numbers are this project's own.
use eid_base::Rule;

/// The body has not the form of the step.
pub const BODY_FORM: Rule = Rule(10);
/// The reference is not that of a password that can be chosen.
pub const NO_PASSWORD: Rule = Rule(11);
/// A question to the coprocessor met a fault.
pub const FAULT: Rule = Rule(50);
/// The terminal's ephemeral point is the chip's.
pub const SAME_POINT: Rule = Rule(51);
/// A question to the coprocessor was answered with no point.
pub const NO_POINT: Rule = Rule(52);
/// The terminal's token is wrong.
pub const WRONG_TOKEN: Rule = Rule(55);
