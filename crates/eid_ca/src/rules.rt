//! The rules that a step of chip authentication can fail. Their numbers are this project's own.
use eid_base::Rule;

/// The body has not the form of the step.
pub const BODY_FORM: Rule = Rule(10);
/// The terminal's point is not the one whose X half it announced in terminal authentication.
pub const OTHER_KEY: Rule = Rule(41);
/// A question to the coprocessor met a fault.
pub const FAULT: Rule = Rule(50);
/// A question to the coprocessor was answered with no point.
pub const NO_POINT: Rule = Rule(52);
