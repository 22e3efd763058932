use crate::protocol::Protocol;
use eid_bits::Template;
use eid_record::Password;

/// What the selection of PACE chose: the protocol, the password, and the template that the holder granted, if
/// one was sent.
#[derive(Clone, Copy)]
pub struct Choice {
    pub protocol: Protocol,
    pub password: Password,
    pub template: Option<Template>,
}
