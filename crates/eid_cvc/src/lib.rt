//! Card verifiable certificates of terminal authentication (BSI TR-03110-3), what chip and terminal keep of them, and
//! the public key that an authentication token is made over.
#![tactic(auto)]

mod certificate;
mod chain;
mod extensions;
mod fronts;
mod public_key;
mod reading;
mod tags;
mod template;
mod token;
mod writing;

pub use certificate::{Certificate, CertificateBody, CvcError};
pub use chain::{Aux, ChainState, Party, TerminalKnown};
pub use fronts::{AtFront, front};
pub use public_key::{law_public_key, read_public_key};
pub use reading::{law_certificate, law_one_certificate, read_certificate};
pub use template::{law_template, read_template};
pub use token::{MAX_TOKEN_OBJECT, token_object};
pub use writing::{MAX_BODY, MAX_CERTIFICATE, law_written_is_read, write_body, write_certificate};
