//! AES-CMAC (RFC 4493), the padding of secure messaging (ISO/IEC 7816-4), and the derivation of
//! keys, with those of a channel (BSI TR-03110-3).
#![tactic(auto)]

mod derivation;
mod mac;
mod session_keys;
mod whole_blocks;

pub use derivation::derive;
pub use mac::{cmac, mac8};
pub use session_keys::SessionKeys;
pub use whole_blocks::{law_one_padded, pad, padding, unpad};
