//! The block cipher AES, and cipher block chaining over it (FIPS 197; NIST SP 800-38A).
#![tactic(auto)]

mod cipher;
mod columns;
mod steps;
mod tables;

pub use cipher::Aes;
