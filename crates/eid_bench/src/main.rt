//! Runs a cipher over many bytes, so that it can be timed. `cbc N` encrypts N bytes by AES-128 in
//! cipher block chaining, cut down to whole blocks, and prints the last block; `cmac N` prints the
//! MAC of N bytes; `both N` does the one and then the other. `pace N` does N times the work of a PACE
//! in its ciphers and digests alone, and prints what it comes to.
#![tactic(auto)]

ghost use Rattle.std.specs.Prelude.{◌≡◌, IfOk, string_bytes};
ghost use Rattle.eid_bench.specs.Answers.{cbc_answer, cmac_answer};
ghost use Rattle.eid_bench.specs.Paces.{drawn, nonce_of, sent, pace_work, pace_answer};

use anyhow::Context;
use eid_aes::Aes;
use eid_cmac::derive;
use sha2::{Digest, Sha256};
use std::alloc::Global;
use std::env;

const KEY: [u8; 16] = [
    0x00, 0x01, 0x02, 0x03, 0x04, 0x05, 0x06, 0x07, 0x08, 0x09, 0x0a, 0x0b, 0x0c, 0x0d, 0x0e, 0x0f,
];

const FILL: u8 = 0x5a;

/// How many bytes a token is made over: the protocol and a point, as a data object.
const TOKEN_SIZE: usize = 82;

/// The numbers of the keys that are derived.
const ENCRYPTION: u32 = 1;

const MAC: u32 = 2;

const PASSWORD: u32 = 3;

// The last block of so many bytes, cut down to whole blocks, after they are encrypted.
fn cbc(alloc: Global, size: usize) -> anyhow::Result<String>
    ensures { IfOk result (λ text. string_bytes text ≡ cbc_answer KEY FILL size) }
{
    let whole = size / 16 * 16;
    let mut bytes = vec![in alloc; FILL; whole]?;
    let key = Aes::<10>::new(&KEY);
    key.cbc_encrypt(&[0; 16], &mut bytes);
    let last = whole.saturating_sub(16);
    Ok(hex::encode(alloc, &bytes[last..])?)
}

// The MAC of so many bytes.
fn cmac(alloc: Global, size: usize) -> anyhow::Result<String>
    ensures { IfOk result (λ text. string_bytes text ≡ cmac_answer KEY FILL size) }
{
    let bytes = vec![in alloc; FILL; size]?;
    let key = Aes::<10>::new(&KEY);
    let mac = eid_cmac::cmac(&key, &bytes, &[], &[]);
    Ok(hex::encode(alloc, mac.as_slice())?)
}

// A random block, which the model coprocessor takes from a digest.
fn drawn(seed: &[u8]) -> [u8; 32]
    ensures { result ≡ drawn seed.now }
{
    let mut hasher = Sha256::new();
    hasher.update(seed);
    hasher.finalize()
}

// The nonce in a random block, encrypted under the key of a password.
fn nonce_of(block: &[u8; 32]) -> [u8; 16]
    ensures { result ≡ nonce_of block.now }
{
    let mut nonce = [0; 16];
    nonce.copy_from_slice(&block[..16]);
    Aes::<10>::new(&derive(&KEY, &[], PASSWORD)).cbc_encrypt(&[0; 16], &mut nonce);
    nonce
}

// What is sent at the end: two MACs under one key of the secret, over as many bytes as tokens are, the one
// encrypted from the other on under the secret's key of encryption.
fn sent(nonce: &[u8; 16], shared: &[u8; 32]) -> [u8; 16]
    ensures { result ≡ sent nonce.now shared.now }
{
    let key = Aes::<10>::new(&derive(shared, &[], MAC));
    let terminal = eid_cmac::cmac(&key, &[FILL; TOKEN_SIZE - 16], nonce, &[]);
    let mut chip = eid_cmac::cmac(&key, &[FILL; TOKEN_SIZE], &[], &[]);
    Aes::<10>::new(&derive(shared, &[], ENCRYPTION)).cbc_encrypt(&terminal, &mut chip);
    chip
}

// The ciphers and digests that a PACE needs: three random blocks, the key of the password with the nonce
// under it, and the two keys of the secret, with two MACs under one and a block under the other.
#[tactic(auto, unfolding(crate::specs::Paces::pace_work))]
fn pace_work(seed: &[u8; 16]) -> [u8; 16]
    ensures { result ≡ pace_work seed.now }
{
    let first = drawn(seed);
    let second = drawn(&first);
    let third = drawn(&second);
    sent(&nonce_of(&first), &third)
}

// What so many PACE come to.
#[tactic(auto, unfolding(crate::specs::Paces::paces))]
fn pace(alloc: Global, count: usize) -> anyhow::Result<String>
    ensures { IfOk result (λ text. string_bytes text ≡ pace_answer count) }
{
    let mut seed = [0; 16];
    for _ in 0..count {
        seed = pace_work(&seed);
    }
    Ok(hex::encode(alloc, seed.as_slice())?)
}

fn main(rt: HostRuntime) -> anyhow::Result<()> {
    let mut words = env::args(&rt)?.skip(1);
    let word = words
        .next()
        .context("a word is missing: cbc, cmac, both or pace")?;
    let size = words.next().context("the number is missing")?;
    let size = size.as_str().parse::<u32>().context("no number")? as usize;
    match word.as_str() {
        "cbc" => println!(rt; "{}", cbc(rt.alloc(), size)?)?,
        "cmac" => println!(rt; "{}", cmac(rt.alloc(), size)?)?,
        "pace" => println!(rt; "{}", pace(rt.alloc(), size)?)?,
        "both" => {
            println!(rt; "{}", cbc(rt.alloc(), size)?)?;
            println!(rt; "{}", cmac(rt.alloc(), size)?)?;
        }
        _ => anyhow::bail!("no such word: cbc, cmac, both or pace is meant"),
    }
    Ok(())
}
