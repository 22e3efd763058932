//! Questions about AES, CMAC, padding and the derivation of keys. Keys and blocks have 16 bytes.
use crate::words::{
    Answer, Unanswered, all_bytes, buffer, fixed, number, shown, shown_buffer, two, word,
};
use eid_aes::Aes;
use std::alloc::Global;

/// How many bytes the buffer has that is padded.
const ROOM: usize = 40;

/// `encrypt KEY BLOCK`: the encrypted block.
pub fn encrypt(alloc: Global, given: &[Vec<u8>]) -> Answer {
    let Some(read) = two::<16, 16>(given) else {
        return Err(Unanswered::Unclear);
    };
    let (key, mut block) = read;
    Aes::<10>::new(&key).encrypt(&mut block);
    shown(alloc, &block)
}

/// `decrypt KEY BLOCK`: the decrypted block.
pub fn decrypt(alloc: Global, given: &[Vec<u8>]) -> Answer {
    let Some(read) = two::<16, 16>(given) else {
        return Err(Unanswered::Unclear);
    };
    let (key, mut block) = read;
    Aes::<10>::new(&key).decrypt(&mut block);
    shown(alloc, &block)
}

/// What cipher block chaining does with the bytes, which are whole blocks.
#[derive(Clone, Copy)]
enum Chaining {
    Encrypts,
    Decrypts,
}

/// `cbc-encrypt KEY IV BYTES`: the bytes, which are whole blocks, encrypted by cipher block chaining.
pub fn cbc_encrypt(alloc: Global, given: &[Vec<u8>]) -> Answer {
    chained(alloc, given, Chaining::Encrypts)
}

/// `cbc-decrypt KEY IV BYTES`: the bytes, which are whole blocks, decrypted by cipher block chaining.
pub fn cbc_decrypt(alloc: Global, given: &[Vec<u8>]) -> Answer {
    chained(alloc, given, Chaining::Decrypts)
}

fn chained(alloc: Global, given: &[Vec<u8>], chaining: Chaining) -> Answer {
    let [keys @ .., plain] = given else {
        return Err(Unanswered::Unclear);
    };
    let Some(read) = two::<16, 16>(keys) else {
        return Err(Unanswered::Unclear);
    };
    let (key, start) = read;
    let mut blocks = plain.clone()?;
    if blocks.len() % 16 != 0 {
        return Err(Unanswered::Unclear);
    }
    match chaining {
        Chaining::Encrypts => Aes::<10>::new(&key).cbc_encrypt(&start, &mut blocks),
        Chaining::Decrypts => Aes::<10>::new(&key).cbc_decrypt(&start, &mut blocks),
    }
    shown(alloc, &blocks)
}

/// `cmac KEY FIRST SECOND THIRD`: the MAC of a message in three pieces.
pub fn cmac(alloc: Global, given: &[Vec<u8>]) -> Answer {
    let [key, first, second, third] = given else {
        return Err(Unanswered::Unclear);
    };
    let Some(key) = fixed::<16>(key) else {
        return Err(Unanswered::Unclear);
    };
    let mac = eid_cmac::cmac(&Aes::<10>::new(&key), first, second, third);
    shown(alloc, &mac)
}

/// `mac8 KEY BYTES`: the first 8 bytes of the MAC.
pub fn mac8(alloc: Global, given: &[Vec<u8>]) -> Answer {
    let [key, message] = given else {
        return Err(Unanswered::Unclear);
    };
    let Some(key) = fixed::<16>(key) else {
        return Err(Unanswered::Unclear);
    };
    let mac = eid_cmac::mac8(&Aes::<10>::new(&key), message, &[], &[]);
    shown(alloc, &mac)
}

/// `derive SECRET NONCE NUMBER`: the key of that number.
pub fn derive(alloc: Global, words: &[&str]) -> Answer {
    let [from @ .., which] = words else {
        return Err(Unanswered::Unclear);
    };
    let which = number(which)?;
    let given = all_bytes(alloc, from)?;
    derived(alloc, which, &given)
}

fn derived(alloc: Global, which: u32, given: &[Vec<u8>]) -> Answer {
    let [secret, nonce] = given else {
        return Err(Unanswered::Unclear);
    };
    let key = eid_cmac::derive(secret, nonce, which);
    shown(alloc, &key)
}

/// `pad BYTES`: what a buffer of 40 bytes holds once these are padded in it.
pub fn pad(alloc: Global, given: &[Vec<u8>]) -> Answer {
    let [plain] = given else {
        return Err(Unanswered::Unclear);
    };
    let Some(mut out) = buffer::<ROOM>(plain) else {
        return Err(Unanswered::Unclear);
    };
    let fits = eid_cmac::pad(&mut out).is_ok();
    shown_buffer(alloc, fits, out.as_slice())
}

/// `unpad BYTES`: how many bytes were padded, or `none`.
pub fn unpad(alloc: Global, given: &[Vec<u8>]) -> Answer {
    let [padded] = given else {
        return Err(Unanswered::Unclear);
    };
    match eid_cmac::unpad(padded) {
        Some(count) => Ok(format!(in alloc; "{count}")?),
        None => word(alloc, "none"),
    }
}
