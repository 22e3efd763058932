//! The cipher and its inverse (FIPS 197, 5.1 to 5.3).

ghost use Rattle.std.specs.Prelude.{◌≡◌, ℕ, ◌+◌, ◌-◌, ◌*◌, ◌/◌, ◌%◌, ◌<◌, ◌≤◌, List, ◌++◌, length, take, drop, slice_index, slice_set};
ghost use Rattle.eid_aes.specs.Cipher.{word_at, sub_word, transformed_word, next_word, expanded, key_expansion, key_of, IsSchedule, IsBlock, cipher, inv_cipher};
ghost use Rattle.eid_aes.specs.Words.{rotated_word};
ghost use Rattle.eid_aes.specs.Cbc.{AreBlocks, cbc_encrypted, cbc_decrypted};

use crate::columns::{self, after_last_round, after_round, block_of, columns_of};
use crate::steps::{
    Block, add_block, add_round_key, inv_mix_columns, inv_shift_rows, inv_sub_bytes, sub,
};
use std::marker::Model;

/// The cipher AES under a key (FIPS 197): 10, 12 or 14 rounds for a key of 16, 24 or 32 bytes. The
/// key is expanded once. A contract sees the key's bytes.
#[derive(Drop)]
pub struct Aes<const ROUNDS: usize> {
    // The key's expansion: a round key of 16 bytes for each round and one more, and bytes that
    // nothing reads.
    schedule: [u8; 240],
}

impl<const ROUNDS: usize> Model for Aes<ROUNDS> {
    ghost Value = { List ℕ };

    ghost view = { λ a. key_of ROUNDS a.schedule };

    ghost invariant = { λ a. IsSchedule ROUNDS a.schedule };
}

impl Aes<10> {
    /// The cipher under a key of 16 bytes.
    pub fn new(key: &[u8; 16]) -> Aes<10>
        ensures { result ≡ key.now }
    {
        Aes {
            schedule: expand(key, 10),
        }
    }
}

impl<const ROUNDS: usize> Aes<ROUNDS> {
    /// Encrypts a block in place (FIPS 197, 5.1).
    pub fn encrypt(&self, block: &mut [u8; 16])
        ensures { block.new ≡ cipher self.now block.old }
    {
        let mut s = columns::add_round_key(columns_of(block), &self.schedule, 0);
        for round in 1..ROUNDS {
            let next = after_round(s, &self.schedule, round);
            s = next;
        }
        let encrypted = block_of(after_last_round(s, &self.schedule, ROUNDS));
        *block = encrypted;
    }

    /// Decrypts a block in place (FIPS 197, 5.3): what encryption made is the plain block again.
    pub fn decrypt(&self, block: &mut [u8; 16])
        ensures value { block.new ≡ inv_cipher self.now block.old }
        ensures undone { (plain : List ℕ) → IsBlock plain → block.old ≡ cipher self.now plain → block.new ≡ plain }
        ensures again { cipher self.now block.new ≡ block.old }
    {
        add_round_key(block, &self.schedule, ROUNDS);
        inv_shift_rows(block);
        inv_sub_bytes(block);
        for round in (1..ROUNDS).rev() {
            add_round_key(block, &self.schedule, round);
            inv_mix_columns(block);
            inv_shift_rows(block);
            inv_sub_bytes(block);
        }
        add_round_key(block, &self.schedule, 0);
    }

    /// Encrypts whole blocks of 16 bytes in place by cipher block chaining, from the initialization
    /// vector `iv` (NIST SP 800-38A, 6.2).
    pub fn cbc_encrypt(&self, iv: &[u8; 16], bytes: &mut [u8])
        requires { length bytes.old % 16 ≡ 0 }
        ensures { bytes.new ≡ cbc_encrypted self.now iv.now bytes.old }
    {
        let mut chain = *iv;
        for i in 0..bytes.len() / 16 {
            let at = 16 * i;
            add_block(&mut chain, &bytes[at..at + 16]);
            self.encrypt(&mut chain);
            bytes[at..at + 16].copy_from_slice(&chain);
        }
    }

    /// Decrypts whole blocks of 16 bytes in place by cipher block chaining, from the initialization
    /// vector `iv` (NIST SP 800-38A, 6.2): what encryption made are the plain bytes again.
    pub fn cbc_decrypt(&self, iv: &[u8; 16], bytes: &mut [u8])
        requires { length bytes.old % 16 ≡ 0 }
        ensures value { bytes.new ≡ cbc_decrypted self.now iv.now bytes.old }
        ensures undone { (plain : List ℕ) → AreBlocks plain → bytes.old ≡ cbc_encrypted self.now iv.now plain → bytes.new ≡ plain }
        ensures again { cbc_encrypted self.now iv.now bytes.new ≡ bytes.old }
    {
        // The clauses on encryption rest on the key's expansion.
        let _ = &self.schedule;
        let mut chain = *iv;
        for i in 0..bytes.len() / 16 {
            let at = 16 * i;
            let cryptogram = block_at(bytes, at);
            let mut block = cryptogram;
            self.decrypt(&mut block);
            add_block(&mut block, &chain);
            bytes[at..at + 16].copy_from_slice(&block);
            chain = cryptogram;
        }
    }
}

// The block that begins at a place.
fn block_at(bytes: &[u8], at: usize) -> Block
    requires { at + 16 ≤ length bytes.now }
    ensures { result ≡ take 16 (drop at bytes.now) }
{
    let mut block = [0; 16];
    block.copy_from_slice(&bytes[at..at + 16]);
    block
}

// The round constants: the powers of x (FIPS 197, 5.2).
const RCON: [u8; 10] = [0x01, 0x02, 0x04, 0x08, 0x10, 0x20, 0x40, 0x80, 0x1b, 0x36];

// The key expansion for a number of rounds, and zeros after it.
fn expand(key: &[u8], rounds: usize) -> [u8; 240]
    requires least { 10 ≤ rounds }
    requires most { rounds ≤ 14 }
    requires size { length key.now ≡ 4 * (rounds - 6) }
    ensures key { take (length key.now) result ≡ key.now }
    ensures expansion { take (16 * (rounds + 1)) result ≡ key_expansion key.now }
{
    let words = rounds - 6;
    let mut schedule = [0; 240];
    write_at(&mut schedule, 0, key);
    for i in words..4 * (rounds + 1) {
        let word = next_word(&schedule, words, i);
        write_at(&mut schedule, 4 * i, &word);
    }
    schedule
}

// Writes bytes at a place.
fn write_at(schedule: &mut [u8; 240], at: usize, bytes: &[u8])
    requires { at + length bytes.now ≤ 240 }
    ensures { take (at + length bytes.now) schedule.new ≡ take at schedule.old ++ bytes.now }
{
    schedule[at..at + bytes.len()].copy_from_slice(bytes);
}

// Word `i` of the expansion, from the words before it (FIPS 197, 5.2).
#[tactic(auto, unfolding(crate::specs::Cipher::next_word))]
fn next_word(schedule: &[u8; 240], words: usize, i: usize) -> [u8; 4]
    requires least { 4 ≤ words }
    requires from { words ≤ i }
    requires below { i < 60 }
    requires constants { i / words ≤ 10 }
    ensures { result ≡ next_word words i schedule.now }
{
    let before = 4 * (i - words);
    let [a, b, c, d] = transformed_word(schedule, words, i);
    [
        schedule[before] ^ a,
        schedule[before + 1] ^ b,
        schedule[before + 2] ^ c,
        schedule[before + 3] ^ d,
    ]
}

// SUBWORD (FIPS 197, 5.2).
fn sub_word(word: [u8; 4]) -> [u8; 4]
    ensures { result ≡ sub_word word }
{
    let [a, b, c, d] = word;
    [sub(a), sub(b), sub(c), sub(d)]
}

// SUBWORD of ROTWORD of a word, and a round constant added (FIPS 197, 5.2).
fn rotated_word(word: [u8; 4], constant: u8) -> [u8; 4]
    ensures { result ≡ rotated_word word constant }
{
    let [a, b, c, d] = word;
    [sub(b) ^ constant, sub(c), sub(d), sub(a)]
}

// What word `i` is added to: the word before it, transformed where its place asks for that.
#[tactic(auto, unfolding(crate::specs::Cipher::transformed_word))]
fn transformed_word(schedule: &[u8; 240], words: usize, i: usize) -> [u8; 4]
    requires least { 4 ≤ words }
    requires from { words ≤ i }
    requires below { i < 60 }
    requires constants { i / words ≤ 10 }
    ensures { result ≡ transformed_word words i (word_at schedule.now (i - 1)) }
{
    let at = 4 * (i - 1);
    let before = [
        schedule[at],
        schedule[at + 1],
        schedule[at + 2],
        schedule[at + 3],
    ];
    if i % words == 0 {
        return rotated_word(before, RCON[i / words - 1]);
    }
    if words > 6 && i % words == 4 {
        return sub_word(before);
    }
    before
}
