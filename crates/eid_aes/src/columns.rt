//! The rounds over columns: a state is four numbers, each a column with the byte of row 0 lowest.

ghost use Rattle.std.specs.Prelude.{◌≡◌, ℕ, ◌+◌, ◌*◌, ◌/◌, ◌%◌, ◌^◌, ◌<◌, ◌≤◌, List, [], ◌∷◌, length, slice_index, bit_xor};
ghost use Rattle.std.specs.Int.{byte_at};
ghost use Rattle.eid_aes.specs.Cipher.{sub_bytes, shift_rows, mix_columns, add_round_key};
ghost use Rattle.eid_aes.specs.Columns.{state_of, round_byte, last_byte};

use crate::steps::{Block, sub};
use crate::tables::{MIXED_0, MIXED_1, MIXED_2, MIXED_3};

/// A state by its columns.
pub type Columns = [u32; 4];

// The column of the four bytes from a place on.
#[inline(always)]
fn column_at(bytes: &[u8], at: usize) -> u32
    requires { at + 4 ≤ length bytes.now }
    ensures { (r : ℕ) → r < 4 → byte_at r result ≡ slice_index bytes.now (at + r) }
{
    u32::from_le_bytes([bytes[at], bytes[at + 1], bytes[at + 2], bytes[at + 3]])
}

/// The columns of a block.
#[inline(always)]
pub fn columns_of(block: &Block) -> Columns
    ensures { state_of result ≡ block.now }
{
    [
        column_at(block, 0),
        column_at(block, 4),
        column_at(block, 8),
        column_at(block, 12),
    ]
}

/// The block of the columns.
#[inline(always)]
#[tactic(auto, unfolding(crate::specs::Columns::state_of))]
pub fn block_of(s: Columns) -> Block
    ensures { result ≡ state_of s }
{
    let [a0, a1, a2, a3] = s[0].to_le_bytes();
    let [b0, b1, b2, b3] = s[1].to_le_bytes();
    let [c0, c1, c2, c3] = s[2].to_le_bytes();
    let [d0, d1, d2, d3] = s[3].to_le_bytes();
    [
        a0, a1, a2, a3, b0, b1, b2, b3, c0, c1, c2, c3, d0, d1, d2, d3,
    ]
}

/// ADDROUNDKEY with round key `round` of an expanded key (FIPS 197, 5.1.4).
#[inline(always)]
pub fn add_round_key(s: Columns, schedule: &[u8; 240], round: usize) -> Columns
    requires { round < 15 }
    ensures { state_of result ≡ add_round_key schedule.now round (state_of s) }
{
    let at = 16 * round;
    [
        s[0] ^ column_at(schedule, at),
        s[1] ^ column_at(schedule, at + 4),
        s[2] ^ column_at(schedule, at + 8),
        s[3] ^ column_at(schedule, at + 12),
    ]
}

// A byte of a column, by the place of its lowest bit.
#[inline(always)]
fn byte(column: u32, shift: u32) -> usize
    requires { shift < 32 }
    ensures { result ≡ column / 2 ^ shift % 256 }
{
    ((column >> shift) & 0xff) as usize
}

// A column after a round, from the columns that its rows come from and that of the round key.
#[inline(always)]
fn round_column(a: u32, b: u32, c: u32, d: u32, key: u32) -> u32
    ensures { (r : ℕ) → r < 4 → byte_at r result ≡ round_byte r a b c d key }
{
    MIXED_0[byte(a, 0)] ^ MIXED_1[byte(b, 8)] ^ MIXED_2[byte(c, 16)] ^ MIXED_3[byte(d, 24)] ^ key
}

// The same in the last round, which does not mix.
#[inline(always)]
fn last_column(a: u32, b: u32, c: u32, d: u32, key: u32) -> u32
    ensures { (r : ℕ) → r < 4 → byte_at r result ≡ last_byte r a b c d key }
{
    let [a, _, _, _] = a.to_le_bytes();
    let [_, b, _, _] = b.to_le_bytes();
    let [_, _, c, _] = c.to_le_bytes();
    let [_, _, _, d] = d.to_le_bytes();
    u32::from_le_bytes([sub(a), sub(b), sub(c), sub(d)]) ^ key
}

/// A round: the bytes are substituted, the rows shifted, the columns mixed, and round key `round`
/// added (FIPS 197, 5.1).
#[inline(always)]
pub fn after_round(s: Columns, schedule: &[u8; 240], round: usize) -> Columns
    requires { round < 15 }
    ensures { state_of result ≡ add_round_key schedule.now round (mix_columns (shift_rows (sub_bytes (state_of s)))) }
{
    let at = 16 * round;
    let [a, b, c, d] = s;
    [
        round_column(a, b, c, d, column_at(schedule, at)),
        round_column(b, c, d, a, column_at(schedule, at + 4)),
        round_column(c, d, a, b, column_at(schedule, at + 8)),
        round_column(d, a, b, c, column_at(schedule, at + 12)),
    ]
}

/// The last round, which does not mix.
#[inline(always)]
pub fn after_last_round(s: Columns, schedule: &[u8; 240], round: usize) -> Columns
    requires { round < 15 }
    ensures { state_of result ≡ add_round_key schedule.now round (shift_rows (sub_bytes (state_of s))) }
{
    let at = 16 * round;
    let [a, b, c, d] = s;
    [
        last_column(a, b, c, d, column_at(schedule, at)),
        last_column(b, c, d, a, column_at(schedule, at + 4)),
        last_column(c, d, a, b, column_at(schedule, at + 8)),
        last_column(d, a, b, c, column_at(schedule, at + 12)),
    ]
}
