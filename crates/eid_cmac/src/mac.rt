ghost use Rattle.std.specs.Prelude.{◌≡◌, ℕ, ◌+◌, ◌≤◌, List, [], ◌++◌, length, replicate};
ghost use Rattle.eid_aes.specs.Cipher.{xor_block};
ghost use Rattle.eid_cmac.specs.Cmac.{doubled, cmac, mac8};
ghost use Rattle.eid_cmac.specs.Absorbing.{Holds};

use eid_aes::Aes;

/// The MAC, 16 bytes, of a message that comes in three pieces (AES-CMAC, RFC 4493; NIST SP 800-38B).
pub fn cmac<const ROUNDS: usize>(
    key: &Aes<ROUNDS>,
    first: &[u8],
    second: &[u8],
    third: &[u8],
) -> [u8; 16]
    ensures { result ≡ cmac key.now (first.now ++ second.now ++ third.now) }
{
    let mut message = Absorbed::new();
    message.absorb(key, first);
    message.absorb(key, second);
    message.absorb(key, third);
    message.finish(key)
}

/// The first 8 bytes of the MAC of a message that comes in three pieces, as secure messaging and the
/// authentication tokens carry it (BSI TR-03110-3).
pub fn mac8<const ROUNDS: usize>(
    key: &Aes<ROUNDS>,
    first: &[u8],
    second: &[u8],
    third: &[u8],
) -> [u8; 8]
    ensures { result ≡ mac8 key.now (first.now ++ second.now ++ third.now) }
{
    *cmac(key, first, second, third).first_chunk::<8>().unwrap()
}

// A message taken so far: the chain with the bytes of the last block added, and their number,
// which is 0 only where there is no byte yet.
#[derive(Drop)]
struct Absorbed {
    state: [u8; 16],
    held: usize,
    ghost in_block: { held ≤ 16 },
}

impl Absorbed {
    fn new() -> Absorbed
        ensures { (key : List ℕ) → Holds key result.state result.held [] }
    {
        Absorbed {
            state: [0; 16],
            held: 0,
        }
    }

    // Takes a piece more. A block is encrypted when a byte behind it comes.
    fn absorb<const ROUNDS: usize>(&mut self, key: &Aes<ROUNDS>, piece: &[u8])
        ensures { (m : List ℕ) → Holds key.now self.old.state self.old.held m → Holds key.now self.new.state self.new.held (m ++ piece.now) }
    {
        let mut at = piece.len().min(16 - self.held);
        add(&mut self.state, self.held, &piece[..at]);
        self.held += at;
        while at < piece.len() {
            key.encrypt(&mut self.state);
            let end = piece.len().min(at + 16);
            add(&mut self.state, 0, &piece[at..end]);
            self.held = end - at;
            at = end;
        }
    }

    // The MAC of the message.
    fn finish<const ROUNDS: usize>(self, key: &Aes<ROUNDS>) -> [u8; 16]
        ensures { (m : List ℕ) → Holds key.now self.state self.held m → result ≡ cmac key.now m }
    {
        let mut subkey = [0; 16];
        key.encrypt(&mut subkey);
        let first = doubled(subkey);
        let mut state = self.state;
        if self.held == 16 {
            add(&mut state, 0, &first);
        } else {
            add(&mut state, self.held, &[0x80]);
            add(&mut state, 0, &doubled(first));
        }
        key.encrypt(&mut state);
        state
    }
}

// Adds bytes to a block, from a place on.
fn add(block: &mut [u8; 16], at: usize, bytes: &[u8])
    requires { at + length bytes.now ≤ 16 }
    ensures { block.new ≡ xor_block block.old (replicate at 0 ++ bytes.now) }
{
    for i in 0..bytes.len() {
        block[at + i] ^= bytes[i];
    }
}

// A block doubled in the field of 2^128 elements, as the subkeys are made.
#[tactic(auto, unfolding(crate::specs::Cmac::doubled))]
fn doubled(block: [u8; 16]) -> [u8; 16]
    ensures { result ≡ doubled block }
{
    let number = u128::from_be_bytes(block);
    let shifted = number.wrapping_mul(2);
    if number < 1 << 127 {
        return shifted.to_be_bytes();
    }
    (shifted ^ 0x87).to_be_bytes()
}
