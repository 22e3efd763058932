//! Reading a command.
ghost use Rattle.std.specs.Prelude.{◌≡◌, ◌<◌, ℕ, List, [], ◌∷◌, length, IfOk, IsOkAnd, OnErr};
ghost use Rattle.eid_apdu.specs.Command.{PlainCommand, plain_command, short_le, extended_le, two_bytes, IsShortLe, IsExtendedLe, IsTail, Spells};

/// The bytes are no command, or no reply.
#[derive(Clone, Copy)]
pub struct BadApdu;

/// A command APDU (ISO/IEC 7816-4).
#[derive(Clone, Copy, Debug)]
pub struct Command<'a> {
    /// The class byte.
    pub cla: u8,
    /// The instruction byte.
    pub ins: u8,
    /// The first parameter byte.
    pub p1: u8,
    /// The second parameter byte.
    pub p2: u8,
    /// The command data field, empty where there is none.
    pub body: &'a [u8],
    /// How many bytes of reply data are expected at most; 0 where no length is expected.
    pub ne: u32,
}

/// The expected length, in bytes, that a field Le of one byte stands for: 00 is 256 (ISO/IEC 7816-4).
pub fn short_expected(le: u8) -> u32
    ensures value { short_le result ≡ le }
    ensures range { IsShortLe result }
{
    if le == 0 { 256 } else { u32::from(le) }
}

/// The number that two bytes are, big-endian.
fn number(high: u8, low: u8) -> u16
    ensures { two_bytes result ≡ high ∷ low ∷ [] }
{
    u16::from_be_bytes([high, low])
}

/// The expected length, in bytes, that a field Le of two bytes stands for, the high one first: 0000 is
/// 65,536 (ISO/IEC 7816-4).
pub fn extended_expected(high: u8, low: u8) -> u32
    ensures value { two_bytes (extended_le result) ≡ high ∷ low ∷ [] }
    ensures range { IsExtendedLe result }
{
    let le = number(high, low);
    if le == 0 { 65_536 } else { u32::from(le) }
}

/// Body and expected length of the bytes behind a length byte Lc other than 00: a body of that many
/// bytes, and then nothing or one byte Le.
fn read_body(lc: u8, bytes: &[u8]) -> Result<(&[u8], u32), BadApdu>
    requires size { 0 < lc }
    requires some { 0 < length bytes.now }
    ensures found { IfOk result (λ r. IsTail (lc ∷ bytes.now) r.0.now r.1) }
    ensures refused { OnErr result ((body : List ℕ) (ne : ℕ) → IsTail (lc ∷ bytes.now) body ne → ⊥) }
{
    let count = usize::from(lc);
    if bytes.len() < count {
        return Err(BadApdu);
    }
    let (body, after) = bytes.split_at(count);
    match after {
        [] => Ok((body, 0)),
        [le] => Ok((body, short_expected(*le))),
        _ => Err(BadApdu),
    }
}

/// Body and expected length of the bytes behind 00 and two length bytes Lc: a body of that many bytes,
/// and then nothing or two bytes Le.
fn read_extended_body(high: u8, low: u8, bytes: &[u8]) -> Result<(&[u8], u32), BadApdu>
    requires { 0 < length bytes.now }
    ensures found { IfOk result (λ r. IsTail (0 ∷ high ∷ low ∷ bytes.now) r.0.now r.1) }
    ensures refused { OnErr result ((body : List ℕ) (ne : ℕ) → IsTail (0 ∷ high ∷ low ∷ bytes.now) body ne → ⊥) }
{
    let count = usize::from(number(high, low));
    if count == 0 || bytes.len() < count {
        return Err(BadApdu);
    }
    let (body, after) = bytes.split_at(count);
    match after {
        [] => Ok((body, 0)),
        [high, low] => Ok((body, extended_expected(*high, *low))),
        _ => Err(BadApdu),
    }
}

/// Body and expected length of the bytes behind the byte 00 of an extended length field.
fn read_extended(bytes: &[u8]) -> Result<(&[u8], u32), BadApdu>
    requires { 0 < length bytes.now }
    ensures found { IfOk result (λ r. IsTail (0 ∷ bytes.now) r.0.now r.1) }
    ensures refused { OnErr result ((body : List ℕ) (ne : ℕ) → IsTail (0 ∷ bytes.now) body ne → ⊥) }
{
    match bytes {
        [high, low] => Ok((&[], extended_expected(*high, *low))),
        [high, low, rest @ ..] => read_extended_body(*high, *low, rest),
        _ => Err(BadApdu),
    }
}

/// Body and expected length of the bytes behind a header.
fn read_tail(bytes: &[u8]) -> Result<(&[u8], u32), BadApdu>
    ensures found { IfOk result (λ r. IsTail bytes.now r.0.now r.1) }
    ensures refused { OnErr result ((body : List ℕ) (ne : ℕ) → IsTail bytes.now body ne → ⊥) }
{
    match bytes {
        [] => Ok((&[], 0)),
        [le] => Ok((&[], short_expected(*le))),
        [0, rest @ ..] => read_extended(rest),
        [lc, rest @ ..] => read_body(*lc, rest),
    }
}

/// Reads the command that the bytes spell (ISO/IEC 7816-4), with length fields of one byte or extended.
///
/// # Errors
/// `BadApdu` exactly where no case spells the bytes.
pub fn read_command(bytes: &[u8]) -> Result<Command<'_>, BadApdu>
    ensures found { IfOk result (λ c. Spells bytes.now (plain_command c)) }
    ensures only { (c : PlainCommand) → Spells bytes.now c → IsOkAnd result (λ r. plain_command r ≡ c) }
{
    let [cla, ins, p1, p2, rest @ ..] = bytes else {
        return Err(BadApdu);
    };
    let Ok((body, ne)) = read_tail(rest) else {
        return Err(BadApdu);
    };
    Ok(Command {
        cla: *cla,
        ins: *ins,
        p1: *p1,
        p2: *p2,
        body,
        ne,
    })
}

/// Bytes spell at most one command.
pub fn law_one_command()
    ensures { (bytes : List ℕ) (c d : PlainCommand) → Spells bytes c → Spells bytes d → c ≡ d }
{}
