//! Writing a command.
ghost use Rattle.std.specs.Prelude.{◌≡◌, ◌+◌, ◌≤◌, ◌++◌, ◌↔◌, true, ℕ, List, [], ◌∷◌, length, OnOk, OnErr, IsOk};
ghost use Rattle.arrayvec.specs.ArrayVec.{array_vec_len};
ghost use Rattle.eid_apdu.specs.Command.{PlainCommand, plain_command, Spells};
ghost use Rattle.eid_apdu.specs.Fields.{lc_bytes, le_bytes};
ghost use Rattle.eid_apdu.specs.Writing as writing;

use crate::command::Command;
use arrayvec::ArrayVec;
use eid_base::Full;

/// Whether short length fields can say the lengths of a command.
fn is_short(c: &Command<'_>) -> bool
    ensures { result ≡ writing.is_short c.now.body.now c.now.ne }
{
    c.body.len() <= 255 && c.ne <= 256
}

/// The field Lc for a body of this size: nothing for none, else one byte, or 00 and two bytes.
fn lc_field(size: usize, is_short: bool) -> ArrayVec<u8, 3>
    requires size { size ≤ 65535 }
    requires short { is_short ≡ true → size ≤ 255 }
    ensures { result.items ≡ lc_bytes is_short size }
{
    let mut field = ArrayVec::new();
    if size == 0 {
        return field;
    }
    if is_short {
        field.push(size as u8);
        return field;
    }
    let [high, low] = (size as u16).to_be_bytes();
    field.push(0);
    field.push(high);
    field.push(low);
    field
}

/// The field Le: nothing for no expected length, else one byte or two, where 0 says the greatest
/// length. Two bytes that follow no field Lc have a byte 00 before them.
fn le_field(size: usize, ne: u32, is_short: bool) -> ArrayVec<u8, 3>
    requires { ne ≤ 65536 }
    ensures { result.items ≡ le_bytes is_short size ne }
{
    let mut field = ArrayVec::new();
    if ne == 0 {
        return field;
    }
    if is_short {
        field.push((ne % 256) as u8);
        return field;
    }
    let [high, low] = ((ne % 65_536) as u16).to_be_bytes();
    if size == 0 {
        field.push(0);
    }
    field.push(high);
    field.push(low);
    field
}

/// The header, and the field Lc.
fn before_body(c: &Command<'_>, is_short: bool) -> ArrayVec<u8, 7>
    requires size { length c.now.body.now ≤ 65535 }
    requires short { is_short ≡ true → length c.now.body.now ≤ 255 }
    ensures { result.items ≡ c.now.cla ∷ c.now.ins ∷ c.now.p1 ∷ c.now.p2 ∷ lc_bytes is_short (length c.now.body.now) }
{
    let field = lc_field(c.body.len(), is_short);
    let mut before = ArrayVec::new();
    before
        .try_extend_from_slice(&[c.cla, c.ins, c.p1, c.p2])
        .unwrap();
    before.try_extend_from_slice(&field).unwrap();
    before
}

/// Appends the bytes of a command (ISO/IEC 7816-4): with short length fields where the body has at most
/// 255 bytes and at most 256 bytes are expected, else with extended ones.
///
/// # Errors
/// `Full` exactly where they do not fit; the buffer is then as before.
pub fn write_command<const N: usize>(c: &Command<'_>, out: &mut ArrayVec<u8, N>) -> Result<(), Full>
    requires body { length c.now.body.now ≤ 65535 }
    requires expected { c.now.ne ≤ 65536 }
    ensures written { OnOk result (out.new.items ≡ out.old.items ++ writing.written (plain_command c.now)) }
    ensures fits { IsOk result ↔ (array_vec_len out.old + length (writing.written (plain_command c.now)) ≤ N) }
    ensures same { OnErr result (out.new ≡ out.old) }
{
    let short = is_short(c);
    let before = before_body(c, short);
    let after = le_field(c.body.len(), c.ne, short);
    if out.remaining_capacity() < before.len() + c.body.len() + after.len() {
        return Err(Full);
    }
    out.try_extend_from_slice(&before).unwrap();
    out.try_extend_from_slice(c.body).unwrap();
    out.try_extend_from_slice(&after).unwrap();
    Ok(())
}

/// What a command is written as spells that command.
pub fn law_written_is_read()
    ensures { (c : PlainCommand) → length c.body ≤ 65535 → c.ne ≤ 65536 → Spells (writing.written c) c }
{}
