//! Writing and reading the data objects of protected commands.
ghost use Rattle.std.specs.Prelude.{◌≡◌, ℕ, ◌+◌, ◌≤◌, true, List, ◌∷◌, [], ◌++◌, length, Some, IfSome, IfNone, OnSome, IsSomeAnd};
ghost use Rattle.std.specs.Bool.{OnTrue};
ghost use Rattle.arrayvec.specs.ArrayVec.{array_vec_len};
ghost use Rattle.eid_apdu.specs.Command.{PlainCommand, plain_command, Spells};
ghost use Rattle.eid_apdu.specs.Writing.{written};
ghost use Rattle.eid_sm.specs.Parts.{AreBytes, encrypted_object, with_mac};
ghost use Rattle.eid_sm.specs.Commands.{IsLe, greatest_ne, le_object, written_form, command_objects, AreCommandObjects, HasObjects, LacksObjects, IsProtectedClass, command_start};
ghost use Rattle.eid_sm.specs.Replies.{HasNoMac};

use crate::parts::{MAX_MESSAGE, append, append_encrypted, append_mac};
use crate::reading::{has_no_mac, open_encrypted, without_mac};
use arrayvec::ArrayVec;
use eid_aes::Aes;
use eid_apdu::{Command, extended_expected, read_command, short_expected, write_command};
use eid_cmac::padding;
use eid_tlv::next;

// The expected length that a DO 97 says, or 0 where there are no bytes.
#[tactic(auto, using(crate::proofs::PartFacts::le_object_one, crate::proofs::PartFacts::le_object_two))]
fn read_le(bytes: &[u8]) -> Option<u32>
    ensures found { IfSome result (IsLe bytes.now) }
    ensures only { (ne : ℕ) → IsLe bytes.now ne → result ≡ Some ne }
{
    match bytes {
        [] => Some(0),
        [0x97, 1, le] => Some(short_expected(*le)),
        [0x97, 2, high, low] => Some(extended_expected(*high, *low)),
        _ => None,
    }
}

// A DO 87 at the front of the data objects, where there is one, and what stands behind it.
fn split_encrypted(objects: &[u8]) -> (&[u8], &[u8])
    requires { length objects.now ≤ MAX_MESSAGE }
    ensures parts { objects.now ≡ result.0.now ++ result.1.now }
    ensures only { (key count p rest : List ℕ) (ne : ℕ) → IsLe rest ne → objects.now ≡ encrypted_object key count p ++ rest
        → (result.0.now ≡ encrypted_object key count p) × (result.1.now ≡ rest) }
{
    let Ok((object, rest)) = next(objects) else {
        return (&[], objects);
    };
    if object.tag != 0x87 {
        return (&[], objects);
    }
    objects.split_at(objects.len() - rest.len())
}

// What stands before the data objects in a command's MAC: the send sequence counter and the padded header.
fn command_start(count: &[u8; 16], header: &[u8; 4]) -> ArrayVec<u8, 32>
    ensures { result.items ≡ command_start count.now header.now }
{
    let mut start = ArrayVec::new();
    start.try_extend_from_slice(count).unwrap();
    start.try_extend_from_slice(header).unwrap();
    start.try_extend_from_slice(padding(header.len())).unwrap();
    start
}

// Appends DO 97 with an expected length, where there is one.
fn append_le(ne: u32, out: &mut ArrayVec<u8, MAX_MESSAGE>)
    requires expected { ne ≤ 65536 }
    requires room { array_vec_len out.old + 7 ≤ MAX_MESSAGE }
    ensures items { out.new.items ≡ out.old.items ++ le_object (written_form ne) ne }
    ensures size { array_vec_len out.new ≤ array_vec_len out.old + 7 }
{
    if ne == 0 {
        return;
    }
    if ne <= 256 {
        append(out, 0x97, &[(ne % 256) as u8]);
        return;
    }
    append(out, 0x97, &((ne % 65_536) as u16).to_be_bytes());
}

/// Writes the data objects of a command with their MAC, over what `out` held.
pub fn write_objects<const ROUNDS: usize>(
    enc: &Aes<ROUNDS>,
    mac: &Aes<ROUNDS>,
    count: &[u8; 16],
    header: &[u8; 4],
    body: &[u8],
    ne: u32,
    out: &mut ArrayVec<u8, MAX_MESSAGE>,
)
    requires body { length body.now + 39 ≤ MAX_MESSAGE }
    requires expected { ne ≤ 65536 }
    ensures items { out.new.items ≡ with_mac mac.now (command_start count.now header.now) (command_objects enc.now count.now (written_form ne) body.now ne) }
    ensures size { array_vec_len out.new ≤ length body.now + 39 }
    ensures octets { AreBytes body.now }
{
    out.clear();
    append_encrypted(enc, count, body, out);
    append_le(ne, out);
    append_mac(mac, command_start(count, header).as_slice(), out);
}

/// Writes a command with that header and body and the greatest expected length that its fields say, short
/// where they can be, over what `out` held.
#[tactic(auto, using(crate::proofs::Lengths::size_written))]
pub fn write_sent(header: &[u8; 4], body: &[u8], out: &mut ArrayVec<u8, MAX_MESSAGE>)
    requires { length body.now + 9 ≤ MAX_MESSAGE }
    ensures { (cla ins p1 p2 : ℕ) → header.now ≡ cla ∷ ins ∷ p1 ∷ p2 ∷ []
        → out.new.items ≡ written (record { cla = cla; ins = ins; p1 = p1; p2 = p2; body = body.now; ne = greatest_ne (length body.now) }) }
{
    let [cla, ins, p1, p2] = *header;
    let sent = Command {
        cla,
        ins,
        p1,
        p2,
        body,
        ne: if body.len() <= 255 { 256 } else { 65_536 },
    };
    out.clear();
    write_command(&sent, out).unwrap();
}

/// Decrypts the body of a command into `body` from the data objects that stand for it, and gives its expected
/// length; `None` where they are not of that form or have another MAC.
pub fn open_objects<const ROUNDS: usize>(
    enc: &Aes<ROUNDS>,
    mac: &Aes<ROUNDS>,
    count: &[u8; 16],
    header: &[u8; 4],
    bytes: &[u8],
    body: &mut ArrayVec<u8, MAX_MESSAGE>,
) -> Option<u32>
    requires { length bytes.now ≤ MAX_MESSAGE }
    ensures found { IfSome result (AreCommandObjects enc.now mac.now count.now header.now bytes.now body.new.items) }
    ensures octets { OnSome result (AreBytes body.new.items) }
    ensures only { (b : List ℕ) (ne : ℕ) → AreBytes b → AreCommandObjects enc.now mac.now count.now header.now bytes.now b ne
        → (result ≡ Some ne) × (body.new.items ≡ b) }
{
    let start = command_start(count, header);
    let Some(objects) = without_mac(mac, start.as_slice(), bytes) else {
        return None;
    };
    let (encrypted, le) = split_encrypted(objects);
    let Some(ne) = read_le(le) else {
        return None;
    };
    if open_encrypted(enc, count, encrypted, body) {
        Some(ne)
    } else {
        None
    }
}

/// The command that the bytes spell, where its body has at most 2,200 bytes, its class has both bits 0C,
/// and its body is not a list of data objects without a DO 8E.
pub fn read_sent(bytes: &[u8]) -> Option<Command<'_>>
    ensures found { IfSome result (λ c. HasObjects bytes.now (plain_command c)) }
    ensures lacking { IfNone result (LacksObjects bytes.now) }
    ensures only { (c : PlainCommand) → HasObjects bytes.now c → IsSomeAnd result (λ r. plain_command r ≡ c) }
{
    let Ok(sent) = read_command(bytes) else {
        return None;
    };
    if sent.body.len() > MAX_MESSAGE {
        return None;
    }
    if sent.cla / 4 % 4 != 3 {
        return None;
    }
    if has_no_mac(sent.body) {
        return None;
    }
    Some(sent)
}
