//! Reading protected replies.
ghost use Rattle.std.specs.Prelude.{◌≡◌, ℕ, ◌<◌, ◌≤◌, true, List, ◌∷◌, ◌++◌, length, IfSome, IsSomeAnd};
ghost use Rattle.std.specs.Bool.{OnTrue};
ghost use Rattle.arrayvec.specs.ArrayVec.{array_vec_len};
ghost use Rattle.eid_apdu.specs.Answer.{status_bytes};
ghost use Rattle.eid_tlv.specs.Objects.{object};
ghost use Rattle.eid_sm.specs.Parts.{AreBytes, with_mac, encrypted_object};
ghost use Rattle.eid_sm.specs.Replies.{reply_objects};

use crate::parts::MAX_MESSAGE;
use crate::reading::{open_encrypted, without_end, without_mac};
use arrayvec::ArrayVec;
use eid_aes::Aes;
use eid_apdu::MAX_CONTENT;

/// The content and the status of a reply of any length.
pub fn split_status(bytes: &[u8]) -> Option<(&[u8], u16)>
    ensures found { IfSome result (λ r. bytes.now ≡ r.0.now ++ status_bytes r.1) }
    ensures range { IfSome result (λ r. r.1 < 65536) }
    ensures only { (content : List ℕ) (status : ℕ) → bytes.now ≡ content ++ status_bytes status → IsSomeAnd result (λ r. (r.0.now ≡ content) × (r.1 ≡ status)) }
{
    match bytes {
        [content @ .., sw1, sw2] => Some((content, u16::from_be_bytes([*sw1, *sw2]))),
        _ => None,
    }
}

// DO 99 with the status bytes.
#[tactic(auto, using(crate::proofs::PartFacts::status_object_is))]
fn status_object(status: u16) -> [u8; 4]
    ensures { result ≡ object 0x99 (status_bytes status) }
{
    let [sw1, sw2] = status.to_be_bytes();
    [0x99, 2, sw1, sw2]
}

// What stands before a DO 99 with that status, where the bytes end with it.
fn without_status(bytes: &[u8], status: u16) -> Option<&[u8]>
    ensures found { IfSome result (λ r. bytes.now ≡ r.now ++ object 0x99 (status_bytes status)) }
    ensures only { (before : List ℕ) → bytes.now ≡ before ++ object 0x99 (status_bytes status) → IsSomeAnd result (λ r. r.now ≡ before) }
{
    without_end(bytes, &status_object(status))
}

// Replaces what the buffer holds, where there is room.
fn replace(content: &mut ArrayVec<u8, MAX_CONTENT>, bytes: &[u8]) -> bool
    ensures found { OnTrue result (content.new.items ≡ bytes.now) }
    ensures octets { OnTrue result (AreBytes content.new.items) }
    ensures size { OnTrue result (array_vec_len content.new ≤ MAX_CONTENT) }
    ensures fits { length bytes.now ≤ MAX_CONTENT → result ≡ true }
{
    content.clear();
    content.try_extend_from_slice(bytes).is_ok()
}

// Decrypts the content of a protected reply into `plain`: from DO 87 where there is one, behind which
// stand DO 99 with the status and DO 8E.
fn open_content<const ROUNDS: usize>(
    enc: &Aes<ROUNDS>,
    mac: &Aes<ROUNDS>,
    count: &[u8; 16],
    objects: &[u8],
    status: u16,
    plain: &mut ArrayVec<u8, MAX_MESSAGE>,
) -> bool
    requires { length objects.now ≤ MAX_MESSAGE }
    ensures found { OnTrue result (objects.now ≡ with_mac mac.now count.now (reply_objects enc.now count.now plain.new.items (status_bytes status))) }
    ensures only { (p : List ℕ) → AreBytes p
        → objects.now ≡ with_mac mac.now count.now (reply_objects enc.now count.now p (status_bytes status)) → (result ≡ true) × (plain.new.items ≡ p) }
{
    let Some(before) = without_mac(mac, count, objects) else {
        return false;
    };
    let Some(encrypted) = without_status(before, status) else {
        return false;
    };
    open_encrypted(enc, count, encrypted, plain)
}

/// Decrypts the content of a protected reply with that status into `content`. The padded form of the longest
/// content is longer than the content's buffer, so it is decrypted in a buffer of its own.
pub fn open_reply<const ROUNDS: usize>(
    enc: &Aes<ROUNDS>,
    mac: &Aes<ROUNDS>,
    count: &[u8; 16],
    objects: &[u8],
    status: u16,
    content: &mut ArrayVec<u8, MAX_CONTENT>,
) -> bool
    ensures found { OnTrue result (objects.now ≡ with_mac mac.now count.now (reply_objects enc.now count.now content.new.items (status_bytes status))) }
    ensures octets { OnTrue result (AreBytes content.new.items) }
    ensures size { OnTrue result (array_vec_len content.new ≤ MAX_CONTENT) }
    ensures only { (p : List ℕ) → AreBytes p → length p ≤ MAX_CONTENT
        → objects.now ≡ with_mac mac.now count.now (reply_objects enc.now count.now p (status_bytes status)) → (result ≡ true) × (content.new.items ≡ p) }
{
    if objects.len() > MAX_MESSAGE {
        return false;
    }
    let mut plain = ArrayVec::new();
    if !open_content(enc, mac, count, objects, status, &mut plain) {
        return false;
    }
    replace(content, plain.as_slice())
}
