//! Reading and writing a reply.
ghost use Rattle.std.specs.Prelude.{◌≡◌, ◌+◌, ◌<◌, ◌≤◌, ◌++◌, ◌↔◌, length, OnOk, OnErr, IfOk, IsOk, IsOkAnd};
ghost use Rattle.arrayvec.specs.ArrayVec.{array_vec_len};
ghost use Rattle.eid_apdu.specs.Answer.{PlainReply, IsReply, plain_reply, spelled};

use crate::command::BadApdu;
use arrayvec::ArrayVec;
use eid_base::{Full, Status};

/// How many bytes of data a reply has at most.
pub const MAX_CONTENT: usize = 2100;

/// A response APDU (ISO/IEC 7816-4).
#[derive(Debug, Drop)]
pub struct Reply {
    /// The response data field.
    pub content: ArrayVec<u8, MAX_CONTENT>,
    /// The status bytes.
    pub status: Status,
}

/// Appends the bytes of a reply: the content, then the two status bytes.
///
/// # Errors
/// `Full` exactly where they do not fit; the buffer is then as before.
pub fn write_reply<const N: usize>(r: &Reply, out: &mut ArrayVec<u8, N>) -> Result<(), Full>
    ensures written { OnOk result (out.new.items ≡ out.old.items ++ spelled (plain_reply r.now)) }
    ensures fits { IsOk result ↔ (array_vec_len out.old + length (spelled (plain_reply r.now)) ≤ N) }
    ensures same { OnErr result (out.new.items ≡ out.old.items) }
{
    let status = r.status.0.to_be_bytes();
    if out.remaining_capacity() < r.content.len() + status.len() {
        return Err(Full);
    }
    out.try_extend_from_slice(r.content.as_slice()).unwrap();
    out.try_extend_from_slice(&status).unwrap();
    Ok(())
}

/// Reads the reply whose bytes these are: the content, then the two status bytes.
///
/// # Errors
/// `BadApdu` exactly where there are fewer than 2 bytes, or more than 2,102.
pub fn read_reply(bytes: &[u8]) -> Result<Reply, BadApdu>
    ensures found { IfOk result (λ r. spelled (plain_reply r) ≡ bytes.now) }
    ensures sized { IsOk result ↔ ((2 ≤ length bytes.now) × (length bytes.now ≤ 2102)) }
    ensures again { (r : PlainReply) → IsReply r → bytes.now ≡ spelled r → IsOkAnd result (λ read. plain_reply read ≡ r) }
{
    let [data @ .., sw1, sw2] = bytes else {
        return Err(BadApdu);
    };
    if data.len() > MAX_CONTENT {
        return Err(BadApdu);
    }
    let mut content = ArrayVec::new();
    content.try_extend_from_slice(data).unwrap();
    Ok(Reply {
        content,
        status: Status(u16::from_be_bytes([*sw1, *sw2])),
    })
}

/// Bytes are those of at most one reply.
pub fn law_one_reply()
    ensures { (r s : PlainReply) → spelled r ≡ spelled s → IsReply r → IsReply s → r ≡ s }
{}
