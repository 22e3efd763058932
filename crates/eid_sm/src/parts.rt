//! Writing the data objects of protected messages.
ghost use Rattle.std.specs.Prelude.{◌≡◌, ◌+◌, ◌-◌, ◌%◌, ◌≤◌, ◌++◌, length, take, drop, IsTrue};
ghost use Rattle.arrayvec.specs.ArrayVec.{array_vec_len};
ghost use Rattle.eid_aes.specs.Cbc.{cbc_encrypted};
ghost use Rattle.eid_cmac.specs.Cmac.{mac8};
ghost use Rattle.eid_tlv.specs.Objects.{is_tag, object};
ghost use Rattle.eid_sm.specs.Parts.{AreBytes, cryptogram, encrypted_object, padded_objects, mac_object};

use arrayvec::ArrayVec;
use eid_aes::Aes;
use eid_cmac::{mac8, padding};
use eid_tlv::{head, put};

/// How many bytes a protected message has at most, and the body of a protected command.
pub const MAX_MESSAGE: usize = 2200;

// What pads data objects where there are any.
#[tactic(auto, unfolding(crate::specs::Parts::padded_objects))]
fn padding_of(objects: &[u8]) -> &'static [u8]
    ensures { objects.now ++ result.now ≡ padded_objects objects.now }
{
    match objects {
        [] => &[],
        _ => padding(objects.len()),
    }
}

/// Appends a data object for which there is room.
#[tactic(auto, using(crate::proofs::PartFacts::object_fits))]
pub fn append(out: &mut ArrayVec<u8, MAX_MESSAGE>, tag: u16, value: &[u8])
    requires tag { IsTrue (is_tag tag) }
    requires room { array_vec_len out.old + length value.now + 5 ≤ MAX_MESSAGE }
    ensures items { out.new.items ≡ out.old.items ++ object tag value.now }
    ensures size { array_vec_len out.new ≤ array_vec_len out.old + length value.now + 5 }
{
    put(out, tag, value).unwrap();
}

// The MAC, 8 bytes, of what stands before the data objects and of the data objects, padded where there are any.
#[tactic(auto, using(crate::proofs::PartFacts::message_in_parts))]
fn message_mac<const ROUNDS: usize>(mac: &Aes<ROUNDS>, start: &[u8], objects: &[u8]) -> [u8; 8]
    ensures { result ≡ mac8 mac.now (start.now ++ padded_objects objects.now) }
{
    mac8(mac, start, objects, padding_of(objects))
}

// Encrypts the bytes from a place on by cipher block chaining, in place.
fn encrypt_from<const ROUNDS: usize>(enc: &Aes<ROUNDS>, iv: &[u8; 16], bytes: &mut [u8], at: usize)
    requires within { at ≤ length bytes.old }
    requires blocks { (length bytes.old - at) % 16 ≡ 0 }
    ensures { bytes.new ≡ take at bytes.old ++ cbc_encrypted enc.now iv.now (drop at bytes.old) }
{
    enc.cbc_encrypt(iv, &mut bytes[at..]);
}

// Appends the cryptogram of some bytes: they are padded, and encrypted from the encrypted counter on.
fn append_cryptogram<const ROUNDS: usize>(
    enc: &Aes<ROUNDS>,
    count: &[u8; 16],
    plain: &[u8],
    out: &mut ArrayVec<u8, MAX_MESSAGE>,
)
    requires { array_vec_len out.old + length plain.now + 16 ≤ MAX_MESSAGE }
    ensures { out.new.items ≡ out.old.items ++ cryptogram enc.now count.now plain.now }
{
    let mut iv = *count;
    enc.encrypt(&mut iv);
    let at = out.len();
    out.try_extend_from_slice(plain).unwrap();
    out.try_extend_from_slice(padding(plain.len())).unwrap();
    encrypt_from(enc, &iv, out.as_mut_slice(), at);
}

/// Appends DO 87, where there are bytes to protect: the byte 01, and their cryptogram.
#[tactic(auto, using(crate::proofs::PartFacts::encrypted_none, crate::proofs::PartFacts::encrypted_some))]
pub fn append_encrypted<const ROUNDS: usize>(
    enc: &Aes<ROUNDS>,
    count: &[u8; 16],
    plain: &[u8],
    out: &mut ArrayVec<u8, MAX_MESSAGE>,
)
    requires { array_vec_len out.old + length plain.now + 22 ≤ MAX_MESSAGE }
    ensures items { out.new.items ≡ out.old.items ++ encrypted_object enc.now count.now plain.now }
    ensures size { array_vec_len out.new ≤ array_vec_len out.old + length plain.now + 22 }
    ensures octets { AreBytes plain.now }
{
    if plain.is_empty() {
        return;
    }
    let size = 1 + plain.len() + padding(plain.len()).len();
    out.try_extend_from_slice(&head(0x87, size)).unwrap();
    out.push(0x01);
    append_cryptogram(enc, count, plain, out);
}

/// DO 8E: the MAC of what stands before the data objects and of the data objects.
#[tactic(auto, using(crate::proofs::Lengths::mac_object_is))]
pub fn mac_bytes<const ROUNDS: usize>(mac: &Aes<ROUNDS>, start: &[u8], objects: &[u8]) -> [u8; 10]
    ensures { result ≡ mac_object mac.now start.now objects.now }
{
    let [a, b, c, d, e, f, g, h] = message_mac(mac, start, objects);
    [0x8E, 8, a, b, c, d, e, f, g, h]
}

/// Appends DO 8E, the MAC of what stands before the data objects and of the data objects so far.
pub fn append_mac<const ROUNDS: usize>(
    mac: &Aes<ROUNDS>,
    start: &[u8],
    out: &mut ArrayVec<u8, MAX_MESSAGE>,
)
    requires { array_vec_len out.old + 10 ≤ MAX_MESSAGE }
    ensures items { out.new.items ≡ out.old.items ++ mac_object mac.now start.now out.old.items }
    ensures size { array_vec_len out.new ≡ array_vec_len out.old + 10 }
{
    let object = mac_bytes(mac, start, out.as_slice());
    out.try_extend_from_slice(&object).unwrap();
}
