//! A channel: its keys and its send sequence counter.
ghost use Rattle.std.specs.Prelude.{◌≡◌, ◌≢◌, ℕ, ◌≤◌, ◌↔◌, List, length, IsOk, OnOk, OnErr, IfOk, IsOkAnd};
ghost use Rattle.arrayvec.specs.ArrayVec.{array_vec_len};
ghost use Rattle.eid_apdu.specs.Answer.{PlainReply, plain_reply};
ghost use Rattle.eid_sm.specs.Keys.{Keys, ChannelState, keys_view, counter_bytes, next_counter, advanced};
ghost use Rattle.eid_apdu.specs.Command.{PlainCommand, plain_command};
ghost use Rattle.eid_apdu.specs.Writing.{written};
ghost use Rattle.eid_sm.specs.Commands.{IsPlainClass, IsProtected, written_command, HasObjects, LacksObjects};
ghost use Rattle.eid_sm.specs.Parts.{AreBytes};
ghost use Rattle.eid_sm.specs.Plain.{plain_of};
ghost use Rattle.eid_sm.specs.Replies.{sealed, IsSealed, IsBareReply};

use crate::commands::{open_objects, read_sent, write_objects, write_sent};
use crate::parts::{MAX_MESSAGE, append, append_encrypted, append_mac};
use crate::reading::has_no_mac;
use crate::replies::{open_reply, split_status};
use arrayvec::ArrayVec;
use eid_aes::Aes;
use eid_apdu::{Command, MAX_CONTENT, Reply};
use eid_base::Status;
use eid_cmac::SessionKeys;
use std::marker::Model;

/// How many bytes a plain command body or the data of a plain reply has at most.
pub const MAX_PLAIN: usize = 2048;

/// Why a protected message was refused.
#[derive(Clone, Copy)]
pub enum SmError {
    /// The data objects of secure messaging are missing.
    Missing,
    /// The message has other data objects than the one of the next counter, in another order, or another MAC.
    Wrong,
}

/// A plain command without its body.
#[derive(Clone, Copy, Debug)]
pub struct Header {
    /// The class byte, without the bits 0C.
    pub cla: u8,
    /// The instruction byte.
    pub ins: u8,
    /// The first parameter byte.
    pub p1: u8,
    /// The second parameter byte.
    pub p2: u8,
    /// How many bytes of reply data are expected at most; 0 where no length is expected.
    pub ne: u32,
}

impl Header {
    /// The plain command with this body.
    pub fn with_body<'a>(&self, body: &'a [u8]) -> Command<'a>
        ensures { plain_command result ≡ plain_of self.now body.now }
    {
        Command {
            cla: self.cla,
            ins: self.ins,
            p1: self.p1,
            p2: self.p2,
            body,
            ne: self.ne,
        }
    }
}

/// The state of secure messaging: the keys for encryption and for MACs, expanded once, and the send sequence
/// counter of the last message. A contract sees the keys' bytes and the counter as a number.
#[derive(Drop)]
pub struct Channel {
    enc: Aes<10>,
    mac: Aes<10>,
    counter: u128,
}

impl Model for Channel {
    ghost Value = { ChannelState };

    ghost view = { λ c. record { keys = record { enc = c.enc; mac = c.mac }; counter = c.counter } };
}

impl Channel {
    /// A channel under these keys. Its send sequence counter is 0.
    pub fn new(keys: SessionKeys) -> Channel
        ensures { result ≡ record { keys = keys_view keys; counter = 0 } }
    {
        let SessionKeys::Short { enc, mac } = keys;
        Channel {
            enc: Aes::<10>::new(&enc),
            mac: Aes::<10>::new(&mac),
            counter: 0,
        }
    }

    /// Writes the protected form of a reply, at the next counter, over what `out` held.
    pub fn seal(&mut self, reply: &Reply, out: &mut ArrayVec<u8, MAX_MESSAGE>)
        requires { array_vec_len reply.now.content ≤ 2048 }
        ensures written { out.new.items ≡ sealed self.old.keys (next_counter self.old.counter) (plain_reply reply.now) }
        ensures readable { IsSealed self.old.keys (next_counter self.old.counter) out.new.items (plain_reply reply.now) }
        ensures counted { self.new ≡ advanced self.old }
    {
        self.counter = next_counter(self.counter);
        let count = counter_bytes(self.counter);
        let status = reply.status.0.to_be_bytes();
        out.clear();
        append_encrypted(&self.enc, &count, reply.content.as_slice(), out);
        append(out, 0x99, &status);
        append_mac(&self.mac, &count, out);
        out.try_extend_from_slice(&status).unwrap();
    }

    /// Writes a protected form of a command, at the next counter, over what `out` held: with the expected
    /// length in one byte up to 256, and the greatest expected length outside, short where it can be. The data
    /// objects are made in a buffer of their own, since the command's length field before them says their length.
    pub fn wrap(&mut self, c: &Command<'_>, out: &mut ArrayVec<u8, MAX_MESSAGE>)
        requires body { length c.now.body.now ≤ 2048 }
        requires expected { c.now.ne ≤ 65536 }
        requires class { IsPlainClass c.now.cla }
        ensures written { out.new.items ≡ written (written_command self.old.keys (next_counter self.old.counter) (plain_command c.now)) }
        ensures readable { IsProtected self.old.keys (next_counter self.old.counter) out.new.items (plain_command c.now) }
        ensures counted { self.new ≡ advanced self.old }
    {
        self.counter = next_counter(self.counter);
        let count = counter_bytes(self.counter);
        let header = [c.cla + 0x0C, c.ins, c.p1, c.p2];
        let mut objects = ArrayVec::new();
        write_objects(
            &self.enc,
            &self.mac,
            &count,
            &header,
            c.body,
            c.ne,
            &mut objects,
        );
        write_sent(&header, objects.as_slice(), out);
    }

    /// Reads a protected command at the next counter: its body into `body`, over what that held, and the
    /// rest as the answer. After an error `body` may hold anything, and the channel is not to be used
    /// again.
    ///
    /// # Errors
    /// `Missing` exactly where the bytes are no command with a body of at most 2,200 bytes, its class has
    /// not both bits 0C, or its body is a list of data objects without a DO 8E. `Wrong` exactly where they are
    /// neither that nor a protected form of a command at the next counter.
    pub fn unwrap(
        &mut self,
        bytes: &[u8],
        body: &mut ArrayVec<u8, MAX_MESSAGE>,
    ) -> Result<Header, SmError>
        ensures found { IfOk result (λ h. IsProtected self.old.keys (next_counter self.old.counter) bytes.now (plain_of h body.new.items)) }
        ensures only { (c : PlainCommand) → IsProtected self.old.keys (next_counter self.old.counter) bytes.now c
            → IsOkAnd result (λ h. plain_of h body.new.items ≡ c) }
        ensures missing { (result ≡ Err SmError.Missing) ↔ LacksObjects bytes.now }
        ensures present { result ≢ Err SmError.Missing → (sent : PlainCommand) × HasObjects bytes.now sent }
        ensures counted { OnOk result (self.new ≡ advanced self.old) }
        ensures refused { OnErr result (self.new ≡ self.old) }
    {
        let Some(sent) = read_sent(bytes) else {
            return Err(SmError::Missing);
        };
        let counter = next_counter(self.counter);
        let count = counter_bytes(counter);
        let header = [sent.cla, sent.ins, sent.p1, sent.p2];
        let Some(ne) = open_objects(&self.enc, &self.mac, &count, &header, sent.body, body) else {
            return Err(SmError::Wrong);
        };
        self.counter = counter;
        Ok(Header {
            cla: sent.cla - 0x0C,
            ins: sent.ins,
            p1: sent.p1,
            p2: sent.p2,
            ne,
        })
    }

    /// Reads a protected reply at the next counter into `reply`. After an error `reply` may hold
    /// anything, and the channel is not to be used again.
    ///
    /// # Errors
    /// `Missing` exactly where the bytes are a reply whose content is a list of data objects without a DO 8E,
    /// `Wrong` exactly where they are neither that nor the protected form of a reply at the next counter.
    pub fn unseal(&mut self, bytes: &[u8], reply: &mut Reply) -> Result<(), SmError>
        ensures found { OnOk result (IsSealed self.old.keys (next_counter self.old.counter) bytes.now (plain_reply reply.new)) }
        ensures only { (r : PlainReply) → IsSealed self.old.keys (next_counter self.old.counter) bytes.now r
            → IsOk result × (plain_reply reply.new ≡ r) }
        ensures missing { (result ≡ Err SmError.Missing) ↔ IsBareReply bytes.now }
        ensures counted { OnOk result (self.new ≡ advanced self.old) }
        ensures refused { OnErr result (self.new ≡ self.old) }
    {
        let Some((objects, status)) = split_status(bytes) else {
            return Err(SmError::Wrong);
        };
        if objects.len() <= MAX_CONTENT && has_no_mac(objects) {
            return Err(SmError::Missing);
        }
        let counter = next_counter(self.counter);
        let count = counter_bytes(counter);
        if !open_reply(
            &self.enc,
            &self.mac,
            &count,
            objects,
            status,
            &mut reply.content,
        ) {
            return Err(SmError::Wrong);
        }
        reply.status = Status(status);
        self.counter = counter;
        Ok(())
    }
}

// The send sequence counter of the next message.
fn next_counter(counter: u128) -> u128
    ensures { result ≡ next_counter counter }
{
    counter.wrapping_add(1)
}

// A send sequence counter as bytes.
#[tactic(auto, unfolding(crate::specs::Keys::counter_bytes))]
fn counter_bytes(counter: u128) -> [u8; 16]
    ensures { result ≡ counter_bytes counter }
{
    counter.to_be_bytes()
}

/// Under keys of bytes, and at one counter, bytes are a protected form of at most one command.
pub fn law_one_protected()
    ensures { (keys : Keys) (n : ℕ) (bytes : List ℕ) (c d : PlainCommand) → AreBytes keys.enc
        → IsProtected keys n bytes c → IsProtected keys n bytes d → c ≡ d }
{}

/// Under keys of bytes, and at one counter, bytes are the protected form of at most one reply.
pub fn law_one_sealed()
    ensures { (keys : Keys) (n : ℕ) (bytes : List ℕ) (r s : PlainReply) → AreBytes keys.enc
        → IsSealed keys n bytes r → IsSealed keys n bytes s → r ≡ s }
{}
