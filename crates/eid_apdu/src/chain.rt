//! Command chaining: a request that is sent in several commands (ISO/IEC 7816-4).
ghost use Rattle.std.specs.Prelude.{◌≡◌, ◌≤◌, ◌&&◌, ◌==◌, ◌++◌, false, List, length, is_some};
ghost use Rattle.std.specs.List.{All};
ghost use Rattle.eid_apdu.specs.Command.{PlainCommand, plain_command};
ghost use Rattle.eid_apdu.specs.Chaining as chaining;
ghost use Rattle.eid_apdu.specs.Collecting.{IsJoined, Joins, chain_of};

use crate::command::Command;
use arrayvec::ArrayVec;
use std::marker::Model;

/// The longest body of one request, in bytes.
pub const MAX_REQUEST: usize = 2048;

/// What a command is to the chain that is open, or to none.
#[derive(Clone, Copy)]
pub enum Fed {
    /// A fragment: further commands of its request follow.
    More,
    /// The request is whole.
    Whole,
    /// The command has another instruction or other parameters than the open chain.
    Broken,
    /// The body of the request has over 2,048 bytes.
    TooLong,
}

/// Instruction and parameters of the commands of a chain.
#[derive(Clone, Copy)]
struct Head {
    ins: u8,
    p1: u8,
    p2: u8,
}

/// How far a request has come.
#[derive(Clone, Copy)]
enum Stage {
    /// There is none. The buffer may hold anything.
    Empty,
    /// Commands of a chain were collected, and further ones follow.
    Open(Head),
    /// All of the request was collected.
    Complete,
}

/// Collects the body of a request from the commands in which it is sent. A contract sees the chain that is open, and the
/// bodies joined so far.
#[derive(Drop)]
pub struct Chain<const N: usize> {
    stage: Stage,
    joined: ArrayVec<u8, N>,
}

impl<const N: usize> Model for Chain<N> {
    ghost use Rattle.std.specs.Prelude.{◌≤◌, length};
    ghost use Rattle.eid_apdu.specs.Chaining.{Collected};
    ghost use Rattle.eid_apdu.specs.Collecting.{held};

    ghost Value = { Collected };

    ghost view = { λ c. held c.stage c.joined.items };

    ghost invariant = { λ c. (length c.joined.items ≤ 2048) × (2048 ≤ N) };
}

impl Head {
    /// Instruction and parameters of the command.
    fn of(c: &Command<'_>) -> Head
        ensures { (result.ins ≡ c.now.ins) × (result.p1 ≡ c.now.p1) × (result.p2 ≡ c.now.p2) }
    {
        Head {
            ins: c.ins,
            p1: c.p1,
            p2: c.p2,
        }
    }

    /// Whether the command has this instruction and these parameters.
    fn is_of(&self, c: &Command<'_>) -> bool
        ensures { result ≡ (self.now.ins == c.now.ins && self.now.p1 == c.now.p1 && self.now.p2 == c.now.p2) }
    {
        self.ins == c.ins && self.p1 == c.p1 && self.p2 == c.p2
    }
}

/// Whether further commands follow this one in its request: its class is 10, and its instruction that of MSE (22), PSO (2A)
/// or UPDATE BINARY (D6).
pub fn is_fragment(c: &Command<'_>) -> bool
    ensures { result ≡ chaining.is_fragment (plain_command c.now) }
{
    c.cla == 0x10 && (c.ins == 0x22 || c.ins == 0x2A || c.ins == 0xD6)
}

/// Appends the command's body to the bodies before it, unless the request is then too long.
fn append<const N: usize>(joined: &mut ArrayVec<u8, N>, c: &Command<'_>) -> Fed
    requires room { 2048 ≤ N }
    requires short { length joined.old.items ≤ 2048 }
    ensures { Joins joined.old.items (plain_command c.now) result joined.new.items }
{
    if MAX_REQUEST - joined.len() < c.body.len() {
        return Fed::TooLong;
    }
    joined.try_extend_from_slice(c.body).unwrap();
    if is_fragment(c) {
        Fed::More
    } else {
        Fed::Whole
    }
}

/// Joins the command's body to what the buffer holds of its request.
fn join<const N: usize>(stage: Stage, joined: &mut ArrayVec<u8, N>, c: &Command<'_>) -> Fed
    requires room { 2048 ≤ N }
    requires short { length joined.old.items ≤ 2048 }
    ensures says { chaining.Says (chain_of stage joined.old.items) (plain_command c.now) result }
    ensures short { length joined.new.items ≤ 2048 }
    ensures kept { IsJoined (chain_of stage joined.old.items) (plain_command c.now) result joined.new.items }
{
    match stage {
        Stage::Open(head) if !head.is_of(c) => Fed::Broken,
        Stage::Open(_) => append(joined, c),
        Stage::Empty | Stage::Complete => {
            joined.clear();
            append(joined, c)
        }
    }
}

impl<const N: usize> Chain<N> {
    /// A chain in which nothing is open.
    pub fn new() -> Self
        requires { 2048 ≤ N }
        ensures { result ≡ chaining.nothing_collected }
    {
        Chain {
            stage: Stage::Empty,
            joined: ArrayVec::new(),
        }
    }

    /// Whether fragments were fed, and the command that ends their request was not.
    pub fn is_open(&self) -> bool
        ensures { result ≡ is_some self.now.pending }
    {
        matches!(self.stage, Stage::Open(_))
    }

    /// The bodies joined so far: the request's body behind `Whole`, and no byte behind `Broken` and `TooLong`.
    pub fn body(&self) -> &[u8]
        ensures value { result.now ≡ self.now.body }
        ensures short { length result.now ≤ 2048 }
    {
        match self.stage {
            Stage::Empty => &[],
            _ => self.joined.as_slice(),
        }
    }

    /// Forgets what was fed: nothing is open then.
    pub fn close(&mut self)
        ensures { self.new ≡ chaining.nothing_collected }
    {
        self.stage = Stage::Empty;
    }

    /// Takes the next command: `More` for a fragment that goes on with the open chain or begins one, `Whole` for another
    /// command that ends the open chain or is a request by itself. Behind `Broken` and `TooLong` nothing is held.
    #[tactic(auto, using(crate::proofs::Chains::says_fed))]
    pub fn feed(&mut self, c: &Command<'_>) -> Fed
        ensures fed { result ≡ chaining.fed self.old.pending (plain_command c.now) }
        ensures says { chaining.Says self.old.pending (plain_command c.now) result }
        ensures pending { self.new.pending ≡ chaining.chain_after self.old.pending (plain_command c.now) result }
        ensures held { self.new ≡ chaining.collected self.old.pending (plain_command c.now) result }
    {
        let fed = join(self.stage, &mut self.joined, c);
        self.stage = match fed {
            Fed::More => Stage::Open(Head::of(c)),
            Fed::Whole => Stage::Complete,
            Fed::Broken | Fed::TooLong => Stage::Empty,
        };
        fed
    }
}

/// Fragments, fed one after the other, and the command that ends them are one request: its body is all their bodies, in
/// order.
pub fn law_joined_request()
    ensures { (fragments : List PlainCommand) (last : PlainCommand) → All (chaining.IsFragmentOf last) fragments
        → chaining.is_fragment last ≡ false → length (chaining.joined_bodies fragments ++ last.body) ≤ 2048
        → chaining.IsWholeOf fragments last }
{}
