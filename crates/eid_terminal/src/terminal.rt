//! The terminal as a state machine: it sends commands, asks a coprocessor, and goes on by what is answered.
ghost use Rattle.std.specs.Prelude.{◌≡◌};
ghost use Rattle.eid_apdu.specs.Answer.{plain_reply};
ghost use Rattle.eid_terminal.specs.Plans.{IsFit, plan_view};
ghost use Rattle.eid_terminal.specs.Terminals.{move_made, move_seen};
ghost use Rattle.eid_terminal.specs.View.{IsSound};

use crate::action::{Action, Deed, Message};
use crate::going::take_turn;
use crate::plan::Plan;
use crate::state::{Ending, Standing, State};
use arrayvec::ArrayVec;
use eid_apdu::Reply;
use eid_base::Status;
use eid_copro::Coprocessor;
use eid_sm::Channel;
use std::mem;

/// The action that a turn comes to, with the bytes that it wrote and the reply that it heard.
fn action_of(deed: Deed, message: Message, heard: Reply) -> Action
    ensures { move_seen result ≡ move_made deed message.items (plain_reply heard) }
{
    match deed {
        Deed::Send => Action::Send(message),
        Deed::Result { request } => Action::Result {
            request,
            reply: heard,
        },
        Deed::Passed { step } => Action::Passed { step },
        Deed::Done => Action::Done,
        Deed::Stopped { step, status } => Action::Stopped { step, status },
        Deed::Fault { step } => Action::Fault { step },
    }
}

/// A terminal that carries out a plan.
#[derive(Drop)]
pub struct Terminal {
    plan: Plan,
    channel: Option<Channel>,
    state: State,
    // The plan can be carried out, and the places of the state are there.
    pub ghost fit: { ∥ IsFit (plan_view plan) ∥₁ },
    pub ghost sound: { ∥ IsSound (plan_view plan) state ∥₁ },
}

impl Terminal {
    ghost use Rattle.std.specs.Prelude.{◌≡◌, ◌≤◌, false, is_some};
    ghost use Rattle.std.specs.Option.{option_copied};
    ghost use Rattle.eid_terminal.specs.Seen.{terminal_view};
    ghost use Rattle.eid_terminal.specs.Terminals.{Goes, begun, move_made, move_seen};

    /// A terminal before its first command.
    #[tactic(auto, unfolding(crate::specs::Seen::terminal_view))]
    pub fn new(plan: Plan) -> Terminal
        requires { IsFit (plan_view plan) }
        ensures { terminal_view result ≡ begun (plan_view plan) }
    {
        Terminal {
            plan,
            channel: None,
            state: State::Ready(Standing::Start),
        }
    }

    /// Whether all is done, a step did not succeed, or the coprocessor failed.
    #[tactic(auto, unfolding(crate::specs::Seen::terminal_view))]
    pub fn ended(&self) -> bool
        ensures { result ≡ (terminal_view self.now).ended }
    {
        matches!(self.state, State::Ended(_))
    }

    /// What the terminal does next: without a reply at first, after a passed step and after a result, and with the
    /// reply after a command. It puts at most two questions.
    ///
    /// `Stopped` comes exactly where the reply is not the success of its step, or cannot be read or unsealed, or a
    /// question about it has no point as its answer; `Fault` exactly where a question met a fault.
    #[tactic(auto, unfolding(crate::specs::Seen::terminal_view))]
    pub fn next<C: Coprocessor>(&mut self, reply: Option<&[u8]>, copro: &mut C) -> Action
        requires going { (terminal_view self.old).ended ≡ false }
        requires due { is_some reply ≡ (terminal_view self.old).waits }
        requires room { 3 ≤ (C.seen copro.old).spare }
        ensures { Goes (C.seen copro.old) (C.seen copro.new) (terminal_view self.old) (terminal_view self.new)
            (option_copied reply.entry) (move_seen result) }
    {
        let mut message = ArrayVec::new();
        let mut heard = Reply {
            content: ArrayVec::new(),
            status: Status(0),
        };
        let deed = self.next_in(reply, copro, &mut message, &mut heard);
        action_of(deed, message, heard)
    }

    /// What `next` does, with the command that it sends written into `message`, and the reply that it heard into
    /// `heard`. What they held before is not looked at. Afterwards they may hold anything, but for the command where one
    /// is sent, and the reply where it is a result.
    #[tactic(auto, unfolding(crate::specs::Seen::terminal_view))]
    pub fn next_in<C: Coprocessor>(
        &mut self,
        reply: Option<&[u8]>,
        copro: &mut C,
        message: &mut Message,
        heard: &mut Reply,
    ) -> Deed
        requires going { (terminal_view self.old).ended ≡ false }
        requires due { is_some reply ≡ (terminal_view self.old).waits }
        requires room { 3 ≤ (C.seen copro.old).spare }
        ensures { Goes (C.seen copro.old) (C.seen copro.new) (terminal_view self.old) (terminal_view self.new)
            (option_copied reply.entry) (move_made result message.new.items (plain_reply heard.new)) }
    {
        let state = mem::replace(&mut self.state, State::Ended(Ending::Done));
        let turn = take_turn(
            &self.plan,
            &mut self.channel,
            state,
            reply,
            copro,
            message,
            heard,
        );
        self.state = turn.state;
        turn.deed
    }
}
