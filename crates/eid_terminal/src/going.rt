//! How a terminal goes on, by a reply or without one.
ghost use Rattle.std.specs.Prelude.{◌≡◌, ◌≤◌, false, is_some};
ghost use Rattle.std.specs.Option.{option_copied};
ghost use Rattle.eid_apdu.specs.Answer.{PlainReply, plain_reply};
ghost use Rattle.eid_terminal.specs.Plans.{IsFit, plan_view};
ghost use Rattle.eid_terminal.specs.Terminals as terminals;
ghost use Rattle.eid_terminal.specs.Terminals.{Goes, behind_pace, course, move_made, with_password};
ghost use Rattle.eid_terminal.specs.View.{Comes, Did, HasPlace, Heard, IsSound, later_of, ready_course, seen, state_view, step_of, terms_view};

use crate::action::{Message, Step};
use crate::line::receive;
use crate::plan::Plan;
use crate::requests::{self, last_step};
use crate::state::{Awaited, ChipCommand, Round, Standing, State, Terms, Turn};
use crate::turns::stopped;
use crate::{authentication, chip, pace};
use arrayvec::ArrayVec;
use eid_apdu::Reply;
use eid_base::Status;
use eid_copro::Coprocessor;
use eid_record::Password;
use eid_sm::Channel;

/// What stands for the status of a reply that cannot be read or unsealed.
const NO_STATUS: Status = Status(0x0000);

/// What the PACE with the card access number is made with.
fn can_terms(can: &[u8; 6]) -> Terms
    ensures { terms_view result ≡ terminals.can_terms can.now }
{
    let mut digits = ArrayVec::new();
    digits.try_extend_from_slice(can).unwrap();
    Terms {
        password: Password::Can,
        digits,
        template: None,
    }
}

/// What the PACE with the password is made with.
fn password_terms(plan: &Plan) -> Terms
    ensures { terms_view result ≡ terminals.terms_of (plan_view plan.now) }
{
    let mut digits = ArrayVec::new();
    digits.try_extend_from_slice(&plan.value).unwrap();
    Terms {
        password: plan.password,
        digits,
        template: plan.template,
    }
}

/// Begins the PACE with the password.
fn begin_with_password(plan: &Plan, channel: &mut Option<Channel>, message: &mut Message) -> Turn
    ensures { (heard : PlainReply) → Did (plan_view plan.now) (seen result channel.new message.new.items heard) (with_password (plan_view plan.now) channel.old) }
{
    pace::begin(channel, Round::Password, password_terms(plan), message)
}

/// Begins the first PACE.
fn begin(plan: &Plan, channel: &mut Option<Channel>, message: &mut Message) -> Turn
    ensures { (heard : PlainReply) → Did (plan_view plan.now) (seen result channel.new message.new.items heard) (course (plan_view plan.now)) }
{
    *channel = None;
    match &plan.can_first {
        Some(can) => pace::begin(channel, Round::Can, can_terms(can), message),
        None => begin_with_password(plan, channel, message),
    }
}

/// Goes on behind the PACE with the password: with the authentications where there are certificates, and else with the
/// requests.
fn go_on_behind_pace<C: Coprocessor>(
    plan: &Plan,
    channel: &mut Option<Channel>,
    identity: [u8; 32],
    copro: &mut C,
    message: &mut Message,
) -> Turn
    requires fit { IsFit (plan_view plan.now) }
    requires room { 1 ≤ (C.seen copro.old).spare }
    ensures { (heard : PlainReply) → Comes (C.seen copro.old) (C.seen copro.new) (plan_view plan.now) (seen result channel.new message.new.items heard)
        (behind_pace (plan_view plan.now) channel.old identity) }
{
    if plan.certificates.as_slice().is_empty() {
        return requests::ask(plan, channel, 0, message);
    }
    authentication::import(plan, channel, identity, 0, copro, message)
}

/// Goes on without a reply.
fn go_on<C: Coprocessor>(
    plan: &Plan,
    channel: &mut Option<Channel>,
    standing: Standing,
    copro: &mut C,
    message: &mut Message,
) -> Turn
    requires fit { IsFit (plan_view plan.now) }
    requires room { 1 ≤ (C.seen copro.old).spare }
    ensures { (heard : PlainReply) → Comes (C.seen copro.old) (C.seen copro.new) (plan_view plan.now) (seen result channel.new message.new.items heard)
        (ready_course (plan_view plan.now) standing channel.old) }
{
    match standing {
        Standing::Start => begin(plan, channel, message),
        Standing::OpenedByCan => begin_with_password(plan, channel, message),
        Standing::Opened { identity } => go_on_behind_pace(plan, channel, identity, copro, message),
        Standing::TerminalProven { pair } => chip::begin(channel, pair, message),
        Standing::ChipProven => chip::select(channel, message),
        Standing::Requests { place } => requests::ask(plan, channel, place, message),
    }
}

/// The last step begun where that command is sent.
fn step_of(plan: &Plan, awaited: &Awaited) -> Step
    ensures { result ≡ step_of (plan_view plan.now) awaited.now }
{
    match awaited {
        Awaited::Pace(_) => Step::Pace,
        Awaited::Terminal(_) => Step::Ta,
        Awaited::Chip(ChipCommand::Application) => Step::Select,
        Awaited::Chip(_) => Step::Ca,
        Awaited::Request(_) => last_step(plan),
    }
}

/// Goes on by a reply.
fn hear<C: Coprocessor>(
    plan: &Plan,
    channel: &mut Option<Channel>,
    awaited: Awaited,
    reply: &Reply,
    copro: &mut C,
    message: &mut Message,
) -> Turn
    requires fit { IsFit (plan_view plan.now) }
    requires there { HasPlace (plan_view plan.now) awaited }
    requires room { 2 ≤ (C.seen copro.old).spare }
    ensures { let p = plan_view plan.now in
        Comes (C.seen copro.old) (C.seen copro.new) p (seen result channel.new message.new.items (plain_reply reply.now))
        (later_of p awaited channel.old (plain_reply reply.now)) }
{
    match awaited {
        Awaited::Pace(command) => pace::hear(channel, command, reply, copro, message),
        Awaited::Terminal(command) => authentication::hear(
            plan, channel, command, reply, copro, message,
        ),
        Awaited::Chip(command) => chip::hear(plan, channel, command, reply, copro, message),
        Awaited::Request(command) => requests::hear(plan, channel, command, reply, message),
    }
}

/// Goes on by bytes that may be a reply, which is then heard.
fn receive_and_hear<C: Coprocessor>(
    plan: &Plan,
    channel: &mut Option<Channel>,
    awaited: Awaited,
    bytes: &[u8],
    copro: &mut C,
    message: &mut Message,
    heard: &mut Reply,
) -> Turn
    requires fit { IsFit (plan_view plan.now) }
    requires there { HasPlace (plan_view plan.now) awaited }
    requires room { 2 ≤ (C.seen copro.old).spare }
    ensures { Heard (C.seen copro.old) (C.seen copro.new) (plan_view plan.now) awaited channel.old bytes.now
        (seen result channel.new message.new.items (plain_reply heard.new)) }
{
    if !receive(channel, bytes, heard) {
        return stopped(step_of(plan, &awaited), NO_STATUS);
    }
    hear(plan, channel, awaited, heard, copro, message)
}

/// Takes a turn: goes on by the reply where one is due, and else without. Where a command is sent, `message` is made its
/// bytes, and `heard` the reply where one is due and can be read.
pub fn take_turn<C: Coprocessor>(
    plan: &Plan,
    channel: &mut Option<Channel>,
    state: State,
    reply: Option<&[u8]>,
    copro: &mut C,
    message: &mut Message,
    heard: &mut Reply,
) -> Turn
    requires fit { IsFit (plan_view plan.now) }
    requires there { IsSound (plan_view plan.now) state }
    requires going { (state_view (plan_view plan.now) channel.old state).ended ≡ false }
    requires due { is_some reply ≡ (state_view (plan_view plan.now) channel.old state).waits }
    requires room { 2 ≤ (C.seen copro.old).spare }
    ensures goes { let p = plan_view plan.now in Goes (C.seen copro.old) (C.seen copro.new) (state_view p channel.old state) (state_view p channel.new result.state)
        (option_copied reply.entry) (move_made result.deed message.new.items (plain_reply heard.new)) }
    ensures there { IsSound (plan_view plan.now) result.state }
{
    match state {
        State::Ready(standing) => go_on(plan, channel, standing, copro, message),
        State::Waiting(awaited) => receive_and_hear(
            plan,
            channel,
            awaited,
            reply.unwrap(),
            copro,
            message,
            heard,
        ),
        State::Ended(_) => unreachable!(),
    }
}
