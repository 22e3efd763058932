//! Chip authentication, and the selection of the application (BSI TR-03110-2 and TR-03110-3; ISO/IEC 7816-4).
ghost use Rattle.std.specs.Prelude.{◌≡◌, ◌≤◌, Option, Some, ℕ, List};
ghost use Rattle.eid_apdu.specs.Answer.{PlainReply, plain_reply};
ghost use Rattle.eid_ca.specs.Keys as keys;
ghost use Rattle.eid_sm.specs.Keys.{ChannelState};
ghost use Rattle.eid_terminal.specs.declared.action.Step.TheVariants as steps;
ghost use Rattle.eid_terminal.specs.Authentication as course;
ghost use Rattle.eid_terminal.specs.Authentication.{chip_token};
ghost use Rattle.eid_terminal.specs.Commands as commands;
ghost use Rattle.eid_terminal.specs.Courses.{Passes};
ghost use Rattle.eid_terminal.specs.Exchanges.{exchange, expecting};
ghost use Rattle.eid_terminal.specs.Pace.{channel_under};
ghost use Rattle.eid_terminal.specs.Plans.{PlainPlan, plan_view};
ghost use Rattle.eid_terminal.specs.Requests.{requests};
ghost use Rattle.eid_terminal.specs.View.{Comes, Did, after_chip, seen};

use crate::action::{Message, Step};
use crate::bodies::{authentication_data, protocol_selection};
use crate::headers::{AUTHENTICATE, SELECT_APPLICATION, SELECT_PROTOCOL};
use crate::line::send;
use crate::plan::Plan;
use crate::replies::{is_done, proof_in};
use crate::state::{Awaited, ChipCommand, Pair, Standing, Turn};
use crate::turns::{failed, passed, stopped};
use eid_aes::Aes;
use eid_apdu::Reply;
use eid_base::Point;
use eid_bits::Known;
use eid_ca::keys::{enc_key, mac_key, token};
use eid_cmac::SessionKeys;
use eid_copro::Coprocessor;
use eid_sm::Channel;

/// The terminal's point.
const POINT: u16 = 0x80;

/// The token for the terminal's point.
fn chip_token(shared: &[u8; 32], nonce: &[u8; 8], point: &Point) -> [u8; 8]
    ensures { result ≡ chip_token shared.now nonce.now point.now }
{
    let key = Aes::<10>::new(&mac_key(shared, nonce));
    token(&key, Known::CaAes128, point)
}

/// The channel that chip authentication opens.
fn channel_under(shared: &[u8; 32], nonce: &[u8; 8]) -> Channel
    ensures { Some result ≡ channel_under (keys.enc_key shared.now nonce.now) (keys.mac_key shared.now nonce.now) }
{
    Channel::new(SessionKeys::Short {
        enc: enc_key(shared, nonce),
        mac: mac_key(shared, nonce),
    })
}

/// Selects chip authentication.
pub fn begin(channel: &mut Option<Channel>, pair: Pair, message: &mut Message) -> Turn
    ensures { (plan : PlainPlan) (heard : PlainReply) → Did plan (seen result channel.new message.new.items heard)
        (course.authenticate_chip plan pair.secret pair.point channel.old) }
{
    send(
        channel,
        Awaited::Chip(ChipCommand::Selection { pair }),
        SELECT_PROTOCOL,
        &protocol_selection(Known::CaAes128),
        message,
    )
}

/// Chip authentication was selected: sends the point.
pub fn after_selection(
    channel: &mut Option<Channel>,
    pair: Pair,
    reply: &Reply,
    message: &mut Message,
) -> Turn
    ensures { (plan : PlainPlan) (heard : PlainReply) → Did plan (seen result channel.new message.new.items heard)
        (expecting steps.Ca (exchange steps.Ca (commands.prove pair.point)
        (course.after_proof plan pair.secret pair.point)) channel.old (plain_reply reply.now)) }
{
    if !is_done(reply) {
        return stopped(Step::Ca, reply.status);
    }
    let body = authentication_data(POINT, &pair.point);
    send(
        channel,
        Awaited::Chip(ChipCommand::Proof { pair }),
        AUTHENTICATE,
        &body,
        message,
    )
}

/// The chip's nonce and token came: agrees on a secret with its static key. The token has to be the one for the
/// terminal's point.
pub fn after_proof<C: Coprocessor>(
    plan: &Plan,
    channel: &mut Option<Channel>,
    pair: &Pair,
    reply: &Reply,
    copro: &mut C,
) -> Turn
    requires { 1 ≤ (C.seen copro.old).spare }
    ensures { (message : List ℕ) (heard : PlainReply)
        → Comes (C.seen copro.old) (C.seen copro.new) (plan_view plan.now) (seen result channel.new message heard)
        (course.after_proof (plan_view plan.now) pair.now.secret pair.now.point channel.old (plain_reply reply.now)) }
{
    let Some(proof) = proof_in(reply) else {
        return stopped(Step::Ca, reply.status);
    };
    let Ok(agreement) = copro.agree(&pair.secret, &plan.chip_key) else {
        return failed(Step::Ca);
    };
    let Some(shared) = agreement else {
        return stopped(Step::Ca, reply.status);
    };
    if proof.token != chip_token(&shared, &proof.nonce, &pair.point) {
        return stopped(Step::Ca, reply.status);
    }
    *channel = Some(channel_under(&shared, &proof.nonce));
    passed(Step::Ca, Standing::ChipProven)
}

/// Selects the application.
pub fn select(channel: &mut Option<Channel>, message: &mut Message) -> Turn
    ensures { (plan : PlainPlan) (heard : PlainReply) → Did plan (seen result channel.new message.new.items heard) (course.select plan channel.old) }
{
    send(
        channel,
        Awaited::Chip(ChipCommand::Application),
        SELECT_APPLICATION,
        Known::Application.bytes(),
        message,
    )
}

/// The application was selected.
pub fn after_application(reply: &Reply) -> Turn
    ensures { (plan : PlainPlan) (channel : Option ChannelState) (message : List ℕ) (heard : PlainReply) → Did plan (seen result channel message heard)
        (expecting steps.Select (λ selected. Passes steps.Select (requests plan 0 plan.requests selected)) channel (plain_reply reply.now)) }
{
    if !is_done(reply) {
        return stopped(Step::Select, reply.status);
    }
    passed(Step::Select, Standing::Requests { place: 0 })
}

/// Goes on by the reply to a command of chip authentication, or to the selection behind it.
pub fn hear<C: Coprocessor>(
    plan: &Plan,
    channel: &mut Option<Channel>,
    command: ChipCommand,
    reply: &Reply,
    copro: &mut C,
    message: &mut Message,
) -> Turn
    requires { 1 ≤ (C.seen copro.old).spare }
    ensures { (heard : PlainReply) → let p = plan_view plan.now in
        Comes (C.seen copro.old) (C.seen copro.new) p (seen result channel.new message.new.items heard) (after_chip p command channel.old (plain_reply reply.now)) }
{
    match command {
        ChipCommand::Selection { pair } => after_selection(channel, pair, reply, message),
        ChipCommand::Proof { pair } => after_proof(plan, channel, &pair, reply, copro),
        ChipCommand::Application => after_application(reply),
    }
}
