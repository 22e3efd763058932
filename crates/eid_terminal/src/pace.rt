//! PACE (BSI TR-03110-2 and TR-03110-3, generic mapping).
ghost use Rattle.std.specs.Prelude.{◌≡◌, ◌≤◌, Option, Some, ℕ, List};
ghost use Rattle.eid_apdu.specs.Answer.{PlainReply, plain_reply};
ghost use Rattle.eid_pace.specs.Keys as keys;
ghost use Rattle.eid_sm.specs.Keys.{ChannelState};
ghost use Rattle.eid_terminal.specs.Pace as course;
ghost use Rattle.eid_terminal.specs.Pace.{channel_under, decrypted_nonce, token_for};
ghost use Rattle.eid_terminal.specs.Plans.{PlainPlan};
ghost use Rattle.eid_terminal.specs.View.{Comes, Did, after_pace, opened_after, ready_course, seen, terms_view};

use crate::action::{Message, Step};
use crate::bodies::{authentication_data, no_data, pace_selection};
use crate::headers::{AUTHENTICATE, AUTHENTICATE_CHAINED, SELECT_PACE};
use crate::line::send;
use crate::replies::{is_pace_selected, point_in, token_in, value_in};
use crate::state::{Awaited, PaceCommand, Pair, Round, Standing, Terms, Turn};
use crate::turns::{failed, passed, stopped};
use arrayvec::ArrayVec;
use eid_aes::Aes;
use eid_apdu::Reply;
use eid_base::Point;
use eid_bits::Known;
use eid_cmac::{SessionKeys, derive};
use eid_copro::Coprocessor;
use eid_pace::keys::{enc_key, identity_of, mac_key, token};
use eid_sm::Channel;

/// The number of the key of a password.
const PASSWORD: u32 = 3;

/// The encrypted nonce in the reply to the first step.
const NONCE: u16 = 0x80;
/// The terminal's point in the second step, and the chip's in its reply.
const MAPPING: u16 = 0x81;

const MAPPING_REPLY: u16 = 0x82;
/// The terminal's ephemeral point in the third step, and the chip's in its reply.
const EPHEMERAL: u16 = 0x83;

const EPHEMERAL_REPLY: u16 = 0x84;
/// The terminal's token in the last step.
const TOKEN: u16 = 0x85;

/// The nonce that was sent encrypted under the password's key.
fn decrypted_nonce(digits: &[u8], encrypted: &[u8; 16]) -> [u8; 16]
    ensures { result ≡ decrypted_nonce digits.now encrypted.now }
{
    let key = derive(digits, &[], PASSWORD);
    let mut block = *encrypted;
    Aes::<10>::new(&key).cbc_decrypt(&[0; 16], &mut block);
    block
}

/// The token for a point.
fn token_for(shared: &[u8; 32], point: &Point) -> [u8; 8]
    ensures { result ≡ token_for shared.now point.now }
{
    let key = Aes::<10>::new(&mac_key(shared));
    token(&key, Known::PaceAes128, point)
}

/// The channel that a PACE opens.
fn channel_under(shared: &[u8; 32]) -> Channel
    ensures { Some result ≡ channel_under (keys.enc_key shared.now) (keys.mac_key shared.now) }
{
    Channel::new(SessionKeys::Short {
        enc: enc_key(shared),
        mac: mac_key(shared),
    })
}

/// Begins a PACE: the password is chosen.
#[tactic(auto, unfolding(crate::specs::Pace::pace, crate::specs::Exchanges::exchange))]
pub fn begin(
    channel: &mut Option<Channel>,
    round: Round,
    terms: Terms,
    message: &mut Message,
) -> Turn
    ensures { (plan : PlainPlan) (heard : PlainReply) → Did plan (seen result channel.new message.new.items heard)
        (course.pace (terms_view terms) (opened_after plan round) channel.old) }
{
    let body = pace_selection(&terms);
    send(
        channel,
        Awaited::Pace(PaceCommand::Selection { round, terms }),
        SELECT_PACE,
        &body,
        message,
    )
}

/// The password was chosen: asks for the nonce.
#[tactic(auto, unfolding(crate::specs::Pace::after_selection, crate::specs::Exchanges::exchange))]
pub fn after_selection(
    channel: &mut Option<Channel>,
    round: Round,
    digits: ArrayVec<u8, 10>,
    reply: &Reply,
    message: &mut Message,
) -> Turn
    ensures { (plan : PlainPlan) (heard : PlainReply) → Did plan (seen result channel.new message.new.items heard)
        (course.after_selection digits.items (opened_after plan round) channel.old (plain_reply reply.now)) }
{
    if !is_pace_selected(reply) {
        return stopped(Step::Pace, reply.status);
    }
    send(
        channel,
        Awaited::Pace(PaceCommand::Nonce { round, digits }),
        AUTHENTICATE_CHAINED,
        &no_data(),
        message,
    )
}

/// The nonce came: draws a pair, and sends its point.
pub fn after_nonce<C: Coprocessor>(
    channel: &mut Option<Channel>,
    round: Round,
    digits: &[u8],
    reply: &Reply,
    copro: &mut C,
    message: &mut Message,
) -> Turn
    requires { 1 ≤ (C.seen copro.old).spare }
    ensures { (plan : PlainPlan) (heard : PlainReply) → Comes (C.seen copro.old) (C.seen copro.new) plan (seen result channel.new message.new.items heard)
        (course.after_nonce digits.now (opened_after plan round) channel.old (plain_reply reply.now)) }
{
    let Some(encrypted) = value_in::<16>(reply, NONCE) else {
        return stopped(Step::Pace, reply.status);
    };
    let nonce = decrypted_nonce(digits, &encrypted);
    send_mapping(channel, round, nonce, copro, message)
}

/// Draws a pair over the generator, and sends its point.
fn send_mapping<C: Coprocessor>(
    channel: &mut Option<Channel>,
    round: Round,
    nonce: [u8; 16],
    copro: &mut C,
    message: &mut Message,
) -> Turn
    requires { 1 ≤ (C.seen copro.old).spare }
    ensures { (plan : PlainPlan) (heard : PlainReply) → Comes (C.seen copro.old) (C.seen copro.new) plan (seen result channel.new message.new.items heard)
        (course.with_nonce nonce (opened_after plan round) channel.old) }
{
    let Ok(pair) = copro.pair(None) else {
        return failed(Step::Pace);
    };
    let (secret, point) = pair;
    let pair = Pair { secret, point };
    send(
        channel,
        Awaited::Pace(PaceCommand::Mapping { round, nonce, pair }),
        AUTHENTICATE_CHAINED,
        &authentication_data(MAPPING, &point),
        message,
    )
}

/// The chip's point came: maps the nonce to a base, and sends an ephemeral point over it.
pub fn after_mapping<C: Coprocessor>(
    channel: &mut Option<Channel>,
    round: Round,
    nonce: &[u8; 16],
    pair: &Pair,
    reply: &Reply,
    copro: &mut C,
    message: &mut Message,
) -> Turn
    requires { 2 ≤ (C.seen copro.old).spare }
    ensures { (plan : PlainPlan) (heard : PlainReply) → Comes (C.seen copro.old) (C.seen copro.new) plan (seen result channel.new message.new.items heard)
        (course.after_mapping nonce.now pair.now.secret pair.now.point (opened_after plan round) channel.old (plain_reply reply.now)) }
{
    let Some(peer) = point_in(reply, MAPPING_REPLY) else {
        return stopped(Step::Pace, reply.status);
    };
    if peer == pair.point {
        return stopped(Step::Pace, reply.status);
    }
    let Ok(mapping) = copro.map(nonce, &pair.secret, &peer) else {
        return failed(Step::Pace);
    };
    let Some(base) = mapping else {
        return stopped(Step::Pace, reply.status);
    };
    send_ephemeral(channel, round, &base, copro, message)
}

/// Draws an ephemeral pair over the base, and sends its point.
fn send_ephemeral<C: Coprocessor>(
    channel: &mut Option<Channel>,
    round: Round,
    base: &Point,
    copro: &mut C,
    message: &mut Message,
) -> Turn
    requires { 1 ≤ (C.seen copro.old).spare }
    ensures { (plan : PlainPlan) (heard : PlainReply) → Comes (C.seen copro.old) (C.seen copro.new) plan (seen result channel.new message.new.items heard)
        (course.with_base base.now (opened_after plan round) channel.old) }
{
    let Ok(pair) = copro.pair(Some(base)) else {
        return failed(Step::Pace);
    };
    let (secret, point) = pair;
    let pair = Pair { secret, point };
    send(
        channel,
        Awaited::Pace(PaceCommand::Agreement { round, pair }),
        AUTHENTICATE_CHAINED,
        &authentication_data(EPHEMERAL, &point),
        message,
    )
}

/// The chip's ephemeral point came: agrees on a secret, and sends the token for that point.
pub fn after_agreement<C: Coprocessor>(
    channel: &mut Option<Channel>,
    round: Round,
    pair: &Pair,
    reply: &Reply,
    copro: &mut C,
    message: &mut Message,
) -> Turn
    requires { 1 ≤ (C.seen copro.old).spare }
    ensures { (plan : PlainPlan) (heard : PlainReply) → Comes (C.seen copro.old) (C.seen copro.new) plan (seen result channel.new message.new.items heard)
        (course.after_agreement pair.now.secret pair.now.point (opened_after plan round) channel.old (plain_reply reply.now)) }
{
    let Some(peer) = point_in(reply, EPHEMERAL_REPLY) else {
        return stopped(Step::Pace, reply.status);
    };
    let point = pair.point;
    if peer == point {
        return stopped(Step::Pace, reply.status);
    }
    let Ok(agreement) = copro.agree(&pair.secret, &peer) else {
        return failed(Step::Pace);
    };
    let Some(shared) = agreement else {
        return stopped(Step::Pace, reply.status);
    };
    send(
        channel,
        Awaited::Pace(PaceCommand::Token {
            round,
            shared,
            point,
            peer,
        }),
        AUTHENTICATE,
        &authentication_data(TOKEN, &token_for(&shared, &peer)),
        message,
    )
}

/// Where the terminal stands behind a PACE.
fn standing_behind(round: Round, identity: [u8; 32]) -> Standing
    ensures { (plan : PlainPlan) (channel : Option ChannelState) → ready_course plan result channel ≡ opened_after plan round channel identity }
{
    match round {
        Round::Can => Standing::OpenedByCan,
        Round::Password => Standing::Opened { identity },
    }
}

/// The chip's token came: it has to be the one for the terminal's ephemeral point.
#[tactic(auto, unfolding(crate::specs::Pace::after_token))]
pub fn after_token(
    channel: &mut Option<Channel>,
    round: Round,
    shared: &[u8; 32],
    point: &Point,
    peer: &Point,
    reply: &Reply,
) -> Turn
    ensures { (plan : PlainPlan) (message : List ℕ) (heard : PlainReply) → Did plan (seen result channel.new message heard)
        (course.after_token shared.now point.now peer.now (opened_after plan round) channel.old (plain_reply reply.now)) }
{
    let Some(found) = token_in(reply) else {
        return stopped(Step::Pace, reply.status);
    };
    if found != token_for(shared, point) {
        return stopped(Step::Pace, reply.status);
    }
    *channel = Some(channel_under(shared));
    passed(Step::Pace, standing_behind(round, identity_of(peer)))
}

/// Goes on by the reply to a command of PACE.
pub fn hear<C: Coprocessor>(
    channel: &mut Option<Channel>,
    command: PaceCommand,
    reply: &Reply,
    copro: &mut C,
    message: &mut Message,
) -> Turn
    requires { 2 ≤ (C.seen copro.old).spare }
    ensures { (plan : PlainPlan) (heard : PlainReply) → Comes (C.seen copro.old) (C.seen copro.new) plan (seen result channel.new message.new.items heard)
        (after_pace plan command channel.old (plain_reply reply.now)) }
{
    match command {
        PaceCommand::Selection { round, terms } => {
            after_selection(channel, round, terms.digits, reply, message)
        }
        PaceCommand::Nonce { round, digits } => after_nonce(
            channel, round, &digits, reply, copro, message,
        ),
        PaceCommand::Mapping { round, nonce, pair } => {
            after_mapping(channel, round, &nonce, &pair, reply, copro, message)
        }
        PaceCommand::Agreement { round, pair } => {
            after_agreement(channel, round, &pair, reply, copro, message)
        }
        PaceCommand::Token {
            round,
            shared,
            point,
            peer,
        } => after_token(channel, round, &shared, &point, &peer, reply),
    }
}
