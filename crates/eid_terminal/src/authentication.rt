//! Terminal authentication with the import of certificates (BSI TR-03110-2 and TR-03110-3).
ghost use Rattle.std.specs.Prelude.{◌≡◌, ◌+◌, ◌≤◌, ◌<◌, length, drop, Option, ℕ, List};
ghost use Rattle.sha2.specs.Sha256.{sha256};
ghost use Rattle.eid_apdu.specs.Answer.{PlainReply, plain_reply};
ghost use Rattle.eid_cvc.specs.PublicKeys.{x_half};
ghost use Rattle.eid_sm.specs.Keys.{ChannelState};
ghost use Rattle.eid_terminal.specs.declared.action.Step.TheVariants as steps;
ghost use Rattle.eid_terminal.specs.Authentication as course;
ghost use Rattle.eid_terminal.specs.Authentication.{to_sign};
ghost use Rattle.eid_terminal.specs.Commands.{get_challenge, import_certificate};
ghost use Rattle.eid_terminal.specs.Courses.{Passes};
ghost use Rattle.eid_terminal.specs.Exchanges.{exchange, expecting};
ghost use Rattle.eid_terminal.specs.Plans.{IsFit, PlainPlan, plan_view};
ghost use Rattle.eid_terminal.specs.View.{Comes, Did, HasCertificate, after_terminal, certificate_at, imports_behind, seen};

use crate::action::{Message, Step};
use crate::bodies::{announcement, auxiliary, key_selection};
use crate::certificates::{certificate_at, issuer_of, last_holder};
use crate::headers::{
    ANNOUNCE, EXTERNAL_AUTHENTICATE, GET_CHALLENGE, SELECT_KEY, VERIFY_CERTIFICATE,
};
use crate::line::send;
use crate::plan::Plan;
use crate::replies::{challenge_in, is_done};
use crate::state::{Awaited, Pair, Standing, TerminalCommand, Turn};
use crate::turns::{failed, passed, stopped};
use eid_apdu::Reply;
use eid_base::Point;
use eid_copro::Coprocessor;
use eid_sm::Channel;
use sha2::{Digest, Sha256};

/// The X half of a point.
fn x_half(point: &Point) -> [u8; 32]
    ensures { result ≡ x_half point.now }
{
    let mut half = [0; 32];
    half.copy_from_slice(&point[1..33]);
    half
}

/// Goes on with the certificate at this place: selects the key by which it is verified. Behind the last one the terminal
/// announces itself.
pub fn import<C: Coprocessor>(
    plan: &Plan,
    channel: &mut Option<Channel>,
    identity: [u8; 32],
    place: usize,
    copro: &mut C,
    message: &mut Message,
) -> Turn
    requires { 1 ≤ (C.seen copro.old).spare }
    ensures { (heard : PlainReply) → Comes (C.seen copro.old) (C.seen copro.new) (plan_view plan.now) (seen result channel.new message.new.items heard)
        (course.imports (plan_view plan.now) identity (drop place (plan_view plan.now).certificates) channel.old) }
{
    let Some(certificate) = certificate_at(plan, place) else {
        return announce(plan, channel, identity, copro, message);
    };
    send(
        channel,
        Awaited::Terminal(TerminalCommand::KeySelection { identity, place }),
        SELECT_KEY,
        &key_selection(issuer_of(certificate)),
        message,
    )
}

/// The key was selected: sends the certificate at this place.
pub fn after_key_selection(
    plan: &Plan,
    channel: &mut Option<Channel>,
    identity: [u8; 32],
    place: usize,
    reply: &Reply,
    message: &mut Message,
) -> Turn
    requires fit { IsFit (plan_view plan.now) }
    requires there { place < length (plan_view plan.now).certificates }
    ensures { (heard : PlainReply) → let p = plan_view plan.now in
        Did p (seen result channel.new message.new.items heard) (expecting steps.Ta (exchange steps.Ta (import_certificate (certificate_at p place))
        (expecting steps.Ta (imports_behind p identity place))) channel.old (plain_reply reply.now)) }
{
    if !is_done(reply) {
        return stopped(Step::Ta, reply.status);
    }
    let certificate = certificate_at(plan, place).unwrap();
    send(
        channel,
        Awaited::Terminal(TerminalCommand::Certificate { identity, place }),
        VERIFY_CERTIFICATE,
        certificate,
        message,
    )
}

/// The certificate at this place was accepted: goes on with the next one.
pub fn after_certificate<C: Coprocessor>(
    plan: &Plan,
    channel: &mut Option<Channel>,
    identity: [u8; 32],
    place: usize,
    reply: &Reply,
    copro: &mut C,
    message: &mut Message,
) -> Turn
    requires there { place < length (plan_view plan.now).certificates }
    requires room { 1 ≤ (C.seen copro.old).spare }
    ensures { (heard : PlainReply) → let p = plan_view plan.now in
        Comes (C.seen copro.old) (C.seen copro.new) p (seen result channel.new message.new.items heard)
        (expecting steps.Ta (imports_behind p identity place) channel.old (plain_reply reply.now)) }
{
    if !is_done(reply) {
        return stopped(Step::Ta, reply.status);
    }
    import(plan, channel, identity, place + 1, copro, message)
}

/// Draws a pair, and announces the terminal with the X half of its point.
fn announce<C: Coprocessor>(
    plan: &Plan,
    channel: &mut Option<Channel>,
    identity: [u8; 32],
    copro: &mut C,
    message: &mut Message,
) -> Turn
    requires { 1 ≤ (C.seen copro.old).spare }
    ensures { (heard : PlainReply) → Comes (C.seen copro.old) (C.seen copro.new) (plan_view plan.now) (seen result channel.new message.new.items heard)
        (course.authenticate_terminal (plan_view plan.now) identity channel.old) }
{
    let Ok(pair) = copro.pair(None) else {
        return failed(Step::Ta);
    };
    let (secret, point) = pair;
    let name = last_holder(&plan.certificates);
    let body = announcement(name, &x_half(&point), &auxiliary(plan));
    let pair = Pair { secret, point };
    send(
        channel,
        Awaited::Terminal(TerminalCommand::Announcement { identity, pair }),
        ANNOUNCE,
        &body,
        message,
    )
}

/// The terminal was announced: asks for a challenge.
pub fn after_announcement(
    channel: &mut Option<Channel>,
    identity: [u8; 32],
    pair: Pair,
    reply: &Reply,
    message: &mut Message,
) -> Turn
    ensures { (plan : PlainPlan) (heard : PlainReply) → Did plan (seen result channel.new message.new.items heard) (expecting steps.Ta (exchange steps.Ta get_challenge
        (course.after_challenge plan identity pair.secret pair.point)) channel.old (plain_reply reply.now)) }
{
    if !is_done(reply) {
        return stopped(Step::Ta, reply.status);
    }
    send(
        channel,
        Awaited::Terminal(TerminalCommand::Challenge { identity, pair }),
        GET_CHALLENGE,
        &[],
        message,
    )
}

/// SHA-256 of what the terminal signs.
fn digest(identity: &[u8; 32], challenge: &[u8; 8], point: &Point, auxiliary: &[u8]) -> [u8; 32]
    ensures { result ≡ sha256 (to_sign identity.now challenge.now point.now auxiliary.now) }
{
    let mut hasher = Sha256::new();
    hasher.update(identity);
    hasher.update(challenge);
    hasher.update(&x_half(point));
    hasher.update(auxiliary);
    hasher.finalize()
}

/// The challenge came: sends the signature.
pub fn after_challenge<C: Coprocessor>(
    plan: &Plan,
    channel: &mut Option<Channel>,
    identity: &[u8; 32],
    pair: Pair,
    reply: &Reply,
    copro: &mut C,
    message: &mut Message,
) -> Turn
    requires { 1 ≤ (C.seen copro.old).spare }
    ensures { (heard : PlainReply) → Comes (C.seen copro.old) (C.seen copro.new) (plan_view plan.now) (seen result channel.new message.new.items heard)
        (course.after_challenge (plan_view plan.now) identity.now pair.secret pair.point channel.old (plain_reply reply.now)) }
{
    let Some(challenge) = challenge_in(reply) else {
        return stopped(Step::Ta, reply.status);
    };
    let digest = digest(identity, &challenge, &pair.point, &auxiliary(plan));
    let Ok(signature) = copro.sign(&plan.terminal_secret, &digest) else {
        return failed(Step::Ta);
    };
    send(
        channel,
        Awaited::Terminal(TerminalCommand::Signature { pair, signature }),
        EXTERNAL_AUTHENTICATE,
        &signature,
        message,
    )
}

/// The signature was accepted.
pub fn after_signature(pair: Pair, reply: &Reply) -> Turn
    ensures { (plan : PlainPlan) (channel : Option ChannelState) (message : List ℕ) (heard : PlainReply) → Did plan (seen result channel message heard)
        (expecting steps.Ta (λ known. Passes steps.Ta (course.authenticate_chip plan pair.secret pair.point known)) channel (plain_reply reply.now)) }
{
    if !is_done(reply) {
        return stopped(Step::Ta, reply.status);
    }
    passed(Step::Ta, Standing::TerminalProven { pair })
}

/// Goes on by the reply to a command of terminal authentication.
pub fn hear<C: Coprocessor>(
    plan: &Plan,
    channel: &mut Option<Channel>,
    command: TerminalCommand,
    reply: &Reply,
    copro: &mut C,
    message: &mut Message,
) -> Turn
    requires fit { IsFit (plan_view plan.now) }
    requires there { HasCertificate (plan_view plan.now) command }
    requires room { 1 ≤ (C.seen copro.old).spare }
    ensures { (heard : PlainReply) → let p = plan_view plan.now in
        Comes (C.seen copro.old) (C.seen copro.new) p (seen result channel.new message.new.items heard) (after_terminal p command channel.old (plain_reply reply.now)) }
{
    match command {
        TerminalCommand::KeySelection { identity, place } => {
            after_key_selection(plan, channel, identity, place, reply, message)
        }
        TerminalCommand::Certificate { identity, place } => {
            after_certificate(plan, channel, identity, place, reply, copro, message)
        }
        TerminalCommand::Announcement { identity, pair } => {
            after_announcement(channel, identity, pair, reply, message)
        }
        TerminalCommand::Challenge { identity, pair } => {
            after_challenge(plan, channel, &identity, pair, reply, copro, message)
        }
        TerminalCommand::Signature { pair, .. } => after_signature(pair, reply),
    }
}
