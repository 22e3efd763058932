//! The requests, one after the other (BSI TR-03110-2 and TR-03110-4).
ghost use Rattle.std.specs.Prelude.{◌≡◌, ◌+◌, ◌≤◌, ◌<◌, length, slice_get, IsSome, ℕ, List, Option};
ghost use Rattle.eid_apdu.specs.Answer.{PlainReply, plain_reply};
ghost use Rattle.eid_sm.specs.Keys.{ChannelState};
ghost use Rattle.eid_terminal.specs.Courses.{Gives};
ghost use Rattle.eid_terminal.specs.Plans.{CanBeAsked, IsFit, PlainPlan, plan_view};
ghost use Rattle.eid_terminal.specs.Requests.{after_command, after_identification, after_protocol, lacks_identifier, last_step, sector_of};
ghost use Rattle.eid_terminal.specs.View.{Did, HasRequest, after_request, requests_from, seen};

use crate::action::{Deed, Message, Step};
use crate::bodies::{authentication_data, protocol_selection, verification};
use crate::headers::{AUTHENTICATE, SELECT_PROTOCOL, VERIFY};
use crate::line::send;
use crate::plan::{Plan, Request};
use crate::replies::{is_success, value_in};
use crate::state::{Awaited, Ending, RequestCommand, Standing, State, Turn};
use crate::turns::stopped;
use eid_apdu::Reply;
use eid_bits::Known;
use eid_cvc::token_object;
use eid_sm::{Channel, Header};

/// The key of the first sector.
const SECTOR: u16 = 0xA0;
/// The identifier in a sector.
const IDENTIFIER: u16 = 0x81;
/// What says in P1 that a short identifier follows.
const SHORT_IDENTIFIER: u8 = 0x80;

/// The last step begun before the requests.
pub fn last_step(plan: &Plan) -> Step
    ensures { result ≡ last_step (plan_view plan.now) }
{
    if plan.certificates.is_empty() {
        Step::Pace
    } else {
        Step::Select
    }
}

/// The request at this place, where there is one.
fn request_at(plan: &Plan, place: u8) -> Option<Request>
    ensures { result ≡ slice_get (plan_view plan.now).requests place }
{
    plan.requests.get(usize::from(place)).copied()
}

/// Sends the first command of the request at this place; behind the last one all is done.
pub fn ask(plan: &Plan, channel: &mut Option<Channel>, place: u8, message: &mut Message) -> Turn
    requires { IsFit (plan_view plan.now) }
    ensures { (heard : PlainReply) → Did (plan_view plan.now) (seen result channel.new message.new.items heard) (requests_from (plan_view plan.now) place channel.old) }
{
    let Some(request) = request_at(plan, place) else {
        return Turn {
            state: State::Ended(Ending::Done),
            deed: Deed::Done,
        };
    };
    let awaited = Awaited::Request(RequestCommand::First { request, place });
    match request {
        Request::File(number) => send(channel, awaited, read(number), &[], message),
        Request::Age => send(
            channel,
            awaited,
            VERIFY,
            &verification(Known::Birth),
            message,
        ),
        Request::Validity => send(
            channel,
            awaited,
            VERIFY,
            &verification(Known::Expiry),
            message,
        ),
        Request::Community => send(
            channel,
            awaited,
            VERIFY,
            &verification(Known::Community),
            message,
        ),
        Request::Ri => send(
            channel,
            awaited,
            SELECT_PROTOCOL,
            &protocol_selection(Known::RiSha256),
            message,
        ),
    }
}

/// READ BINARY of a data group by its short identifier.
fn read(number: u8) -> Header
    requires { number ≤ 21 }
    ensures { result ≡ record { cla = 0x00; ins = 0xB0; p1 = 0x80 + number; p2 = 0x00; ne = 65536 } }
{
    Header {
        cla: 0x00,
        ins: 0xB0,
        p1: SHORT_IDENTIFIER + number,
        p2: 0x00,
        ne: 65_536,
    }
}

/// The reply that was heard is the result of the request at this place.
fn give(place: u8) -> Turn
    requires { place < 255 }
    ensures { (plan : PlainPlan) (channel : Option ChannelState) (message : List ℕ) (heard : PlainReply) → Did plan (seen result channel message heard)
        (Gives place heard (requests_from plan (place + 1) channel)) }
{
    let standing = Standing::Requests { place: place + 1 };
    Turn {
        state: State::Ready(standing),
        deed: Deed::Result { request: place },
    }
}

/// The reply to the first command of the request at this place came.
pub fn after_answer(
    plan: &Plan,
    channel: &mut Option<Channel>,
    request: Request,
    place: u8,
    reply: &Reply,
    message: &mut Message,
) -> Turn
    requires fit { IsFit (plan_view plan.now) }
    requires there { place < length (plan_view plan.now).requests }
    requires asked { CanBeAsked (plan_view plan.now).sector request }
    ensures { let p = plan_view plan.now in
        Did p (seen result channel.new message.new.items (plain_reply reply.now))
        (after_command (last_step p) (sector_of p) place request (requests_from p (place + 1)) channel.old (plain_reply reply.now)) }
{
    match request {
        Request::Ri => after_protocol(plan, channel, place, reply, message),
        _ => give(place),
    }
}

/// Restricted identification was selected: sends the sector key.
fn after_protocol(
    plan: &Plan,
    channel: &mut Option<Channel>,
    place: u8,
    reply: &Reply,
    message: &mut Message,
) -> Turn
    requires fit { IsFit (plan_view plan.now) }
    requires there { place < length (plan_view plan.now).requests }
    requires sector { IsSome (plan_view plan.now).sector }
    ensures { let p = plan_view plan.now in
        Did p (seen result channel.new message.new.items (plain_reply reply.now))
        (after_protocol (last_step p) (sector_of p) place (requests_from p (place + 1)) channel.old (plain_reply reply.now)) }
{
    if !is_success(reply) {
        return give(place);
    }
    let sector = plan.sector.as_ref().unwrap();
    let body = authentication_data(SECTOR, &token_object(Known::RiSha256, sector));
    send(
        channel,
        Awaited::Request(RequestCommand::Sector { place }),
        AUTHENTICATE,
        &body,
        message,
    )
}

/// Whether a reply is a success without an identifier.
fn lacks_identifier(reply: &Reply) -> bool
    ensures { result ≡ lacks_identifier (plain_reply reply.now) }
{
    is_success(reply) && value_in::<32>(reply, IDENTIFIER).is_none()
}

/// The reply to the sector key came: a success has to hold the identifier.
pub fn after_identifier(plan: &Plan, place: u8, reply: &Reply) -> Turn
    requires fit { IsFit (plan_view plan.now) }
    requires there { place < length (plan_view plan.now).requests }
    ensures { (channel : Option ChannelState) (message : List ℕ) → let p = plan_view plan.now in
        Did p (seen result channel message (plain_reply reply.now))
        (after_identification (last_step p) place (requests_from p (place + 1)) channel (plain_reply reply.now)) }
{
    if lacks_identifier(reply) {
        return stopped(last_step(plan), reply.status);
    }
    give(place)
}

/// Goes on by the reply to a command of a request.
pub fn hear(
    plan: &Plan,
    channel: &mut Option<Channel>,
    command: RequestCommand,
    reply: &Reply,
    message: &mut Message,
) -> Turn
    requires fit { IsFit (plan_view plan.now) }
    requires there { HasRequest (plan_view plan.now) command }
    ensures { let p = plan_view plan.now in Did p (seen result channel.new message.new.items (plain_reply reply.now))
        (after_request p command channel.old (plain_reply reply.now)) }
{
    match command {
        RequestCommand::First { request, place } => {
            after_answer(plan, channel, request, place, reply, message)
        }
        RequestCommand::Sector { place } => after_identifier(plan, place, reply),
    }
}
