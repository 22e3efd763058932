//! Questions about the terminal: what it does by the replies of a chip.
ghost use Rattle.std.specs.Prelude.{◌≡◌, true, false, OnSome};
ghost use Rattle.eid_terminal.specs.Plans.{IsFit, plan_view};
ghost use Rattle.eid_terminal.specs.Terminals.{is_end, is_sent, move_seen};

use crate::configurations::{plan_text, refused};
use crate::coprocessors::coprocessor;
use crate::messages::shown_reply;
use crate::words::{Answer, Piece, Unanswered, all_bytes, first, line, word};
use eid_apdu::Reply;
use eid_base::Status;
use eid_copro::{AnyCopro, Coprocessor};
use eid_perso::read_plan;
use eid_terminal::{Action, MAX_TURNS, Plan, Step, Terminal};
use std::alloc::Global;
use std::slice::Iter;

/// How many questions a turn of the terminal can put.
const QUESTIONS: usize = 3;
/// A terminal has ended after fewer turns: in each it sends a command or tells something, and one command may wait for
/// its reply.
const MOST_TURNS: usize = MAX_TURNS + 2;

/// `terminal START REPLIES CHANGES`: what a terminal does that carries out the plan with these changes, over the model
/// from START, by these replies, which commas part; `none` is none at all. Where no reply is left its command is told, and
/// of a plan that is refused the key.
pub fn terminal(alloc: Global, rest: &str) -> Answer {
    let Some((start, rest)) = rest.split_once(' ') else {
        return Err(Unanswered::Unclear);
    };
    let (replies, changes) = first(rest);
    let mut copro = coprocessor(alloc, &[start])?;
    let replies = replies_in(alloc, replies)?;
    let text = plan_text(alloc, changes)?;
    match read_plan(alloc, text.as_bytes()) {
        Ok(plan) => talk(alloc, plan, &replies, &mut copro),
        Err(error) => refused(alloc, error),
    }
}

/// The replies that a word names.
fn replies_in(alloc: Global, word: &str) -> Result<Vec<Vec<u8>>, Unanswered> {
    if word == "none" {
        return Ok(Vec::new(alloc));
    }
    let replies: Vec<&str> = word.split(',').collect(alloc)?;
    all_bytes(alloc, &replies)
}

/// Carries out a plan by these replies; what is told are parts behind commas.
fn talk(alloc: Global, plan: Plan, replies: &[Vec<u8>], copro: &mut AnyCopro) -> Answer
    requires { IsFit (plan_view plan) }
{
    let mut terminal = Terminal::new(plan);
    let mut told = String::new(alloc);
    let mut replies = replies.iter();
    let mut due = None;
    for _ in 0..MOST_TURNS {
        copro.make_room(QUESTIONS)?;
        let action = terminal.next(due, copro);
        if let Some(reply) = reply_to(&action, &mut replies) {
            due = Some(reply);
            continue;
        }
        due = None;
        put_part(&mut told, &shown_action(alloc, &action)?)?;
        if !goes_on(&action) {
            return Ok(told);
        }
    }
    Err(Unanswered::Unclear)
}

/// The next reply, where a command was sent and one is left.
fn reply_to<'a>(action: &Action, replies: &mut Iter<'a, Vec<u8>>) -> Option<&'a [u8]>
    ensures sent { OnSome result (is_sent (move_seen action.now) ≡ true) }
    ensures going { OnSome result (is_end (move_seen action.now) ≡ false) }
{
    match action {
        Action::Send(_) => Some(replies.next()?.as_slice()),
        _ => None,
    }
}

/// Whether a terminal goes on without a reply.
fn goes_on(action: &Action) -> bool
    ensures silent { result ≡ true → is_sent (move_seen action.now) ≡ false }
    ensures going { result ≡ true → is_end (move_seen action.now) ≡ false }
{
    matches!(action, Action::Passed { .. } | Action::Result { .. })
}

/// Appends a part, behind a comma where it is not the first one.
fn put_part(told: &mut String, part: &str) -> Result<(), Unanswered> {
    if !told.is_empty() {
        told.push_str(", ")?;
    }
    told.push_str(part)?;
    Ok(())
}

/// What a terminal does, as a part of an answer.
fn shown_action(alloc: Global, action: &Action) -> Answer {
    match action {
        Action::Send(bytes) => line(alloc, &[Piece::Text("sends "), Piece::Bytes(bytes)]),
        Action::Result { request, reply } => shown_result(alloc, *request, reply),
        Action::Passed { step } => line(
            alloc,
            &[Piece::Text("passed "), Piece::Text(step_name(*step))],
        ),
        Action::Done => word(alloc, "done"),
        Action::Stopped { step, status } => shown_stop(alloc, *step, *status),
        Action::Fault { step } => line(
            alloc,
            &[Piece::Text("fault "), Piece::Text(step_name(*step))],
        ),
    }
}

/// The reply to the request at a place.
fn shown_result(alloc: Global, request: u8, reply: &Reply) -> Answer {
    let reply = shown_reply(alloc, reply)?;
    line(
        alloc,
        &[
            Piece::Text("gives "),
            Piece::Number(u32::from(request)),
            Piece::Text(" "),
            Piece::Text(&reply),
        ],
    )
}

/// The step that did not succeed, and the status.
fn shown_stop(alloc: Global, step: Step, status: Status) -> Answer {
    let status = status.0.to_be_bytes();
    line(
        alloc,
        &[
            Piece::Text("stopped "),
            Piece::Text(step_name(step)),
            Piece::Text(" "),
            Piece::Bytes(&status),
        ],
    )
}

/// The name of a step.
fn step_name(step: Step) -> &'static str {
    match step {
        Step::Pace => "pace",
        Step::Ta => "ta",
        Step::Ca => "ca",
        Step::Select => "select",
    }
}
