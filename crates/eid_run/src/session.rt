//! A session: a terminal and a chip together.
ghost use Rattle.std.specs.Prelude.{◌≡◌, ◌+◌, ◌<◌, ◌≤◌, ◌^◌, false, Some, is_some, IsSome, IsTrue, IfOk, OnOk, OnErr, slice_index, ℕ, List};
ghost use Rattle.eid_apdu.specs.Answer.{plain_reply};
ghost use Rattle.std.specs.Option.{option_copied};
ghost use Rattle.eid_base.specs.Seen.{Grew, GrewByPart};
ghost use Rattle.eid_chip.specs.Fits.{IsSound, came_in, scene};
ghost use Rattle.eid_script.specs.Scripts.{ApduLine};
ghost use Rattle.eid_terminal.specs.Seen.{terminal_view};
ghost use Rattle.eid_step.specs.Lines.{Keeps};
ghost use Rattle.eid_chip.specs.declared.exchange.Exchange.{Exchange as ExchangeSeen};
ghost use Rattle.eid_terminal.specs.Terminals.{move_made};
ghost use Rattle.eid_run.specs.Talk.{BrokeTurn, ChipReplied, DidTurn, IsLeftAlone, due_bytes, sent_back, stands_at, turn_line};
ghost use Rattle.eid_record.specs.Plain.{FullRecord};
ghost use Rattle.eid_store.specs.Stands.{stands};
ghost use Rattle.eid_terminal.specs.Plans.{IsFit, plan_view};
ghost use Rattle.eid_run.specs.Runs.{outside};
ghost use Rattle.eid_run.specs.Sessions.{DidPartOfSession, DidSession};
ghost use Rattle.eid_step.specs.Sinks.{TellsFault};
ghost use Rattle.eid_run.specs.Tallies.{CountedSession};

use crate::report::{put_asked, put_failed, put_passed, put_stopped};
use crate::tally::Tally;
use arrayvec::ArrayVec;
use eid_apdu::Reply;
use eid_base::{NoMemory, RunError, Sink, Status};
use eid_cells::Eeprom;
use eid_chip::HandledIn;
use eid_copro::Coprocessor;
use eid_model::Text;
use eid_step::{Stepper, print};
use eid_terminal::{Deed, MAX_TURNS, Message, Plan, Request, Terminal};
use std::alloc::Global;

/// How many questions a turn of the terminal can put.
const QUESTIONS: usize = 3;
/// A terminal has ended after fewer turns: in each it sends a command or tells something, and one command may wait for
/// its reply.
pub const MOST_TURNS: usize = MAX_TURNS + 2;

/// The reply that the terminal waits for.
#[derive(Clone, Copy)]
enum Due {
    /// It waits for none.
    Nothing,
    /// The bytes that the chip sent last.
    Sent,
    /// No bytes came back.
    NoBytes,
}

/// The bytes that came back, where a reply is due.
fn due_reply<'a>(due: Due, stepper: &'a Stepper) -> Option<&'a [u8]>
    ensures { option_copied result ≡ due_bytes due stepper.now.exchange.sent.items }
{
    match due {
        Due::Nothing => None,
        Due::Sent => Some(stepper.sent()),
        Due::NoBytes => Some(&[]),
    }
}

/// What is due of what came of a command.
fn due_of(came: HandledIn) -> Due
    ensures { (exchange : ExchangeSeen) → due_bytes result exchange.sent.items ≡ Some (sent_back (came_in exchange came)) }
{
    match came {
        HandledIn::Silent => Due::NoBytes,
        HandledIn::Answered { .. } => Due::Sent,
        HandledIn::Lost { .. } => Due::NoBytes,
    }
}

/// Makes the text the line by which a deed is told, empty where it is not.
fn put_line(
    text: &mut Text,
    requests: &[Request],
    deed: Deed,
    heard: &Reply,
) -> Result<(), NoMemory>
    ensures { (message : List ℕ) → OnOk result (text.new ≡ turn_line requests.now (move_made deed message (plain_reply heard.now))) }
{
    text.clear();
    match deed {
        Deed::Send => Ok(()),
        Deed::Result { request } => {
            put_asked(text, requests.get(usize::from(request)).copied(), heard)
        }
        Deed::Passed { step } => put_passed(text, step),
        Deed::Done => Ok(()),
        Deed::Stopped { step, status } => put_stopped(text, step, status),
        Deed::Fault { step } => put_failed(text, step),
    }
}

/// Tells a deed, on a line of the report if it has one.
fn tell<K: Sink>(
    requests: &[Request],
    deed: Deed,
    heard: &Reply,
    text: &mut Text,
    out: &mut K,
) -> Result<(), RunError>
    ensures whole { (message : List ℕ) → OnOk result (IsTrue (K.seen out.old).tells
        → Grew (K.seen out.old).written (K.seen out.new).written (turn_line requests.now (move_made deed message (plain_reply heard.now)))) }
    ensures part { (message : List ℕ) → OnErr result (IsTrue (K.seen out.old).tells
        → GrewByPart (K.seen out.old).written (K.seen out.new).written (turn_line requests.now (move_made deed message (plain_reply heard.now)))) }
    ensures sink { TellsFault (K.seen out.old) (K.seen out.new) result }
{
    let Ok(()) = put_line(text, requests, deed, heard) else {
        return Err(RunError::NoMemory);
    };
    if text.as_bytes().is_empty() {
        return Ok(());
    }
    print(text, out)
}

/// Hands a command to the chip, and says what is due then.
fn answer<E: Eeprom, C: Coprocessor>(
    stepper: &mut Stepper,
    bytes: &[u8],
    cells: &mut E,
    copro: &mut C,
) -> Result<Due, NoMemory>
    requires { IsSound (scene stepper.old.chip (E.device cells.old) (E.cells cells.old)) }
    ensures replied { IfOk result (λ due. ChipReplied (scene stepper.old.chip (E.device cells.old) (E.cells cells.old))
        (scene stepper.new.chip (E.device cells.new) (E.cells cells.new)) (C.seen copro.old).log (C.seen copro.new).log bytes.now
        (due_bytes due stepper.new.exchange.sent.items)) }
    ensures alone { OnErr result (IsLeftAlone (scene stepper.old.chip (E.device cells.old) (E.cells cells.old))
        (scene stepper.new.chip (E.device cells.new) (E.cells cells.new)) (C.seen copro.old).log (C.seen copro.new).log) }
    ensures keeps { Keeps (scene stepper.old.chip (E.device cells.old) (E.cells cells.old))
        (scene stepper.new.chip (E.device cells.new) (E.cells cells.new)) (ApduLine bytes.now) }
    ensures told { (C.seen copro.new).told ≡ (C.seen copro.old).told }
{
    match stepper.hand_over(bytes, cells, copro) {
        Ok(came) => Ok(due_of(came)),
        Err(error) => Err(error),
    }
}

/// A terminal and a chip that talk: the chip, the terminal, the reply that is due, the requests of the plan, the buffers of the
/// last command and of the last reply, the text of the line that is told, and the results so far.
#[derive(Drop)]
struct Conversation {
    stepper: Stepper,
    terminal: Terminal,
    due: Due,
    requests: Vec<Request>,
    message: Message,
    heard: Reply,
    text: Text,
    tally: Tally,
}

impl Conversation {
    /// Takes one turn: the terminal goes on, by the reply where one is due; its command is handed to the chip, and what it
    /// tells is written and counted.
    fn take_turn<E: Eeprom, C: Coprocessor, D: Coprocessor, K: Sink>(
        &mut self,
        cells: &mut E,
        chip_copro: &mut C,
        terminal_copro: &mut D,
        out: &mut K,
    ) -> Result<(), RunError>
        requires sound { IsSound (scene self.old.stepper.chip (E.device cells.old) (E.cells cells.old)) }
        requires answered { self.old.tally.answered + 1 < 2 ^ 32 }
        requires refused { self.old.tally.refused + 1 < 2 ^ 32 }
        requires going { (terminal_view self.old.terminal).ended ≡ false }
        requires waits { is_some (due_bytes self.old.due self.old.stepper.exchange.sent.items) ≡ (terminal_view self.old.terminal).waits }
        ensures did { OnOk result (DidTurn self.old.requests.items
            (stands_at self.old (E.device cells.old) (E.cells cells.old) (C.seen chip_copro.old).log (D.seen terminal_copro.old) (K.seen out.old))
            (stands_at self.new (E.device cells.new) (E.cells cells.new) (C.seen chip_copro.new).log (D.seen terminal_copro.new) (K.seen out.new))) }
        ensures broke { OnErr result (BrokeTurn self.old.requests.items
            (stands_at self.old (E.device cells.old) (E.cells cells.old) (C.seen chip_copro.old).log (D.seen terminal_copro.old) (K.seen out.old))
            (stands_at self.new (E.device cells.new) (E.cells cells.new) (C.seen chip_copro.new).log (D.seen terminal_copro.new) (K.seen out.new))) }
        ensures requests { self.new.requests.items ≡ self.old.requests.items }
        ensures sound { IsSound (scene self.new.stepper.chip (E.device cells.new) (E.cells cells.new)) }
        ensures layout { slice_index (E.cells cells.new) 0 ≡ slice_index (E.cells cells.old) 0 }
        ensures chip_told { (C.seen chip_copro.new).told ≡ (C.seen chip_copro.old).told }
        ensures terminal_told { (D.seen terminal_copro.new).told ≡ (D.seen terminal_copro.old).told }
        ensures sink { TellsFault (K.seen out.old) (K.seen out.new) result }
        ensures answered { self.new.tally.answered ≤ self.old.tally.answered + 1 }
        ensures refused { self.new.tally.refused ≤ self.old.tally.refused + 1 }
    {
        if terminal_copro.make_room(QUESTIONS).is_err() {
            return Err(RunError::NoMemory);
        }
        let deed = self.terminal.next_in(
            due_reply(self.due, &self.stepper),
            terminal_copro,
            &mut self.message,
            &mut self.heard,
        );
        if let Deed::Send = deed {
            let Ok(replied) = answer(
                &mut self.stepper,
                self.message.as_slice(),
                cells,
                chip_copro,
            ) else {
                return Err(RunError::NoMemory);
            };
            self.due = replied;
            return Ok(());
        }
        self.due = Due::Nothing;
        self.tally.count(deed, &self.heard);
        tell(
            self.requests.as_slice(),
            deed,
            &self.heard,
            &mut self.text,
            out,
        )
    }
}

/// Runs a terminal and a chip together, writes what the terminal tells, and counts the results.
pub fn converse<E: Eeprom, C: Coprocessor, D: Coprocessor, K: Sink>(
    alloc: Global,
    plan: Plan,
    cells: &mut E,
    chip_copro: &mut C,
    terminal_copro: &mut D,
    out: &mut K,
) -> Result<Tally, RunError>
    requires stands { IsSome (stands (E.cells cells.old)) }
    requires fit { IsFit (plan_view plan) }
    ensures did { IfOk result (λ tally. (opening : FullRecord) → stands (E.cells cells.old) ≡ Some opening
        → CountedSession (plan_view plan) opening
        (outside (E.device cells.old) (E.cells cells.old) (C.seen chip_copro.old) (K.seen out.old))
        (outside (E.device cells.new) (E.cells cells.new) (C.seen chip_copro.new) (K.seen out.new))
        (D.seen terminal_copro.old) (D.seen terminal_copro.new) tally) }
    ensures few { IfOk result (λ tally. (tally.answered ≤ MOST_TURNS) × (tally.refused ≤ MOST_TURNS)) }
    ensures broke { OnErr result ((opening : FullRecord) → stands (E.cells cells.old) ≡ Some opening
        → DidPartOfSession (plan_view plan) opening
        (outside (E.device cells.old) (E.cells cells.old) (C.seen chip_copro.old) (K.seen out.old))
        (outside (E.device cells.new) (E.cells cells.new) (C.seen chip_copro.new) (K.seen out.new))
        (D.seen terminal_copro.old) (D.seen terminal_copro.new)) }
    ensures sink { TellsFault (K.seen out.old) (K.seen out.new) result }
{
    let mut stepper = Stepper::new(alloc);
    let mut requests = Vec::new(alloc);
    let Ok(()) = requests.extend_from_slice(plan.requests.as_slice()) else {
        return Err(RunError::NoMemory);
    };
    let terminal = Terminal::new(plan);
    let text = Text::new(alloc);
    let tally = Tally::new();
    stepper.power_on(cells);
    let mut conversation = Conversation {
        stepper,
        terminal,
        due: Due::Nothing,
        requests,
        message: ArrayVec::new(),
        heard: Reply {
            content: ArrayVec::new(),
            status: Status(0),
        },
        text,
        tally,
    };
    for _ in 0..MOST_TURNS {
        if let Err(error) = conversation.take_turn(cells, chip_copro, terminal_copro, out) {
            return Err(error);
        }
        if conversation.terminal.ended() {
            return Ok(conversation.tally);
        }
    }
    unreachable!()
}

/// Runs a terminal and a chip together: the chip is given power, then the terminal carries out its plan, each of its
/// commands is handed to the chip, and what it tells is written, a line each. The device's cells stand for a record.
///
/// # Errors
/// `SinkFault` only where the sink's count of faults rose, else `NoMemory`. A front of the report was written then.
pub fn run_session<E: Eeprom, C: Coprocessor, D: Coprocessor, K: Sink>(
    alloc: Global,
    plan: Plan,
    cells: &mut E,
    chip_copro: &mut C,
    terminal_copro: &mut D,
    out: &mut K,
) -> Result<(), RunError>
    requires stands { IsSome (stands (E.cells cells.old)) }
    requires fit { IsFit (plan_view plan) }
    ensures did { OnOk result ((opening : FullRecord) → stands (E.cells cells.old) ≡ Some opening
        → DidSession (plan_view plan) opening
        (outside (E.device cells.old) (E.cells cells.old) (C.seen chip_copro.old) (K.seen out.old))
        (outside (E.device cells.new) (E.cells cells.new) (C.seen chip_copro.new) (K.seen out.new))
        (D.seen terminal_copro.old) (D.seen terminal_copro.new)) }
    ensures broke { OnErr result ((opening : FullRecord) → stands (E.cells cells.old) ≡ Some opening
        → DidPartOfSession (plan_view plan) opening
        (outside (E.device cells.old) (E.cells cells.old) (C.seen chip_copro.old) (K.seen out.old))
        (outside (E.device cells.new) (E.cells cells.new) (C.seen chip_copro.new) (K.seen out.new))
        (D.seen terminal_copro.old) (D.seen terminal_copro.new)) }
    ensures sink { TellsFault (K.seen out.old) (K.seen out.new) result }
{
    match converse(alloc, plan, cells, chip_copro, terminal_copro, out) {
        Ok(_) => Ok(()),
        Err(error) => Err(error),
    }
}
