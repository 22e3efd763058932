//! A chip over its device, one step after the other.
ghost use Rattle.std.specs.Prelude.{◌≡◌, ◌≤◌, List, [], ℕ, drop, length, None, Some, IsSome, IsTrue, IfOk, OnOk, OnErr};
ghost use Rattle.eid_apdu.specs.Answer.{plain_reply};
ghost use Rattle.eid_cells.specs.Device.{Device};
ghost use Rattle.eid_chip.specs.Fits.{Fits, IsSound, scene, came_in, moment_of};
ghost use Rattle.eid_copro.specs.declared.ask.Ask.{Ask as LogAsk};
ghost use Rattle.eid_model.specs.Legal as model;
ghost use Rattle.eid_model.specs.Moments.{PoweredOn, PoweredOff};
ghost use Rattle.eid_record.specs.Plain.{FullRecord};
ghost use Rattle.eid_script.specs.Scripts.{plain_line, OnLine, OffLine, ApduLine, CutLine};
ghost use Rattle.eid_store.specs.Stands.{stands};
ghost use Rattle.eid_step.specs.Effects.{Did, Planned};
ghost use Rattle.eid_step.specs.Lines.{Keeps, IsLine, DidLine, BrokeOffLine};
ghost use Rattle.eid_step.specs.Sendable.{AnswersWell, CanBeSent};
ghost use Rattle.eid_step.specs.Sinks.{TellsFault};

use crate::moment::{moment_of, number_found, silent};
use crate::writing::tell;
use eid_apdu::Reply;
use eid_base::{NoMemory, RunError, Sink};
use eid_cells::{Eeprom, Tear};
use eid_chip::{Chip, Exchange, HandledIn};
use eid_copro::{Ask, Coprocessor};
use eid_model::{InputRef, Text};
use eid_script::Line;
use std::alloc::Global;

/// How many questions a command can put.
const QUESTIONS: usize = 2;

/// The questions that were put since the log had so many.
fn asks_since<C: Coprocessor>(copro: &C, before: usize) -> &[Ask]
    requires { before ≤ length (C.seen copro.now).log }
    ensures { result.now ≡ drop before (C.seen copro.now).log }
{
    &copro.log()[before..]
}

/// What the types tell of the parts of a reply, for the proof: it can be sent.
fn know_parts(content: &[u8], status: u16)
    requires { length content.now ≤ 2100 }
    ensures { CanBeSent (record { content = content.now; status = status }) }
{}

/// What the types tell of a reply, for the proof: it can be sent.
fn know_sendable(reply: &Reply)
    ensures { CanBeSent (plain_reply reply.now) }
{
    know_parts(reply.content.as_slice(), reply.status.0);
}

/// A chip with the buffers that its commands and their texts take. The device and the coprocessor are lent to each step, and
/// are the same ones from step to step.
#[derive(Drop)]
pub struct Stepper {
    chip: Chip,
    exchange: Exchange,
    text: Text,
}

impl Stepper {
    /// A chip without power. It fits every journal without moments.
    pub fn new(alloc: Global) -> Stepper
        ensures off { result.chip.running ≡ None }
        ensures fits { (device : Device) (cells : List ℕ) (opening : FullRecord) → stands cells ≡ Some opening
            → Fits (scene result.chip device cells) opening [] }
    {
        Stepper {
            chip: Chip::new(),
            exchange: Exchange::new(),
            text: Text::new(alloc),
        }
    }

    /// The bytes that were sent on the last command that was answered.
    pub fn sent(&self) -> &[u8]
        ensures { result.now ≡ self.now.exchange.sent.items }
    {
        self.exchange.sent.as_slice()
    }

    /// Gives the chip power. Answers how many commits it found, or nothing where mounting was cut.
    pub fn power_on<E: Eeprom>(&mut self, cells: &mut E) -> Option<u32>
        requires { IsSome (stands (E.cells cells.old)) }
        ensures made { (log : List LogAsk) → IsLine (scene self.old.chip (E.device cells.old) (E.cells cells.old))
            (scene self.new.chip (E.device cells.new) (E.cells cells.new)) log log OnLine (Did (model.silent (PoweredOn result))) }
        ensures keeps { Keeps (scene self.old.chip (E.device cells.old) (E.cells cells.old))
            (scene self.new.chip (E.device cells.new) (E.cells cells.new)) OnLine }
    {
        number_found(self.chip.power_on(cells))
    }

    /// Takes power away from the chip.
    pub fn power_off<E: Eeprom>(&mut self, cells: &mut E)
        ensures made { (log : List LogAsk) → IsLine (scene self.old.chip (E.device cells.old) (E.cells cells.old))
            (scene self.new.chip (E.device cells.new) (E.cells cells.new)) log log OffLine (Did (model.silent PoweredOff)) }
        ensures keeps { Keeps (scene self.old.chip (E.device cells.old) (E.cells cells.old))
            (scene self.new.chip (E.device cells.new) (E.cells cells.new)) OffLine }
    {
        self.chip.power_off(cells);
    }

    /// Hands the bytes of a command to the chip, with room for its questions. What was sent stands in `sent`, where the chip
    /// answered.
    ///
    /// # Errors
    /// `NoMemory` only where the coprocessor made no room. The chip did not see the bytes then.
    pub fn hand_over<E: Eeprom, C: Coprocessor>(
        &mut self,
        bytes: &[u8],
        cells: &mut E,
        copro: &mut C,
    ) -> Result<HandledIn, NoMemory>
        requires { IsSound (scene self.old.chip (E.device cells.old) (E.cells cells.old)) }
        ensures made { IfOk result (λ came. IsLine (scene self.old.chip (E.device cells.old) (E.cells cells.old))
            (scene self.new.chip (E.device cells.new) (E.cells cells.new)) (C.seen copro.old).log (C.seen copro.new).log (ApduLine bytes.now)
            (Did (moment_of bytes.now (drop (length (C.seen copro.old).log) (C.seen copro.new).log) (came_in self.new.exchange came)))) }
        ensures sendable { IfOk result (λ came. AnswersWell
            (moment_of bytes.now (drop (length (C.seen copro.old).log) (C.seen copro.new).log) (came_in self.new.exchange came))) }
        ensures unmade { OnErr result ((scene self.new.chip (E.device cells.new) (E.cells cells.new)
            ≡ scene self.old.chip (E.device cells.old) (E.cells cells.old)) × ((C.seen copro.new).log ≡ (C.seen copro.old).log)) }
        ensures keeps { Keeps (scene self.old.chip (E.device cells.old) (E.cells cells.old))
            (scene self.new.chip (E.device cells.new) (E.cells cells.new)) (ApduLine bytes.now) }
        ensures told { (C.seen copro.new).told ≡ (C.seen copro.old).told }
    {
        if copro.make_room(QUESTIONS).is_err() {
            return Err(NoMemory);
        }
        let came = self.chip.handle_in(bytes, cells, copro, &mut self.exchange);
        know_sendable(&self.exchange.reply);
        Ok(came)
    }

    /// Hands the bytes of a command to the chip, and writes their moment.
    fn command<E: Eeprom, C: Coprocessor, K: Sink>(
        &mut self,
        bytes: &[u8],
        cells: &mut E,
        copro: &mut C,
        out: &mut K,
    ) -> Result<(), RunError>
        requires { IsSound (scene self.old.chip (E.device cells.old) (E.cells cells.old)) }
        ensures did { OnOk result (DidLine (scene self.old.chip (E.device cells.old) (E.cells cells.old))
            (scene self.new.chip (E.device cells.new) (E.cells cells.new))
            (C.seen copro.old).log (C.seen copro.new).log (ApduLine bytes.now) (K.seen out.old) (K.seen out.new)) }
        ensures broke { OnErr result (BrokeOffLine (scene self.old.chip (E.device cells.old) (E.cells cells.old))
            (scene self.new.chip (E.device cells.new) (E.cells cells.new))
            (C.seen copro.old).log (C.seen copro.new).log (ApduLine bytes.now) (K.seen out.old) (K.seen out.new)) }
        ensures keeps { Keeps (scene self.old.chip (E.device cells.old) (E.cells cells.old))
            (scene self.new.chip (E.device cells.new) (E.cells cells.new)) (ApduLine bytes.now) }
        ensures told { (C.seen copro.new).told ≡ (C.seen copro.old).told }
        ensures sink { TellsFault (K.seen out.old) (K.seen out.new) result }
    {
        let before = copro.log().len();
        let Ok(came) = self.hand_over(bytes, cells, copro) else {
            return Err(RunError::NoMemory);
        };
        let asks = asks_since(copro, before);
        tell(
            &moment_of(bytes, asks, came, &self.exchange),
            &mut self.text,
            out,
        )
    }

    /// Plans a cut of the device's power. There is no write of the number 0, so nothing is planned for it.
    fn plan<E: Eeprom>(&self, write: u32, tear: Tear, cells: &mut E)
        requires { IsSound (scene self.now.chip (E.device cells.old) (E.cells cells.old)) }
        ensures made { (log : List LogAsk) → IsLine (scene self.now.chip (E.device cells.old) (E.cells cells.old))
            (scene self.now.chip (E.device cells.new) (E.cells cells.new)) log log (CutLine write tear) (Planned write tear) }
        ensures keeps { Keeps (scene self.now.chip (E.device cells.old) (E.cells cells.old))
            (scene self.now.chip (E.device cells.new) (E.cells cells.new)) (CutLine write tear) }
    {
        if write > 0 {
            cells.plan_cut(write, tear);
        }
    }

    /// Carries out a line: power, a command, or a plan of a cut, and writes the text of the moment that it makes.
    ///
    /// # Errors
    /// `SinkFault` only where the sink's count of faults rose, else `NoMemory`. The line was not carried out then, or a front
    /// of its text was written.
    pub fn step<E: Eeprom, C: Coprocessor, K: Sink>(
        &mut self,
        line: &Line,
        cells: &mut E,
        copro: &mut C,
        out: &mut K,
    ) -> Result<(), RunError>
        requires sound { IsSound (scene self.old.chip (E.device cells.old) (E.cells cells.old)) }
        requires stands { IsSome (stands (E.cells cells.old)) }
        ensures did { OnOk result (DidLine (scene self.old.chip (E.device cells.old) (E.cells cells.old))
            (scene self.new.chip (E.device cells.new) (E.cells cells.new))
            (C.seen copro.old).log (C.seen copro.new).log (plain_line line.now) (K.seen out.old) (K.seen out.new)) }
        ensures broke { OnErr result (BrokeOffLine (scene self.old.chip (E.device cells.old) (E.cells cells.old))
            (scene self.new.chip (E.device cells.new) (E.cells cells.new))
            (C.seen copro.old).log (C.seen copro.new).log (plain_line line.now) (K.seen out.old) (K.seen out.new)) }
        ensures keeps { Keeps (scene self.old.chip (E.device cells.old) (E.cells cells.old))
            (scene self.new.chip (E.device cells.new) (E.cells cells.new)) (plain_line line.now) }
        ensures told { (C.seen copro.new).told ≡ (C.seen copro.old).told }
        ensures sink { TellsFault (K.seen out.old) (K.seen out.new) result }
    {
        match line {
            Line::On => {
                let found = self.power_on(cells);
                tell(&silent(InputRef::On { found }), &mut self.text, out)
            }
            Line::Off => {
                self.power_off(cells);
                tell(&silent(InputRef::Off), &mut self.text, out)
            }
            Line::Apdu(bytes) => self.command(bytes.as_slice(), cells, copro, out),
            Line::Cut { write, tear } => {
                self.plan(*write, *tear, cells);
                Ok(())
            }
        }
    }
}
