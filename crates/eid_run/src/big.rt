//! Many sessions that are generated from their numbers, and a summary of them.
ghost use Rattle.std.specs.Prelude.{◌≡◌, ◌+◌, ◌*◌, ◌≤◌, ◌<◌, ◌^◌, ◌++◌, Some, IfOk, IfErr, OnOk, IsSome, decimal, length};
ghost use Rattle.eid_record.specs.Plain.{FullRecord};
ghost use Rattle.eid_step.specs.Sinks.{TellsFault};
ghost use Rattle.eid_store.specs.Stands.{stands};
ghost use Rattle.eid_terminal.specs.Plans.{IsFit, plan_view};
ghost use Rattle.eid_workload.specs.Generated.{first_plans};
ghost use Rattle.eid_run.specs.Attempts.{Met, Tried, counts_view};
ghost use Rattle.eid_run.specs.Big.{AreSessions, BrokeOffBig, DidBig, IsSession, big_text};
ghost use Rattle.eid_run.specs.Report.{line};

use crate::quiet::Quiet;
use crate::session::{MOST_TURNS, converse};
use crate::tally::Tally;
use eid_base::{NoMemory, RunError, Sink};
use eid_cells::{Eeprom, MemoryEeprom};
use eid_copro::ModelCoprocessor;
use eid_model::Text;
use eid_step::print;
use eid_store::Store;
use eid_terminal::Plan;
use eid_workload::{Certificates, image_for, plan_for, six_digits};
use std::alloc::Global;

/// A PIN that no chip of a generated session has.
const WRONG_PIN: [u8; 6] = *b"000000";

/// What a terminal left: the cells of the chip that it met, and how many requests were answered and refused.
#[derive(Drop)]
struct Left {
    cells: Vec<u8>,
    tally: Tally,
}

/// How many requests of sessions were answered with 9000, how many with another status, and how many commits were made.
#[derive(Clone, Copy)]
struct Counts {
    answered: u32,
    refused: u32,
    commits: u64,
}

/// Runs a terminal with the chip of these cells, over model coprocessors that begin at the number of the session.
fn meet(alloc: Global, number: u32, cells: Vec<u8>, plan: Plan) -> Result<Left, NoMemory>
    requires size { length cells.items ≡ 65536 }
    requires stands { IsSome (stands cells.items) }
    requires fit { IsFit (plan_view plan) }
    ensures met { IfOk result (λ left. Met number (plan_view plan) cells.items left.cells.items left.tally) }
    ensures size { IfOk result (λ left. length left.cells.items ≡ 65536) }
    ensures stands { IfOk result (λ left. IsSome (stands left.cells.items)) }
    ensures few { IfOk result (λ left. (left.tally.answered ≤ MOST_TURNS) × (left.tally.refused ≤ MOST_TURNS)) }
{
    let mut device = MemoryEeprom::new(cells);
    let start = u64::from(number);
    let mut chip_copro = ModelCoprocessor::new(alloc, start);
    let mut terminal_copro = ModelCoprocessor::new(alloc, u64::MAX - start);
    let met = converse(
        alloc,
        plan,
        &mut device,
        &mut chip_copro,
        &mut terminal_copro,
        &mut Quiet,
    );
    let Ok(tally) = met else {
        return Err(NoMemory);
    };
    Ok(Left {
        cells: device.into_cells(),
        tally,
    })
}

/// The attempt with a wrong PIN, where the session of this number begins with one.
fn attempt(
    alloc: Global,
    number: u32,
    cells: Vec<u8>,
    certificates: &Certificates,
) -> Result<Left, NoMemory>
    requires size { length cells.items ≡ 65536 }
    requires stands { IsSome (stands cells.items) }
    ensures tried { IfOk result (λ left. Tried number (first_plans number) cells.items left.cells.items left.tally) }
    ensures size { IfOk result (λ left. length left.cells.items ≡ 65536) }
    ensures stands { IfOk result (λ left. IsSome (stands left.cells.items)) }
    ensures few { IfOk result (λ left. (left.tally.answered ≤ MOST_TURNS) × (left.tally.refused ≤ MOST_TURNS)) }
{
    if number % 3 == 0 {
        let plan = plan_for(alloc, number, WRONG_PIN, certificates)?;
        return meet(alloc, number, cells, plan);
    }
    Ok(Left {
        cells,
        tally: Tally::new(),
    })
}

/// The commit number of the record that these cells stand for.
fn number_in(cells: Vec<u8>) -> u32
    requires size { length cells.items ≡ 65536 }
    requires stands { IsSome (stands cells.items) }
    ensures { (full : FullRecord) → stands cells.items ≡ Some full → result ≡ full.fields.number }
{
    let mut device = MemoryEeprom::new(cells);
    device.power(true);
    let Ok(store) = Store::mount(&mut device) else {
        unreachable!()
    };
    store.kept().number
}

/// Runs the session of a number.
fn run_one(alloc: Global, number: u32, certificates: &Certificates) -> Result<Counts, NoMemory>
    requires { number ≤ 1000 }
    ensures ran { IfOk result (λ counts. IsSession number (counts_view counts)) }
    ensures few { IfOk result (λ counts. (counts.answered ≤ 2 * MOST_TURNS) × (counts.refused ≤ 2 * MOST_TURNS)
        × (counts.commits < 2 ^ 32)) }
{
    let cells = image_for(alloc, number)?;
    let Left {
        cells,
        tally: first,
    } = attempt(alloc, number, cells, certificates)?;
    let plan = plan_for(alloc, number, six_digits(number), certificates)?;
    let Left {
        cells,
        tally: second,
    } = meet(alloc, number, cells, plan)?;
    Ok(Counts {
        answered: first.answered + second.answered,
        refused: first.refused + second.refused,
        commits: u64::from(number_in(cells)),
    })
}

/// Runs the sessions from 1 to this number, and counts over all of them.
fn run_all(alloc: Global, sessions: u32) -> Result<Counts, NoMemory>
    requires { sessions ≤ 1000 }
    ensures { IfOk result (λ counts. AreSessions sessions (counts_view counts)) }
{
    let certificates = Certificates::new(alloc)?;
    let mut counts = Counts {
        answered: 0,
        refused: 0,
        commits: 0,
    };
    for done in 0..sessions {
        let one = run_one(alloc, done + 1, &certificates)?;
        counts.answered += one.answered;
        counts.refused += one.refused;
        counts.commits += one.commits;
    }
    Ok(counts)
}

/// Appends a line: what is counted, a space, and how many.
fn put_count(alloc: Global, text: &mut Text, what: &[u8], count: u64) -> Result<(), NoMemory>
    ensures { OnOk result (text.new ≡ text.old ++ line (what.now ++ decimal count)) }
{
    let digits = count.to_string(alloc)?;
    text.put(what)?;
    text.put(digits.as_bytes())?;
    text.put(b"\n")
}

/// The four lines.
#[tactic(auto, unfolding(crate::specs::Big::big_text))]
fn summary(alloc: Global, sessions: u32, counts: Counts) -> Result<Text, NoMemory>
    ensures { IfOk result (λ text. text ≡ big_text sessions (counts_view counts)) }
{
    let mut text = Text::new(alloc);
    put_count(alloc, &mut text, b"sessions ", u64::from(sessions))?;
    put_count(alloc, &mut text, b"answered ", u64::from(counts.answered))?;
    put_count(alloc, &mut text, b"refused ", u64::from(counts.refused))?;
    put_count(alloc, &mut text, b"commits ", counts.commits)?;
    Ok(text)
}

/// Runs the generated sessions from 1 to this number, and writes how many there were, how many requests were answered with
/// 9000 and with another status, and how many commits were made. In each a terminal meets a chip of its own, whose PIN is
/// the number; where the number is divisible by 3, one with a wrong PIN meets it before.
///
/// # Errors
/// `SinkFault` only where the sink's count of faults rose, else `NoMemory`. A front of the lines was written then.
pub fn big_workload<K: Sink>(alloc: Global, sessions: u32, out: &mut K) -> Result<(), RunError>
    requires some { 1 ≤ sessions }
    requires few { sessions ≤ 1000 }
    ensures did { OnOk result (DidBig sessions (K.seen out.old) (K.seen out.new)) }
    ensures broke { IfErr result (λ error. BrokeOffBig sessions (K.seen out.old) (K.seen out.new) error) }
    ensures sink { TellsFault (K.seen out.old) (K.seen out.new) result }
{
    let Ok(counts) = run_all(alloc, sessions) else {
        return Err(RunError::NoMemory);
    };
    let Ok(text) = summary(alloc, sessions, counts) else {
        return Err(RunError::NoMemory);
    };
    print(&text, out)
}
