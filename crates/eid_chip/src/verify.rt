//! VERIFY of auxiliary data (BSI TR-03110-2, TR-03110-3).
ghost use Rattle.std.specs.Prelude.{◌≡◌, ◌≤◌, [], Option, Some};
ghost use Rattle.std.specs.Str.{bytes_eq};
ghost use Rattle.arrayvec.specs.ArrayVec.{array_vec_len};
ghost use Rattle.eid_apdu.specs.Answer.{plain_reply};
ghost use Rattle.eid_apdu.specs.Command.{plain_command};
ghost use Rattle.eid_sm.specs.Keys.{ChannelState};
ghost use Rattle.eid_store.specs.Store as stored;
ghost use Rattle.eid_bits.specs.Identifiers.{known_bytes};
ghost use Rattle.eid_tlv.specs.Objects.{object};
ghost use Rattle.eid_model.specs.Auxiliary.{comparison_in, reference_file};
ghost use Rattle.eid_chip.specs.Granting.{refusal_in, sent_refused, sent_to, verdict_refused};
ghost use Rattle.eid_chip.specs.Held.{held, held_file};
ghost use Rattle.eid_chip.specs.Endings.{reacted};
ghost use Rattle.eid_chip.specs.States.{state};
ghost use Rattle.eid_chip.specs.Steps.{IsAnsweredByKind};

use crate::authentication::append;
use crate::ending::{carried_out, refused};
use crate::files::put_file;
use crate::reaction::Reaction;
use crate::refusal::{BODY_FORM, NO_REFERENCE, NOT_COMPARED, NOTHING_SENT, Refusal};
use crate::rights::check_comparison;
use crate::session::{Memory, Session};
use arrayvec::ArrayVec;
use eid_apdu::{Command, Reply};
use eid_aux::{Compared, compare_birth, compare_community, compare_expiry};
use eid_bits::Known;
use eid_cells::Eeprom;
use eid_model::{Comparison, Kind};
use eid_record::FileNo;
use eid_store::Store;

/// The object that holds an identifier.
const IDENTIFIER: u16 = 0x06;

/// Whether the body is one object 06 with this identifier, and nothing else (BSI TR-03110-3).
fn names(body: &[u8], known: Known) -> bool
    ensures { result ≡ bytes_eq body.now (object 0x06 (known_bytes known)) }
{
    let mut written = ArrayVec::<u8, 32>::new();
    append(&mut written, IDENTIFIER, known.bytes());
    body == written.as_slice()
}

/// The comparison that a body names.
#[tactic(auto, unfolding(eid_model::specs::Auxiliary::comparison_in))]
fn comparison_in(body: &[u8]) -> Option<Comparison>
    ensures { result ≡ comparison_in body.now }
{
    if names(body, Known::Birth) {
        return Some(Comparison::Age);
    }
    if names(body, Known::Expiry) {
        return Some(Comparison::Validity);
    }
    if names(body, Known::Community) {
        return Some(Comparison::Community);
    }
    None
}

/// The file that a comparison is made with: data group 8 has the date of birth, 3 the date of expiry, 18 the community.
fn reference_file(comparison: Comparison) -> FileNo
    ensures { result.0 ≡ reference_file comparison }
{
    match comparison {
        Comparison::Age => FileNo(9),
        Comparison::Validity => FileNo(4),
        Comparison::Community => FileNo(19),
    }
}

/// What a comparison that was made refuses.
fn verdict(compared: Compared) -> Result<(), Refusal>
    ensures { refusal_in result ≡ verdict_refused compared }
{
    match compared {
        Compared::Yes => Ok(()),
        Compared::No => Err(NOT_COMPARED),
        Compared::NoReference => Err(NO_REFERENCE),
    }
}

/// Compares what the terminal sent with stored bytes. Rule 34 is that nothing was sent, rule 35 that there is nothing stored to
/// compare with, rule 36 that the comparison does not hold.
fn compare(memory: &Memory, comparison: Comparison, stored: &[u8]) -> Result<(), Refusal>
    ensures { refusal_in result ≡ sent_refused comparison (Some stored.now) (sent_to memory.now comparison) }
{
    let Some(terminal) = &memory.terminal else {
        return Err(NOTHING_SENT);
    };
    match comparison {
        Comparison::Age => match &terminal.aux.birth {
            Some(sent) => verdict(compare_birth(stored, sent)),
            None => Err(NOTHING_SENT),
        },
        Comparison::Validity => match &terminal.aux.expiry {
            Some(sent) => verdict(compare_expiry(stored, sent)),
            None => Err(NOTHING_SENT),
        },
        Comparison::Community => match &terminal.aux.community {
            Some(sent) => verdict(compare_community(stored, sent.as_slice())),
            None => Err(NOTHING_SENT),
        },
    }
}

/// Compares what the terminal sent with the file that is there for it, which is read over the content of a reply. The rules 34
/// to 36 are those of `compare`; an absent file holds nothing to compare with, as an empty one does.
fn compare_kept<E: Eeprom>(
    memory: &Memory,
    comparison: Comparison,
    store: &Store,
    cells: &E,
    reply: &mut Reply,
) -> Result<(), Refusal>
    requires { stored.Fits store.now (E.device cells.now) (E.cells cells.now) }
    ensures { refusal_in result ≡ sent_refused comparison (held_file (E.cells cells.now) (reference_file comparison)) (sent_to memory.now comparison) }
{
    put_file(store, cells, reference_file(comparison), &mut reply.content);
    compare(memory, comparison, reply.content.as_slice())
}

/// VERIFY of auxiliary data that the terminal sent. Rule 10 is a body that names no comparison, the rules 20, 26, 28 and 31 to
/// 33 are those of `check_comparison`, the rules 34 to 36 those of `compare_kept`.
pub fn verify_auxiliary<E: Eeprom>(
    session: &mut Session,
    store: &Store,
    cells: &E,
    c: &Command<'_>,
    reply: &mut Reply,
) -> Reaction
    requires { stored.Fits store.now (E.device cells.now) (E.cells cells.now) }
    ensures told { (channel : Option ChannelState)
        → IsAnsweredByKind Kind.VerifyAuxiliary (held (E.cells cells.now)) (state session.old channel) (plain_command c.now) [] (reacted result session.new) (plain_reply reply.new) }
    ensures small { array_vec_len reply.new.content ≤ 2048 }
{
    let Some(comparison) = comparison_in(c.body) else {
        return refused(BODY_FORM, session, reply);
    };
    if let Err(refusal) = check_comparison(&session.memory, comparison) {
        return refused(refusal, session, reply);
    }
    if let Err(refusal) = compare_kept(&session.memory, comparison, store, cells, reply) {
        return refused(refusal, session, reply);
    }
    session.end_run();
    carried_out(reply)
}
