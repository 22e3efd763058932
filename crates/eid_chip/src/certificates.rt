//! The import of certificates (BSI TR-03110-3): MSE:Set DST and PSO:Verify Certificate.
ghost use Rattle.std.specs.Prelude.{◌≡◌, ◌≤◌, [], List, Option, Some, IfSome, option_map};
ghost use Rattle.arrayvec.specs.ArrayVec.{array_vec_len};
ghost use Rattle.sha2.specs.Sha256.{sha256};
ghost use Rattle.eid_apdu.specs.Answer.{plain_reply};
ghost use Rattle.eid_apdu.specs.Command.{PlainCommand, plain_command};
ghost use Rattle.eid_copro.specs.Seen.{CoproSeen};
ghost use Rattle.eid_copro.specs.declared.ask.Ask.{Ask};
ghost use Rattle.eid_cvc.specs.View.{certificate_view};
ghost use Rattle.eid_record.specs.Effect.{CanApply};
ghost use Rattle.eid_record.specs.EffectView.{effect_view};
ghost use Rattle.eid_record.specs.Plain.{FullRecord};
ghost use Rattle.eid_record.specs.View.{record_view};
ghost use Rattle.eid_sm.specs.Keys.{ChannelState};
ghost use Rattle.eid_store.specs.Store as stored;
ghost use Rattle.eid_trust.specs.View.{accepted_view};
ghost use Rattle.eid_model.specs.Bodies.{key_name_in, NamesKey};
ghost use Rattle.eid_chip.specs.Commits.{SameLayout};
ghost use Rattle.eid_chip.specs.Held.{held};
ghost use Rattle.eid_chip.specs.Endings.{ended, reacted};
ghost use Rattle.eid_chip.specs.States.{next_in_run, state};
ghost use Rattle.eid_chip.specs.Steps.{Imports, IsAnsweredByKind, IsEndedByKind, Performed, WasRight};
ghost use Rattle.eid_chip.specs.Worlds.{world};

use crate::ending::{carried_out, refused, uncommitted};
use crate::pin::commit_one;
use crate::reaction::{Ending, Reaction};
use crate::refusal::{
    BODY_FORM, FAULT, NO_PACE, NO_STEP, NO_TEMPLATE, TERMINAL_IS_KNOWN, UNKNOWN_KEY,
    WRONG_SIGNATURE, bad_certificate,
};
use crate::session::{Change, MAX_NAME, Run, Session};
use arrayvec::ArrayVec;
use eid_apdu::{Command, Reply};
use eid_cells::Eeprom;
use eid_copro::Coprocessor;
use eid_cvc::{Certificate, read_certificate};
use eid_model::Kind;
use eid_record::Record;
use eid_store::Store;
use eid_tlv::only_value;
use eid_trust::{Accepted, accept, signer};
use sha2::{Digest, Sha256};

/// The object with the name of a public key.
const NAME: u16 = 0x83;

/// The name in the body of MSE:Set DST, where it is one.
fn key_name(body: &[u8]) -> Option<&[u8]>
    ensures found { IfSome result (λ name. NamesKey body.now name.now) }
    ensures value { option_map (λ name. name.now) result ≡ key_name_in body.now }
{
    let Some(name) = only_value(body, NAME) else {
        return None;
    };
    if name.is_empty() || name.len() > MAX_NAME {
        return None;
    }
    Some(name)
}

/// MSE:Set DST: a run begins with the name of the public key that is to verify a certificate. Rule 10 is a body of another
/// form, rule 20 that there is no PACE, rule 21 that it had no template, rule 22 that a terminal has authenticated itself,
/// rule 23 that neither a trust point nor the document verifier accepted last has this name.
pub fn select_public_key(
    session: &mut Session,
    kept: &Record,
    c: &Command<'_>,
    reply: &mut Reply,
) -> Reaction
    ensures told { (full : FullRecord) (channel : Option ChannelState) → full.fields ≡ record_view kept.now
        → IsAnsweredByKind Kind.SelectPublicKey full (state session.old channel) (plain_command c.now) [] (reacted result session.new)
        (plain_reply reply.new) }
    ensures small { array_vec_len reply.new.content ≤ 2048 }
{
    let Some(name) = key_name(c.body) else {
        return refused(BODY_FORM, session, reply);
    };
    let Some(pace) = &session.memory.pace else {
        return refused(NO_PACE, session, reply);
    };
    if pace.template.is_none() {
        return refused(NO_TEMPLATE, session, reply);
    }
    if session.memory.terminal.is_some() {
        return refused(TERMINAL_IS_KNOWN, session, reply);
    }
    let None = signer(kept, &session.memory.certificates, name) else {
        let mut chosen = ArrayVec::new();
        chosen.try_extend_from_slice(name).unwrap();
        session.go_on(Run::KeyChosen(chosen));
        return carried_out(reply);
    };
    refused(UNKNOWN_KEY, session, reply)
}

/// The end of an import whose signature is right: the certificate counts, and what it advances is committed.
fn enter<E: Eeprom>(
    accepted: Accepted,
    session: &mut Session,
    store: &mut Store,
    cells: &mut E,
    reply: &mut Reply,
) -> Ending
    requires fits { stored.Fits store.old (E.device cells.old) (E.cells cells.old) }
    requires effect { IfSome accepted.advance (λ effect. CanApply (effect_view effect) (stored.fields_of store.old)) }
    ensures ended { (before after : CoproSeen) (channel : Option ChannelState) (c : PlainCommand) (asks : List Ask)
        → WasRight (held (E.cells cells.old)) (state session.old channel) c (accepted_view accepted) asks
        → IsEndedByKind Kind.VerifyCertificate (state session.old channel) c asks (ended result session.new) (plain_reply reply.new)
        (world before store.old (E.device cells.old) (E.cells cells.old)) (world after store.new (E.device cells.new) (E.cells cells.new)) }
    ensures layout { SameLayout (E.cells cells.old) (E.cells cells.new) }
    ensures idle { session.new.run ≡ Run.Idle }
    ensures small { array_vec_len reply.new.content ≤ 2048 }
{
    let change = Change::Certificates(accepted.chain);
    match accepted.advance {
        Some(effect) => commit_one(&effect, change, session, store, cells, reply),
        None => {
            session.leave(change);
            uncommitted(carried_out(reply))
        }
    }
}

/// The import of a certificate that may be accepted: its signature is verified over the digest of the object 7F4E, with the
/// signer's key. Rule 50 is a fault of the coprocessor, rule 53 a wrong signature, rule 54 that there is no commit number
/// left for what it advances.
fn import<E: Eeprom, C: Coprocessor>(
    certificate: &Certificate<'_>,
    accepted: Accepted,
    session: &mut Session,
    store: &mut Store,
    cells: &mut E,
    copro: &mut C,
    reply: &mut Reply,
) -> Ending
    requires fits { stored.Fits store.old (E.device cells.old) (E.cells cells.old) }
    requires room { 2 ≤ (C.seen copro.old).spare }
    requires effect { IfSome accepted.advance (λ effect. CanApply (effect_view effect) (stored.fields_of store.old)) }
    ensures performed { (c : PlainCommand)
        → ((channel : Option ChannelState)
        → Imports (held (E.cells cells.old)) (state session.old channel) c (certificate_view certificate.now) (accepted_view accepted))
        → Performed Kind.VerifyCertificate session.old c (ended result session.new) (plain_reply reply.new)
        (world (C.seen copro.old) store.old (E.device cells.old) (E.cells cells.old))
        (world (C.seen copro.new) store.new (E.device cells.new) (E.cells cells.new)) }
    ensures idle { session.new.run ≡ Run.Idle }
    ensures small { array_vec_len reply.new.content ≤ 2048 }
{
    let digest = Sha256::digest(certificate.whole);
    match copro.verify(&accepted.key, &digest, &certificate.signature) {
        Ok(true) => enter(accepted, session, store, cells, reply),
        Ok(false) => uncommitted(refused(WRONG_SIGNATURE, session, reply)),
        Err(_) => uncommitted(refused(FAULT, session, reply)),
    }
}

/// PSO:Verify Certificate: the certificate counts in this session, and what it advances is committed. Rule 10 is a body that
/// is no certificate, the rules 42 to 45 are those of `eid_trust::accept`, rule 50 is a fault of the coprocessor, rule 53 a
/// wrong signature, rule 54 that there is no commit number left for what it advances.
pub fn verify_certificate<E: Eeprom, C: Coprocessor>(
    session: &mut Session,
    store: &mut Store,
    cells: &mut E,
    copro: &mut C,
    c: &Command<'_>,
    reply: &mut Reply,
) -> Ending
    requires fits { stored.Fits store.old (E.device cells.old) (E.cells cells.old) }
    requires room { 2 ≤ (C.seen copro.old).spare }
    requires turn { next_in_run session.old.run ≡ Some Kind.VerifyCertificate }
    ensures performed { Performed Kind.VerifyCertificate session.old (plain_command c.now) (ended result session.new) (plain_reply reply.new)
        (world (C.seen copro.old) store.old (E.device cells.old) (E.cells cells.old))
        (world (C.seen copro.new) store.new (E.device cells.new) (E.cells cells.new)) }
    ensures idle { session.new.run ≡ Run.Idle }
    ensures small { array_vec_len reply.new.content ≤ 2048 }
{
    let Run::KeyChosen(name) = &session.run else {
        return uncommitted(refused(NO_STEP, session, reply));
    };
    let Ok(certificate) = read_certificate(c.body) else {
        return uncommitted(refused(BODY_FORM, session, reply));
    };
    let known = &session.memory.certificates;
    match accept(store.kept(), known, name.as_slice(), &certificate) {
        Ok(accepted) => import(&certificate, accepted, session, store, cells, copro, reply),
        Err(rule) => uncommitted(refused(bad_certificate(rule), session, reply)),
    }
}
