//! Restricted identification (BSI TR-03110-3): its selection and its step.
ghost use Rattle.std.specs.Prelude.{◌≡◌, ◌≤◌, ◌+◌, ◌++◌, [], IsTrue, Option, Some, option_map};
ghost use Rattle.arrayvec.specs.ArrayVec.{array_vec_len};
ghost use Rattle.eid_apdu.specs.Answer.{plain_reply};
ghost use Rattle.eid_apdu.specs.Command.{plain_command};
ghost use Rattle.eid_copro.specs.Asking.{EndsAs};
ghost use Rattle.eid_record.specs.Plain.{FullRecord};
ghost use Rattle.eid_record.specs.View.{record_view};
ghost use Rattle.eid_ri.specs.View.{key_view, keys_view};
ghost use Rattle.eid_sm.specs.Keys.{ChannelState};
ghost use Rattle.eid_tlv.specs.Objects.{is_tag, object};
ghost use Rattle.eid_model.specs.Answers.{data_alone};
ghost use Rattle.eid_model.specs.Sectors.{are_its_sectors, is_of_sector};
ghost use Rattle.eid_chip.specs.SectorEnds.{identifier_object, plain_result, sector_asks, sector_given};
ghost use Rattle.eid_chip.specs.Endings.{reacted};
ghost use Rattle.eid_chip.specs.States.{next_in_run, state};
ghost use Rattle.eid_chip.specs.Steps.{IsAnsweredByKind, Stepped};

use crate::authentication::{append, put_in_data};
use crate::ending::{answered, carried_out, refused};
use crate::reaction::Reaction;
use crate::refusal::{BODY_FORM, FAULT, NO_POINT, OTHER_SECTOR, Refusal};
use crate::rights::check_identification;
use crate::session::{Run, Session};
use arrayvec::ArrayVec;
use eid_apdu::{Command, Reply};
use eid_base::Secret;
use eid_copro::Coprocessor;
use eid_model::Kind;
use eid_record::Record;
use eid_ri::{
    SectorKey, SectorKeys, identifier, names_restricted_identification, read_sector_keys,
    sector_hash,
};

/// The object with the identifier in the first sector.
const IN_FIRST: u16 = 0x81;
/// The object with the identifier in the second sector.
const IN_SECOND: u16 = 0x83;

/// MSE:Set AT for restricted identification: a run begins. Rule 10 is a body of another form, the rules 20, 26, 28, 31, 32
/// and 33 are those of `check_identification`.
pub fn select_restricted_identification(
    session: &mut Session,
    c: &Command<'_>,
    reply: &mut Reply,
) -> Reaction
    ensures told { (kept : FullRecord) (channel : Option ChannelState)
        → IsAnsweredByKind Kind.SelectRestrictedIdentification kept (state session.old channel) (plain_command c.now) [] (reacted result session.new) (plain_reply reply.new) }
    ensures small { array_vec_len reply.new.content ≤ 2048 }
{
    if !names_restricted_identification(c.body) {
        return refused(BODY_FORM, session, reply);
    }
    if let Err(refusal) = check_identification(&session.memory) {
        return refused(refusal, session, reply);
    }
    session.go_on(Run::RiChosen);
    carried_out(reply)
}

/// Whether a sector key, where one was sent, has this hash.
fn is_of_sector(hash: &Option<[u8; 32]>, key: &Option<SectorKey<'_>>) -> bool
    ensures { result ≡ is_of_sector hash.now (option_map key_view key.now) }
{
    let Some(key) = key else {
        return true;
    };
    match hash {
        Some(hash) => sector_hash(key.object)[..] == hash[..],
        None => false,
    }
}

/// Whether the sector keys are those of the terminal, by the hashes in its certificate.
fn are_its_sectors(hashes: &[Option<[u8; 32]>; 2], keys: &SectorKeys<'_>) -> bool
    ensures { result ≡ are_its_sectors hashes.now (Some (keys_view keys.now)) }
{
    let [first, second] = hashes;
    is_of_sector(first, &keys.first) && is_of_sector(second, &keys.second)
}

/// The identifier in the sector of a key, where one was sent. Rule 50 is a fault of the coprocessor, rule 52 that what was
/// agreed is no point.
fn identify<C: Coprocessor>(
    key: &Option<SectorKey<'_>>,
    secret: &Secret,
    copro: &mut C,
) -> Result<Option<[u8; 32]>, Refusal>
    requires { 1 ≤ (C.seen copro.old).spare }
    ensures { let key = option_map key_view key.now in
        EndsAs (C.seen copro.old) (C.seen copro.new) (sector_asks secret.now key) (sector_given key) (plain_result result) }
{
    let Some(key) = key else {
        return Ok(None);
    };
    match copro.agree(secret, &key.point) {
        Ok(Some(shared)) => Ok(Some(identifier(&shared))),
        Ok(None) => Err(NO_POINT),
        Err(_) => Err(FAULT),
    }
}

/// Appends an identifier, where there is one.
fn append_identifier(out: &mut ArrayVec<u8, 128>, tag: u16, found: &Option<[u8; 32]>)
    requires tag { IsTrue (is_tag tag) }
    requires room { array_vec_len out.old ≤ 60 }
    ensures items { out.new.items ≡ out.old.items ++ identifier_object tag found.now }
    ensures size { array_vec_len out.new ≤ array_vec_len out.old + 37 }
{
    if let Some(found) = found {
        append(out, tag, found);
    }
}

/// Makes the reply the one of restricted identification: the identifiers in 81 and 83, those that there are.
fn put_identifiers(first: &Option<[u8; 32]>, second: &Option<[u8; 32]>, reply: &mut Reply)
    ensures plain { plain_reply reply.new ≡ data_alone (object 0x7C (identifier_object 0x81 first.now ++ identifier_object 0x83 second.now)) }
    ensures small { array_vec_len reply.new.content ≤ 2048 }
{
    let mut inner = ArrayVec::<u8, 128>::new();
    append_identifier(&mut inner, IN_FIRST, first);
    append_identifier(&mut inner, IN_SECOND, second);
    put_in_data(inner.as_slice(), reply);
}

/// The GENERAL AUTHENTICATE of restricted identification, with the key of the terminal's first sector in A0, that of its
/// second in A2, or both: the identifiers in these sectors are sent. Rule 10 is a body of another form, rule 40 a key whose
/// hash is not in the terminal's certificate, rule 50 a fault of the coprocessor, rule 52 that what was agreed is no point.
pub fn perform_restricted_identification<C: Coprocessor>(
    session: &mut Session,
    kept: &Record,
    copro: &mut C,
    c: &Command<'_>,
    reply: &mut Reply,
) -> Reaction
    requires room { 2 ≤ (C.seen copro.old).spare }
    requires turn { next_in_run session.old.run ≡ Some Kind.PerformRestrictedIdentification }
    ensures told { (full : FullRecord) → full.fields ≡ record_view kept.now
        → Stepped (C.seen copro.old) (C.seen copro.new) Kind.PerformRestrictedIdentification full session.old (plain_command c.now) (reacted result session.new) (plain_reply reply.new) }
    ensures small { array_vec_len reply.new.content ≤ 2048 }
{
    let Some(keys) = read_sector_keys(c.body) else {
        return refused(BODY_FORM, session, reply);
    };
    if !are_its_sectors(&session.memory.certificates.sectors, &keys) {
        return refused(OTHER_SECTOR, session, reply);
    }
    let first = match identify(&keys.first, &kept.ri_secret, copro) {
        Ok(first) => first,
        Err(refusal) => return refused(refusal, session, reply),
    };
    let second = match identify(&keys.second, &kept.ri_secret, copro) {
        Ok(second) => second,
        Err(refusal) => return refused(refusal, session, reply),
    };
    put_identifiers(&first, &second, reply);
    session.end_run();
    answered()
}
