//! Reading a configuration.
ghost use Rattle.std.specs.Prelude.{◌≡◌, IfOk};
ghost use Rattle.toml.specs.View.{table_view};
ghost use Rattle.eid_cvc.specs.View.{body_view};
ghost use Rattle.eid_cvc.specs.Writing.{IsWritable};
ghost use Rattle.eid_terminal.specs.Plans.{IsFit, plan_view};
ghost use Rattle.eid_perso.specs.Config.{IsWhole, config_view};
ghost use Rattle.eid_perso.specs.Keys.{config_in};
ghost use Rattle.eid_perso.specs.Kit.{kit_view};
ghost use Rattle.eid_perso.specs.KitKeys.{kit_in};
ghost use Rattle.eid_perso.specs.PlanKeys.{plan_in};
ghost use Rattle.eid_perso.specs.Reading.{Reads, config_of, document_in, kit_of_text, plan_of_text};

use crate::config::{Config, ConfigError};
use crate::files::read_files;
use crate::form::required;
use crate::keys::{DATE, counters, current, passwords, previous, secrets, start};
use crate::kit::KitPlan;
use crate::kit_keys::{SIGNER_SECRET, parties, rights, sectors};
use crate::plan_keys::{authentication, auxiliary, pace, requests};
use eid_cvc::CertificateBody;
use eid_record::Record;
use eid_terminal::Plan;
use std::alloc::Global;
use toml::Table;

/// The most bytes that a text may have.
const MOST: usize = 1_048_576;

/// The configuration of a table.
#[tactic(auto, unfolding(crate::specs::Keys::config_in))]
fn config_of(alloc: Global, table: &Table) -> Result<Config, ConfigError>
    ensures reads { Reads config_view result (config_in (table_view table.now)) }
    ensures whole { IfOk result (λ c. IsWhole (config_view c)) }
{
    let (layout, number) = start(table)?;
    let (pin, can, puk) = passwords(table)?;
    let (tries, unblocks, active) = counters(table)?;
    let date = required(table, &DATE)?;
    let current = current(table)?;
    let previous = previous(table)?;
    let (ca_secret, ri_secret) = secrets(table)?;
    let files = read_files(alloc, table)?;
    let lengths = files.lengths;
    let kept = Record {
        number,
        tries: tries as u8,
        unblocks: unblocks as u8,
        active,
        pin,
        can,
        puk,
        date,
        current,
        previous,
        ca_secret,
        ri_secret,
        lengths,
    };
    Ok(Config {
        layout: layout as u8,
        kept,
        files: files.bytes,
    })
}

/// The test certificate of a table.
#[tactic(auto, unfolding(crate::specs::KitKeys::kit_in))]
fn kit_of_table(table: &Table) -> Result<KitPlan, ConfigError>
    ensures reads { Reads kit_view result (kit_in (table_view table.now)) }
    ensures writable { IfOk result (λ k. IsWritable (body_view k.body)) }
{
    let (issuer, holder, key) = parties(table)?;
    let (template, effective, expiry) = rights(table)?;
    let sectors = sectors(table)?;
    let signer = required(table, &SIGNER_SECRET)?;
    let body = CertificateBody {
        issuer,
        key,
        holder,
        template,
        effective,
        expiry,
        sectors,
    };
    Ok(KitPlan { body, signer })
}

/// The plan of a table.
#[tactic(auto, unfolding(crate::specs::PlanKeys::plan_in))]
fn plan_of_table(alloc: Global, table: &Table) -> Result<Plan, ConfigError>
    ensures reads { Reads plan_view result (plan_in (table_view table.now)) }
    ensures fit { IfOk result (λ p. IsFit (plan_view p)) }
{
    let (can_first, password, value, template) = pace(table)?;
    let (certificates, terminal_secret, chip_key) = authentication(alloc, table)?;
    let (age, validity, community) = auxiliary(table)?;
    let (sector, requests) = requests(alloc, table)?;
    Ok(Plan {
        can_first,
        password,
        value,
        template,
        certificates,
        terminal_secret,
        chip_key,
        age,
        validity,
        community,
        sector,
        requests,
    })
}

/// The table that a TOML text writes. Key 0 is refused where there is none.
#[tactic(auto, using(crate::proofs::Documents::too_long, crate::proofs::Documents::no_text, crate::proofs::Documents::no_table, crate::proofs::Documents::document))]
fn read_document(alloc: Global, text: &[u8]) -> Result<Table, ConfigError>
    ensures { Reads table_view result (document_in text.now) }
{
    if text.len() > MOST {
        return Err(ConfigError::Bad { key: 0 });
    }
    let Ok(document) = std::str::from_utf8(text) else {
        return Err(ConfigError::Bad { key: 0 });
    };
    match toml::table_from_str(alloc, document) {
        Ok(table) => Ok(table),
        Err(error) if error.is_memory() => Err(ConfigError::NoMemory),
        Err(_) => Err(ConfigError::Bad { key: 0 }),
    }
}

/// The configuration that a TOML text writes in one flat table; keys that no configuration has are passed over.
/// Hexadecimal is read in both cases. The keys and their forms are this project's own.
///
/// # Errors
/// `Bad` exactly where a key is absent though required, or refused, with the number of the first one, or 0 where the
/// text is no TOML or has over 1,048,576 bytes. `NoMemory` where memory is refused.
#[tactic(auto, unfolding(crate::specs::Reading::config_of))]
pub fn read_config(alloc: Global, text: &[u8]) -> Result<Config, ConfigError>
    ensures reads { Reads config_view result (config_of text.now) }
    ensures whole { IfOk result (λ c. IsWhole (config_view c)) }
{
    let table = read_document(alloc, text)?;
    config_of(alloc, &table)
}

/// What a TOML text says of a test certificate in one flat table; other keys are passed over. Hexadecimal is read in both
/// cases. The keys and their forms are this project's own.
///
/// # Errors
/// As `read_config`.
#[tactic(auto, unfolding(crate::specs::Reading::kit_of_text))]
pub fn read_kit(alloc: Global, text: &[u8]) -> Result<KitPlan, ConfigError>
    ensures reads { Reads kit_view result (kit_of_text text.now) }
    ensures writable { IfOk result (λ k. IsWritable (body_view k.body)) }
{
    let table = read_document(alloc, text)?;
    kit_of_table(&table)
}

/// What a TOML text says that a terminal is to do, in one flat table; other keys are passed over. Hexadecimal is read in
/// both cases. The keys and their forms are this project's own.
///
/// # Errors
/// As `read_config`.
#[tactic(auto, unfolding(crate::specs::Reading::plan_of_text))]
pub fn read_plan(alloc: Global, text: &[u8]) -> Result<Plan, ConfigError>
    ensures reads { Reads plan_view result (plan_of_text text.now) }
    ensures fit { IfOk result (λ p. IsFit (plan_view p)) }
{
    let table = read_document(alloc, text)?;
    plan_of_table(alloc, &table)
}
