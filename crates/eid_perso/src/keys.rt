//! The keys of a configuration.
ghost use Rattle.std.specs.Prelude.{◌≡◌, ◌≤◌, IfOk, length, option_map};
ghost use Rattle.std.specs.Option.{ForSome};
ghost use Rattle.eid_record.specs.Valid.{AreDigits, IsTrustPoint};
ghost use Rattle.eid_record.specs.View.{trust_point_view};
ghost use Rattle.eid_store.specs.Layouts.{two_slot_layout};
ghost use Rattle.toml.specs.Data.{get_member};
ghost use Rattle.toml.specs.View.{view, table_view};
ghost use Rattle.eid_perso.specs.Keys.{start_in, passwords_in, counters_in, current_in, named_previous_in, previous_in, secrets_in};
ghost use Rattle.eid_perso.specs.Reading.{Reads};

use crate::config::ConfigError;
use crate::form::{
    Day, Digits, Hex, Key, Name, Rights, Truth, Uncompressed, Whole, optional, required,
};
use eid_base::Secret;
use eid_record::TrustPoint;
use eid_store::TWO_SLOTS;
use toml::{Table, Value};

/// The value of a key, if it is there.
pub fn value_at<'a>(table: &'a Table, key: &str) -> Option<&'a Value>
    ensures { option_map (λ v. view v.now) result ≡ get_member key.now (table_view table.now) }
{
    table.get(key)
}

// The table of the keys, before those of the files.
const LAYOUT: Key<Whole> = Key {
    number: 1,
    name: "layout",
    form: Whole {
        least: TWO_SLOTS as u32,
        most: TWO_SLOTS as u32,
    },
};

const NUMBER: Key<Whole> = Key {
    number: 2,
    name: "number",
    form: Whole {
        least: 0,
        most: u32::MAX,
    },
};

const PIN: Key<Digits<6>> = Key {
    number: 3,
    name: "pin",
    form: Digits,
};

const CAN: Key<Digits<6>> = Key {
    number: 4,
    name: "can",
    form: Digits,
};

const PUK: Key<Digits<10>> = Key {
    number: 5,
    name: "puk",
    form: Digits,
};

const TRIES: Key<Whole> = Key {
    number: 6,
    name: "tries",
    form: Whole { least: 0, most: 3 },
};

const UNBLOCKS: Key<Whole> = Key {
    number: 7,
    name: "unblocks",
    form: Whole { least: 0, most: 10 },
};

const ACTIVE: Key<Truth> = Key {
    number: 8,
    name: "active",
    form: Truth,
};

pub const DATE: Key<Day> = Key {
    number: 9,
    name: "date",
    form: Day,
};

const TRUST_NAME: Key<Name> = Key {
    number: 10,
    name: "trust_name",
    form: Name,
};

const TRUST_TEMPLATE: Key<Rights> = Key {
    number: 11,
    name: "trust_template",
    form: Rights,
};

const TRUST_KEY: Key<Uncompressed> = Key {
    number: 12,
    name: "trust_key",
    form: Uncompressed,
};

const PREVIOUS_NAME: Key<Name> = Key {
    number: 13,
    name: "previous_name",
    form: Name,
};

const PREVIOUS_TEMPLATE: Key<Rights> = Key {
    number: 14,
    name: "previous_template",
    form: Rights,
};

const PREVIOUS_KEY: Key<Uncompressed> = Key {
    number: 15,
    name: "previous_key",
    form: Uncompressed,
};

const CA_SECRET: Key<Hex<32>> = Key {
    number: 16,
    name: "ca_secret",
    form: Hex,
};

const RI_SECRET: Key<Hex<32>> = Key {
    number: 17,
    name: "ri_secret",
    form: Hex,
};

/// The layout and the commit number.
#[tactic(auto, unfolding(crate::specs::Keys::start_in))]
pub fn start(table: &Table) -> Result<(u32, u32), ConfigError>
    ensures reads { Reads (λ s. s) result (start_in (table_view table.now)) }
    ensures layout { IfOk result (λ s. s.0 ≡ two_slot_layout) }
{
    let layout = optional(table, &LAYOUT, u32::from(TWO_SLOTS))?;
    let number = optional(table, &NUMBER, 0)?;
    Ok((layout, number))
}

/// PIN, CAN and PUK.
#[tactic(auto, unfolding(crate::specs::Keys::passwords_in))]
pub fn passwords(table: &Table) -> Result<([u8; 6], [u8; 6], [u8; 10]), ConfigError>
    ensures reads { Reads (λ p. p) result (passwords_in (table_view table.now)) }
    ensures valid { IfOk result (λ p. AreDigits 6 p.0 × AreDigits 6 p.1 × AreDigits 10 p.2) }
{
    let pin = required(table, &PIN)?;
    let can = required(table, &CAN)?;
    let puk = required(table, &PUK)?;
    Ok((pin, can, puk))
}

/// Tries, unblockings, and whether the PIN is active.
#[tactic(auto, unfolding(crate::specs::Keys::counters_in))]
pub fn counters(table: &Table) -> Result<(u32, u32, bool), ConfigError>
    ensures reads { Reads (λ c. c) result (counters_in (table_view table.now)) }
    ensures valid { IfOk result (λ c. (c.0 ≤ 3) × (c.1 ≤ 10)) }
{
    let tries = optional(table, &TRIES, 3)?;
    let unblocks = optional(table, &UNBLOCKS, 10)?;
    let active = optional(table, &ACTIVE, true)?;
    Ok((tries, unblocks, active))
}

/// The current trust point.
#[tactic(auto, unfolding(crate::specs::Keys::current_in))]
pub fn current(table: &Table) -> Result<TrustPoint, ConfigError>
    ensures reads { Reads trust_point_view result (current_in (table_view table.now)) }
    ensures valid { IfOk result (λ t. IsTrustPoint (trust_point_view t)) }
{
    let name = required(table, &TRUST_NAME)?;
    let template = required(table, &TRUST_TEMPLATE)?;
    let key = required(table, &TRUST_KEY)?;
    Ok(TrustPoint {
        name,
        template,
        key,
    })
}

#[tactic(auto, unfolding(crate::specs::Keys::named_previous_in))]
fn named_previous(table: &Table) -> Result<TrustPoint, ConfigError>
    ensures reads { Reads trust_point_view result (named_previous_in (table_view table.now)) }
    ensures valid { IfOk result (λ t. IsTrustPoint (trust_point_view t)) }
{
    let name = required(table, &PREVIOUS_NAME)?;
    let template = required(table, &PREVIOUS_TEMPLATE)?;
    let key = required(table, &PREVIOUS_KEY)?;
    Ok(TrustPoint {
        name,
        template,
        key,
    })
}

/// The previous trust point, if its name is there; without it its other keys are not looked at.
#[tactic(auto, unfolding(crate::specs::Keys::previous_in))]
pub fn previous(table: &Table) -> Result<Option<TrustPoint>, ConfigError>
    ensures reads { Reads (option_map trust_point_view) result (previous_in (table_view table.now)) }
    ensures valid { IfOk result (λ p. ForSome (option_map trust_point_view p) IsTrustPoint) }
{
    if value_at(table, PREVIOUS_NAME.name).is_none() {
        return Ok(None);
    }
    let point = named_previous(table)?;
    Ok(Some(point))
}

/// The secrets of chip authentication and of restricted identification.
#[tactic(auto, unfolding(crate::specs::Keys::secrets_in))]
pub fn secrets(table: &Table) -> Result<(Secret, Secret), ConfigError>
    ensures reads { Reads (λ s. s) result (secrets_in (table_view table.now)) }
    ensures valid { IfOk result (λ s. (length s.0 ≡ 32) × (length s.1 ≡ 32)) }
{
    let ca_secret = required(table, &CA_SECRET)?;
    let ri_secret = required(table, &RI_SECRET)?;
    Ok((ca_secret, ri_secret))
}
