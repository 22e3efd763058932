//! The keys of the configuration of a test certificate.
ghost use Rattle.std.specs.Prelude.{◌≡◌, ◌≤◌, ◌∷◌, [], IfOk, length, slice_index};
ghost use Rattle.eid_bits.specs.Dates.{date_digits};
ghost use Rattle.eid_bits.specs.Template.{template_bytes};
ghost use Rattle.toml.specs.View.{table_view};
ghost use Rattle.eid_perso.specs.KitKeys.{parties_in, rights_in, sectors_in};
ghost use Rattle.eid_perso.specs.Reading.{Reads};

use crate::config::ConfigError;
use crate::form::{Day, Hex, Key, Maybe, Name, Rights, Uncompressed, optional, required};
use arrayvec::ArrayVec;
use eid_base::Point;
use eid_bits::{Date6, Template};
use toml::Table;

// The table of the keys.
const ISSUER: Key<Name> = Key {
    number: 1,
    name: "issuer",
    form: Name,
};

const HOLDER: Key<Name> = Key {
    number: 2,
    name: "holder",
    form: Name,
};

const KEY: Key<Uncompressed> = Key {
    number: 3,
    name: "key",
    form: Uncompressed,
};

const TEMPLATE: Key<Rights> = Key {
    number: 4,
    name: "template",
    form: Rights,
};

const EFFECTIVE: Key<Day> = Key {
    number: 5,
    name: "effective",
    form: Day,
};

const EXPIRY: Key<Day> = Key {
    number: 6,
    name: "expiry",
    form: Day,
};

const SECTOR1: Key<Maybe<Hex<32>>> = Key {
    number: 7,
    name: "sector1",
    form: Maybe(Hex),
};

const SECTOR2: Key<Maybe<Hex<32>>> = Key {
    number: 8,
    name: "sector2",
    form: Maybe(Hex),
};

pub const SIGNER_SECRET: Key<Hex<32>> = Key {
    number: 9,
    name: "signer_secret",
    form: Hex,
};

/// Issuer, holder and the holder's key.
#[tactic(auto, unfolding(crate::specs::KitKeys::parties_in))]
pub fn parties(table: &Table) -> Result<(ArrayVec<u8, 16>, ArrayVec<u8, 16>, Point), ConfigError>
    ensures reads { Reads (λ p. (p.0.items, p.1.items, p.2)) result (parties_in (table_view table.now)) }
    ensures names { IfOk result (λ p. (1 ≤ length p.0.items) × (1 ≤ length p.1.items)) }
    ensures key { IfOk result (λ p. slice_index p.2 0 ≡ 4) }
{
    let issuer = required(table, &ISSUER)?;
    let holder = required(table, &HOLDER)?;
    let key = required(table, &KEY)?;
    Ok((issuer, holder, key))
}

/// The template, the effective date and the expiration date.
#[tactic(auto, unfolding(crate::specs::KitKeys::rights_in))]
pub fn rights(table: &Table) -> Result<(Template, Date6, Date6), ConfigError>
    ensures { Reads (λ r. (template_bytes r.0, date_digits r.1, date_digits r.2)) result (rights_in (table_view table.now)) }
{
    let template = required(table, &TEMPLATE)?;
    let effective = required(table, &EFFECTIVE)?;
    let expiry = required(table, &EXPIRY)?;
    Ok((template, effective, expiry))
}

/// The hashes of the sector keys, each of which may be left out.
#[tactic(auto, unfolding(crate::specs::KitKeys::sectors_in))]
pub fn sectors(table: &Table) -> Result<[Option<[u8; 32]>; 2], ConfigError>
    ensures { Reads (λ s. s) result (sectors_in (table_view table.now)) }
{
    let first = optional(table, &SECTOR1, None)?;
    let second = optional(table, &SECTOR2, None)?;
    Ok([first, second])
}
