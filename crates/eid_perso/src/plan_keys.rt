//! The keys of the plan of a terminal.
ghost use Rattle.std.specs.Prelude.{◌≡◌, ◌≤◌, IfOk, IfSome, length, map, option_map};
ghost use Rattle.toml.specs.View.{table_view};
ghost use Rattle.eid_bits.specs.Dates.{date_text};
ghost use Rattle.eid_bits.specs.Template.{template_bytes};
ghost use Rattle.eid_record.specs.Valid.{AreDigits};
ghost use Rattle.eid_terminal.specs.Plans.{AreSendable, CanAllBeAsked, IsCommunity, IsUncompressed, certificate_bytes, digits_of};
ghost use Rattle.eid_perso.specs.PlanKeys.{value_key, requests_key};
ghost use Rattle.eid_perso.specs.PlanKeys.{pace_in, authentication_in, auxiliary_in, requests_in};
ghost use Rattle.eid_perso.specs.Keys.{required};
ghost use Rattle.eid_perso.specs.Reading.{Reads};

use crate::config::ConfigError;
use crate::form::{
    Community, Digits, Hex, Key, LongDate, Maybe, PasswordDigits, PasswordWord, Rights,
    Uncompressed, optional, required,
};
use crate::lists::{CertificateText, ListOf, RequestWord, optional_list, required_list};
use arrayvec::ArrayVec;
use eid_base::{Point, Secret};
use eid_bits::{Date8, Template};
use eid_record::Password;
use eid_terminal::Request;
use std::alloc::Global;
use toml::Table;

// The table of the keys.
const CAN_FIRST: Key<Maybe<Digits<6>>> = Key {
    number: 1,
    name: "can_first",
    form: Maybe(Digits),
};

const PASSWORD: Key<PasswordWord> = Key {
    number: 2,
    name: "password",
    form: PasswordWord,
};

/// The digits of this password.
fn value(table: &Table, password: Password) -> Result<ArrayVec<u8, 10>, ConfigError>
    ensures reads { Reads (λ v. v.items) result (required (value_key password) (table_view table.now)) }
    ensures valid { IfOk result (λ v. AreDigits (digits_of password) v.items) }
{
    let key = Key {
        number: 3,
        name: "value",
        form: PasswordDigits { password },
    };
    required(table, &key)
}

const TEMPLATE: Key<Maybe<Rights>> = Key {
    number: 4,
    name: "template",
    form: Maybe(Rights),
};

const CERTIFICATES: Key<ListOf<CertificateText>> = Key {
    number: 5,
    name: "certificates",
    form: ListOf {
        most: 8,
        item: CertificateText,
    },
};

const TERMINAL_SECRET: Key<Hex<32>> = Key {
    number: 6,
    name: "terminal_secret",
    form: Hex,
};

const CHIP_KEY: Key<Uncompressed> = Key {
    number: 7,
    name: "chip_key",
    form: Uncompressed,
};

const AGE: Key<Maybe<LongDate>> = Key {
    number: 8,
    name: "age",
    form: Maybe(LongDate),
};

const VALIDITY: Key<Maybe<LongDate>> = Key {
    number: 9,
    name: "validity",
    form: Maybe(LongDate),
};

const COMMUNITY: Key<Maybe<Community>> = Key {
    number: 10,
    name: "community",
    form: Maybe(Community),
};

const SECTOR: Key<Maybe<Uncompressed>> = Key {
    number: 11,
    name: "sector",
    form: Maybe(Uncompressed),
};

/// The requests of a plan that has a sector key, or has none.
fn request_list(alloc: Global, table: &Table, has_sector: bool) -> Result<Vec<Request>, ConfigError>
    ensures { Reads (λ v. v.items) result (required (requests_key has_sector) (table_view table.now)) }
{
    let key = Key {
        number: 12,
        name: "requests",
        form: ListOf {
            most: 32,
            item: RequestWord { has_sector },
        },
    };
    required_list(alloc, table, &key)
}

/// The card access number for a PACE of its own, the password with its digits, and the template.
#[tactic(auto, unfolding(crate::specs::PlanKeys::pace_in))]
pub fn pace(
    table: &Table,
) -> Result<
    (
        Option<[u8; 6]>,
        Password,
        ArrayVec<u8, 10>,
        Option<Template>,
    ),
    ConfigError,
>
    ensures reads { Reads (λ p. (p.0, p.1, p.2.items, option_map template_bytes p.3)) result (pace_in (table_view table.now)) }
    ensures can_first { IfOk result (λ p. IfSome p.0 (AreDigits 6)) }
    ensures value { IfOk result (λ p. AreDigits (digits_of p.1) p.2.items) }
{
    let can_first = optional(table, &CAN_FIRST, None)?;
    let password = required(table, &PASSWORD)?;
    let value = value(table, password)?;
    let template = optional(table, &TEMPLATE, None)?;
    Ok((can_first, password, value, template))
}

/// The certificates, the secret of the terminal, and the public key of the chip.
#[tactic(auto, unfolding(crate::specs::PlanKeys::authentication_in))]
pub fn authentication(
    alloc: Global,
    table: &Table,
) -> Result<(Vec<Vec<u8>>, Secret, Point), ConfigError>
    ensures reads { Reads (λ a. (map certificate_bytes a.0.items, a.1, a.2)) result (authentication_in (table_view table.now)) }
    ensures few { IfOk result (λ a. length a.0.items ≤ 8) }
    ensures certificates { IfOk result (λ a. AreSendable (map certificate_bytes a.0.items)) }
    ensures chip_key { IfOk result (λ a. IsUncompressed a.2) }
{
    let certificates = optional_list(alloc, table, &CERTIFICATES)?;
    let terminal_secret = required(table, &TERMINAL_SECRET)?;
    let chip_key = required(table, &CHIP_KEY)?;
    Ok((certificates, terminal_secret, chip_key))
}

/// The values that auxiliary data compares: age, validity and community.
#[tactic(auto, unfolding(crate::specs::PlanKeys::auxiliary_in))]
pub fn auxiliary(
    table: &Table,
) -> Result<(Option<Date8>, Option<Date8>, Option<ArrayVec<u8, 16>>), ConfigError>
    ensures reads { Reads (λ a. (option_map date_text a.0, option_map date_text a.1, option_map (λ c. c.items) a.2)) result
        (auxiliary_in (table_view table.now)) }
    ensures community { IfOk result (λ a. IfSome a.2 (λ c. IsCommunity c.items)) }
{
    let age = optional(table, &AGE, None)?;
    let validity = optional(table, &VALIDITY, None)?;
    let community = optional(table, &COMMUNITY, None)?;
    Ok((age, validity, community))
}

/// The sector key, and the requests.
#[tactic(auto, unfolding(crate::specs::PlanKeys::requests_in))]
pub fn requests(alloc: Global, table: &Table) -> Result<(Option<Point>, Vec<Request>), ConfigError>
    ensures reads { Reads (λ r. (r.0, r.1.items)) result (requests_in (table_view table.now)) }
    ensures sector { IfOk result (λ r. IfSome r.0 IsUncompressed) }
    ensures short { IfOk result (λ r. length r.1.items ≤ 32) }
    ensures requests { IfOk result (λ r. CanAllBeAsked r.0 r.1.items) }
{
    let sector = optional(table, &SECTOR, None)?;
    let requests = request_list(alloc, table, sector.is_some())?;
    Ok((sector, requests))
}
