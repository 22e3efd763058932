//! The chip and the terminal of each generated session.
ghost use Rattle.std.specs.Prelude.{◌≡◌, ◌≤◌, ℕ, Some, IfOk, decimal, length};
ghost use Rattle.eid_bits.specs.Template.{template_bytes};
ghost use Rattle.eid_perso.specs.Config.{IsWhole, config_view};
ghost use Rattle.eid_perso.specs.Image.{image};
ghost use Rattle.eid_record.specs.Files.{files_bytes};
ghost use Rattle.eid_record.specs.View.{record_view, trust_point_view};
ghost use Rattle.eid_record.specs.Valid.{AreDigits, IsTrustPoint, IsValid};
ghost use Rattle.eid_store.specs.Stands.{stands};
ghost use Rattle.eid_terminal.specs.Plans.{IsFit, plan_view};
ghost use Rattle.eid_workload.specs.Generated.{big_config, big_fields, big_files, big_record, big_requests, big_template, plan_with, trust_point};

use crate::certificates::{Certificates, FIRST_DAY, TERMINAL, TRUST, TRUST_NAME};
use crate::spelling::{
    date_of, key_of, long_date_of, name_of, password_of, secret_of, six_digits, template_of,
};
use eid_base::NoMemory;
use eid_bits::Template;
use eid_perso::{Config, image_of};
use eid_record::{FILES, Password, Record, TrustPoint};
use eid_store::TWO_SLOTS;
use eid_terminal::{Plan, Request};
use std::alloc::Global;

// The numbers of the chip's secrets: of chip authentication, and of restricted identification.
const CHIP: u64 = 9;

const SECTOR: u64 = 11;

/// The date of birth that the terminal compares with the holder's, which is the same.
const BIRTH: [u8; 8] = *b"20000101";

/// The bytes of the files before data group 4, and of those behind it.
const FILES_BEFORE: &[u8; 12] = b"1\x000\x0020301231";

const FILES_BEHIND: &[u8; 33] = b"MUSTERMANN20000101\0\0\0\0\0\0\0\0\x02\x76\x11\0\0\0\0";

/// The trust point that the chip knows.
fn trust_point_of_chip() -> TrustPoint
    ensures is { trust_point_view result ≡ trust_point }
    ensures valid { IsTrustPoint (trust_point_view result) }
{
    TrustPoint {
        name: name_of(TRUST_NAME),
        template: template_of([0xFE, 0x1F, 0xFF, 0xFF, 0x37]),
        key: key_of(TRUST),
    }
}

/// The record of the chip of a number, whose digits are so many.
fn record_of(number: u32, digits: u16) -> Record
    requires is { digits ≡ length (decimal number) }
    requires few { digits ≤ 4 }
    ensures is { record_view result ≡ big_fields number }
    ensures valid { IsValid (record_view result) }
{
    let mut lengths = [None; FILES];
    lengths[0] = Some(2);
    lengths[1] = Some(2);
    lengths[4] = Some(8);
    lengths[5] = Some(digits);
    lengths[6] = Some(10);
    lengths[9] = Some(8);
    lengths[18] = Some(8);
    lengths[19] = Some(7);
    Record {
        number: 0,
        tries: 3,
        unblocks: 10,
        active: true,
        pin: six_digits(number),
        can: *b"654321",
        puk: *b"0123456789",
        date: date_of(FIRST_DAY),
        current: trust_point_of_chip(),
        previous: None,
        ca_secret: secret_of(CHIP),
        ri_secret: secret_of(SECTOR),
        lengths,
    }
}

/// The files of the chip of a number with these digits, one behind the other.
fn files_with(alloc: Global, digits: &[u8]) -> Result<Vec<u8>, NoMemory>
    ensures { IfOk result (λ files. (number : ℕ) → digits.now ≡ decimal number → files.items ≡ files_bytes (big_files number)) }
{
    let mut files = Vec::new(alloc);
    files.extend_from_slice(FILES_BEFORE)?;
    files.extend_from_slice(digits)?;
    files.extend_from_slice(FILES_BEHIND)?;
    Ok(files)
}

fn config_of(alloc: Global, number: u32) -> Result<Config, NoMemory>
    requires { number ≤ 1000 }
    ensures is { IfOk result (λ c. config_view c ≡ big_config number) }
    ensures whole { IfOk result (λ c. IsWhole (config_view c)) }
{
    let digits = number.to_string(alloc)?;
    let files = files_with(alloc, digits.as_bytes())?;
    Ok(Config {
        layout: TWO_SLOTS,
        kept: record_of(number, digits.len() as u16),
        files,
    })
}

/// The image of the chip of a number.
pub fn image_for(alloc: Global, number: u32) -> Result<Vec<u8>, NoMemory>
    requires { number ≤ 1000 }
    ensures is { IfOk result (λ cells. cells.items ≡ image (big_config number)) }
    ensures size { IfOk result (λ cells. length cells.items ≡ 65536) }
    ensures stands { IfOk result (λ cells. stands cells.items ≡ Some (big_record number)) }
{
    let config = config_of(alloc, number)?;
    image_of(alloc, &config)
}

/// What the holder lets the terminal of a number do.
fn template_for(number: u32) -> Template
    ensures { template_bytes result ≡ big_template number }
{
    if number % 2 == 0 {
        template_of([0x00, 0x00, 0x00, 0x18, 0x01])
    } else {
        template_of([0x00, 0x00, 0x00, 0x08, 0x01])
    }
}

/// Data groups 4 and 5, and the age.
fn asked_for(alloc: Global) -> Result<Vec<Request>, NoMemory>
    ensures { IfOk result (λ list. list.items ≡ big_requests) }
{
    let mut list = Vec::new(alloc);
    list.extend_from_slice(&[Request::File(4), Request::File(5), Request::Age])?;
    Ok(list)
}

/// The plan of the terminal of a number, with this PIN.
pub fn plan_for(
    alloc: Global,
    number: u32,
    pin: [u8; 6],
    certificates: &Certificates,
) -> Result<Plan, NoMemory>
    requires { AreDigits 6 pin }
    ensures is { IfOk result (λ plan. plan_view plan ≡ plan_with number pin) }
    ensures fit { IfOk result (λ plan. IsFit (plan_view plan)) }
{
    let certificates = certificates.copied(alloc)?;
    let requests = asked_for(alloc)?;
    Ok(Plan {
        can_first: None,
        password: Password::Pin,
        value: password_of(&pin),
        template: Some(template_for(number)),
        certificates,
        terminal_secret: secret_of(TERMINAL),
        chip_key: key_of(CHIP),
        age: Some(long_date_of(BIRTH)),
        validity: None,
        community: None,
        sector: None,
        requests,
    })
}
