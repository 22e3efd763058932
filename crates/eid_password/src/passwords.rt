ghost use Rattle.std.specs.Prelude.{◌≡◌};
ghost use Rattle.eid_base.specs.Rules.{refused_by};
ghost use Rattle.eid_record.specs.View.{record_view};
ghost use Rattle.eid_password.specs.Passwords as passwords;
ghost use Rattle.eid_password.specs.Passwords.{digits_of, start_refusal};

use eid_base::rules::{BLOCKED, INACTIVE, SUSPENDED};
use eid_base::{Rule, Status};
use eid_record::{Password, Record};

/// The tries of a PIN that was not mistaken.
const ALL_TRIES: u8 = 3;

/// The status of a command that was carried out.
const DONE: Status = Status(0x9000);
/// The status of the selection of a PIN that is deactivated.
const DEACTIVATED: Status = Status(0x6283);
/// The status of the selection of a PIN that was mistaken, but for the number of the tries that are left.
const TRIES_LEFT: u16 = 0x63c0;

/// The ASCII digits of a password as the record keeps them: six of the CAN and of the PIN, ten of the PUK
/// (the lengths are this project's own).
pub fn digits<'a>(kept: &'a Record, password: Password) -> &'a [u8]
    ensures { result.now ≡ digits_of (record_view kept.now) password }
{
    match password {
        Password::Can => &kept.can,
        Password::Pin => &kept.pin,
        Password::Puk => &kept.puk,
    }
}

/// Whether PACE may start with a password, where the session's last PACE was with the CAN, or not
/// (BSI TR-03110-2). CAN and PUK may always be tried.
///
/// # Errors
/// The first of these rules that fails for the PIN: 15, it is active; 16, a try is left; 17, two tries are left, or
/// `by_can`.
pub fn may_start(kept: &Record, password: Password, by_can: bool) -> Result<(), Rule>
    ensures { refused_by result ≡ start_refusal (record_view kept.now) password by_can }
{
    match password {
        Password::Can => Ok(()),
        Password::Pin => pin_may_start(kept, by_can),
        Password::Puk => Ok(()),
    }
}

/// Whether PACE may start with the PIN.
fn pin_may_start(kept: &Record, by_can: bool) -> Result<(), Rule>
    ensures { refused_by result ≡ passwords.pin_refusal (record_view kept.now) by_can }
{
    if !kept.active {
        return Err(INACTIVE);
    }
    if kept.tries < 1 {
        return Err(BLOCKED);
    }
    if kept.tries < 2 && !by_can {
        return Err(SUSPENDED);
    }
    Ok(())
}

/// The status that the selection of a password is answered with (BSI TR-03110-3): of the PIN 6283 where it is deactivated,
/// else 63CX with X tries where fewer than three are left; else 9000.
pub fn select_status(kept: &Record, password: Password) -> Status
    ensures { result.0 ≡ passwords.select_status (record_view kept.now) password }
{
    match password {
        Password::Can => DONE,
        Password::Pin => pin_status(kept),
        Password::Puk => DONE,
    }
}

/// The status of the selection of the PIN.
fn pin_status(kept: &Record) -> Status
    ensures { result.0 ≡ passwords.select_status (record_view kept.now) Password.Pin }
{
    if !kept.active {
        return DEACTIVATED;
    }
    if kept.tries < ALL_TRIES {
        return Status(TRIES_LEFT + u16::from(kept.tries));
    }
    DONE
}
