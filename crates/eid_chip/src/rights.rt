//! What a terminal is granted (BSI TR-03110-4), and what the holder's password gives.
ghost use Rattle.std.specs.Prelude.{◌≡◌, ◌≤◌, ℕ, Some, option_map};
ghost use Rattle.eid_password.specs.Passwords.{is_pin, is_puk};
ghost use Rattle.eid_model.specs.Rules.{group_of, is_by_holder, is_granted, manages_pin, may_compare, reading, was_with, writing};
ghost use Rattle.eid_chip.specs.Granting.{change_refused, comparing_refused, file_refused, has_among, identification_refused, is_given, manager_refused, of_memory, reading_refused, refusal_in, terminal_refused, unblocking_refused, writing_refused};
ghost use Rattle.eid_chip.specs.States as states;

use crate::files::{CARD_ACCESS, CARD_SECURITY};
use crate::refusal::{
    NO_CHIP, NO_PACE, NO_PIN_MANAGEMENT, NO_RIGHT, NO_TERMINAL, NO_UNBLOCKING, NOT_BY_HOLDER,
    NOT_SELECTED, Refusal,
};
use crate::session::Memory;
use eid_bits::{Bits, meet};
use eid_model::Comparison;
use eid_record::{FileNo, Password};

/// The right to serve with a PACE by the CAN.
const CAN_ALLOWED: u32 = 4;

/// The right to have the age compared.
const AGE_VERIFICATION: u32 = 0;

/// The right to restricted identification.
const RESTRICTED_IDENTIFICATION: u32 = 2;

/// The right to have the community compared.
const COMMUNITY_VERIFICATION: u32 = 1;

/// The right to manage PIN and CAN.
const PIN_MANAGEMENT: u32 = 5;

/// The rights that stand in the holder's template of the last PACE and in all three of the chain, where they are there.
fn given(memory: &Memory) -> Option<Bits>
    ensures { (bit : ℕ) → has_among result bit ≡ is_given memory.now bit }
{
    let Some(pace) = &memory.pace else {
        return None;
    };
    let Some(holder) = pace.template else {
        return None;
    };
    let Some(root) = memory.certificates.root else {
        return None;
    };
    let Some(verifier) = &memory.certificates.verifier else {
        return None;
    };
    let Some(terminal) = &memory.certificates.terminal else {
        return None;
    };
    let upper = meet(holder.bits(), root.bits());
    let lower = meet(verifier.template.bits(), terminal.template.bits());
    Some(meet(upper, lower))
}

/// Whether the right with this number is granted: after chip authentication alone.
#[tactic(auto, unfolding(eid_model::specs::Rules::is_granted))]
fn is_granted(memory: &Memory, bit: u32) -> bool
    ensures { result ≡ is_granted (of_memory memory.now) bit }
{
    if !memory.chip_proven {
        return false;
    }
    match given(memory) {
        Some(rights) => rights.has(bit),
        None => false,
    }
}

/// Whether the last PACE was with the PIN, or with the CAN where that is allowed.
#[tactic(auto, unfolding(eid_model::specs::Rules::is_by_holder))]
fn is_by_holder(memory: &Memory) -> bool
    ensures { result ≡ is_by_holder (of_memory memory.now) }
{
    match memory.last_password() {
        Some(Password::Pin) => true,
        Some(Password::Can) => is_granted(memory, CAN_ALLOWED),
        Some(Password::Puk) => false,
        None => false,
    }
}

/// Whether a terminal may manage the PIN.
#[tactic(auto, unfolding(eid_model::specs::Rules::manages_pin))]
fn manages_pin(memory: &Memory) -> bool
    ensures { result ≡ manages_pin (of_memory memory.now) }
{
    memory.chip_proven && is_by_holder(memory) && is_granted(memory, PIN_MANAGEMENT)
}

/// Whether a terminal has authenticated itself in this session, and then the chip, for a holder who entered a password that
/// serves. Rule 26 is that no terminal has, rule 28 that the chip has not, rule 31 that PACE was with another password.
fn check_terminal(memory: &Memory) -> Result<(), Refusal>
    ensures { refusal_in result ≡ terminal_refused (of_memory memory.now) }
{
    if memory.terminal.is_none() {
        return Err(NO_TERMINAL);
    }
    if !memory.chip_proven {
        return Err(NO_CHIP);
    }
    if !is_by_holder(memory) {
        return Err(NOT_BY_HOLDER);
    }
    Ok(())
}

/// Whether a terminal may take this right over a file. The rules 26, 28 and 31 are those of `check_terminal`, rule 32 is that
/// the application is not selected, rule 33 that the right is not granted.
fn check_file(memory: &Memory, bit: u32) -> Result<(), Refusal>
    ensures { refusal_in result ≡ file_refused (of_memory memory.now) bit }
{
    check_terminal(memory)?;
    if !memory.selected {
        return Err(NOT_SELECTED);
    }
    if !is_granted(memory, bit) {
        return Err(NO_RIGHT);
    }
    Ok(())
}

/// The right to read a data group, by its file.
fn reading(file: FileNo) -> u32
    requires { 2 ≤ file.0 }
    ensures { result ≡ reading (group_of file.0) }
{
    7 + (u32::from(file.0) - 1)
}

/// The right to write a data group, by its file.
fn writing(file: FileNo) -> u32
    requires { (1 ≤ file.0) × (file.0 ≤ 22) }
    ensures { result ≡ writing (group_of file.0) }
{
    54 - (u32::from(file.0) - 1)
}

/// Whether a file may be read. Rule 20 is that there is no PACE, which is not asked for EF.CardAccess, the rules 26, 28, 31,
/// 32 and 33 are those of `check_file` for a data group.
pub fn check_reading(memory: &Memory, file: FileNo) -> Result<(), Refusal>
    ensures { refusal_in result ≡ reading_refused (of_memory memory.now) file.0 }
{
    if file != CARD_ACCESS && memory.pace.is_none() {
        return Err(NO_PACE);
    }
    if file.0 <= CARD_SECURITY.0 {
        return Ok(());
    }
    check_file(memory, reading(file))
}

/// Whether a data group may be written. Rule 20 is that there is no PACE, the rules 26, 28, 31, 32 and 33 are those of
/// `check_file`.
pub fn check_writing(memory: &Memory, file: FileNo) -> Result<(), Refusal>
    requires { (1 ≤ file.0) × (file.0 ≤ 22) }
    ensures { refusal_in result ≡ writing_refused (of_memory memory.now) file.0 }
{
    if memory.pace.is_none() {
        return Err(NO_PACE);
    }
    check_file(memory, writing(file))
}

/// Whether the right that a comparison takes is granted; that of the validity takes none.
fn may_compare(memory: &Memory, comparison: Comparison) -> bool
    ensures { result ≡ may_compare (of_memory memory.now) (Some comparison) }
{
    match comparison {
        Comparison::Age => is_granted(memory, AGE_VERIFICATION),
        Comparison::Validity => true,
        Comparison::Community => is_granted(memory, COMMUNITY_VERIFICATION),
    }
}

/// Whether a terminal may have this compared. Rule 20 is that there is no PACE, the rules 26, 28 and 31 are those of
/// `check_terminal`, rule 32 is that the application is not selected, rule 33 that the right is not granted.
pub fn check_comparison(memory: &Memory, comparison: Comparison) -> Result<(), Refusal>
    ensures { refusal_in result ≡ comparing_refused (of_memory memory.now) comparison }
{
    if memory.pace.is_none() {
        return Err(NO_PACE);
    }
    check_terminal(memory)?;
    if !memory.selected {
        return Err(NOT_SELECTED);
    }
    if !may_compare(memory, comparison) {
        return Err(NO_RIGHT);
    }
    Ok(())
}

/// Whether restricted identification may begin. Rule 20 is that there is no PACE, the rules 26, 28, 31, 32 and 33 are those
/// of `check_file`.
pub fn check_identification(memory: &Memory) -> Result<(), Refusal>
    ensures { refusal_in result ≡ identification_refused (of_memory memory.now) }
{
    if memory.pace.is_none() {
        return Err(NO_PACE);
    }
    check_file(memory, RESTRICTED_IDENTIFICATION)
}

/// Whether a terminal may manage PIN and CAN. Rule 20 is that there is no PACE, the rules 26, 28 and 31 are those of
/// `check_terminal`, rule 33 is that the right is not granted.
pub fn check_manager(memory: &Memory) -> Result<(), Refusal>
    ensures { refusal_in result ≡ manager_refused (of_memory memory.now) }
{
    if memory.pace.is_none() {
        return Err(NO_PACE);
    }
    check_terminal(memory)?;
    if !is_granted(memory, PIN_MANAGEMENT) {
        return Err(NO_RIGHT);
    }
    Ok(())
}

/// Whether the last PACE was with the PIN.
fn was_with_pin(memory: &Memory) -> bool
    ensures { result ≡ was_with is_pin (option_map states.memory memory.now.pace) }
{
    match memory.last_password() {
        Some(Password::Pin) => true,
        Some(Password::Can) => false,
        Some(Password::Puk) => false,
        None => false,
    }
}

/// Whether the last PACE was with the PUK.
pub fn was_with_puk(memory: &Memory) -> bool
    ensures { result ≡ was_with is_puk (option_map states.memory memory.now.pace) }
{
    match memory.last_password() {
        Some(Password::Puk) => true,
        Some(Password::Pin) => false,
        Some(Password::Can) => false,
        None => false,
    }
}

/// Whether the PIN may be changed. Rule 20 is that there is no PACE, rule 29 that it was with another password than the PIN,
/// and no terminal is there that may manage it.
pub fn check_change(memory: &Memory) -> Result<(), Refusal>
    ensures { refusal_in result ≡ change_refused (of_memory memory.now) }
{
    if memory.pace.is_none() {
        return Err(NO_PACE);
    }
    if !was_with_pin(memory) && !manages_pin(memory) {
        return Err(NO_PIN_MANAGEMENT);
    }
    Ok(())
}

/// Whether the PIN may be unblocked, where so many unblockings by the PUK are left. Rule 20 is that there is no PACE, rule 29
/// that it was with another password than the PUK, and no terminal is there that may manage the PIN, rule 30 that it was with
/// the PUK, and none is left.
pub fn check_unblocking(memory: &Memory, unblocks: u8) -> Result<(), Refusal>
    ensures { refusal_in result ≡ unblocking_refused (of_memory memory.now) unblocks }
{
    if memory.pace.is_none() {
        return Err(NO_PACE);
    }
    let by_puk = was_with_puk(memory);
    if !by_puk && !manages_pin(memory) {
        return Err(NO_PIN_MANAGEMENT);
    }
    if by_puk && unblocks == 0 {
        return Err(NO_UNBLOCKING);
    }
    Ok(())
}
