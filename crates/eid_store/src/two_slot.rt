ghost use Rattle.std.specs.Prelude.{◌≡◌, ℕ, ◌+◌, ◌<◌, ◌≤◌, ◌↔◌, List, Option, Some, None, Ok, Err, true, IsTrue, IsSome, IfOk, IfSome, IfNone, OnOk, OnErr, length, slice_range, take};
ghost use Rattle.std.specs.Option.{option_map, option_and_then};
ghost use Rattle.eid_cells.specs.Device.{Device};
ghost use Rattle.eid_record.specs.Plain.{PlainRecord, PlainEffect, FullRecord};
ghost use Rattle.eid_record.specs.Effect.{CanApply, HasRange, committed};
ghost use Rattle.eid_record.specs.EffectView.{effect_view};
ghost use Rattle.eid_record.specs.Files.{file_range, total};
ghost use Rattle.eid_record.specs.View.{record_view};
ghost use Rattle.eid_store.specs.Slots.{current, room_of, number_in, chosen};
ghost use Rattle.eid_store.specs.Stands.{two_slot_stands};
ghost use Rattle.eid_store.specs.Fits.{TwoSlotFits};

use crate::device::cell;
use crate::durable::{Durable, MountError};
use crate::files::{change_of, files_size, place_of};
use crate::gates::is_open;
use crate::next::{NewRecord, advance};
use crate::receipt::Receipt;
use crate::slot::{FILES_FROM, Slot, TWO_SLOTS};
use crate::turn::turn;
use eid_cells::{Cut, Eeprom};
use eid_record::{Effect, FIXED, FileNo, Record, read_record};

/// Layout 1: the record stands in one of two slots, and a commit writes the other and opens it. Mounting makes no write.
#[derive(Drop)]
pub struct TwoSlot {
    kept: Record,
    slot: Slot,
}

/// The commit number that the slot's record begins with.
fn number<E: Eeprom>(cells: &E, slot: Slot) -> u32
    requires { IsTrue (E.device cells.now).has_power }
    ensures { result ≡ number_in slot (E.cells cells.now) }
{
    let mut bytes = [0; 4];
    cells.read(slot.record(), &mut bytes);
    u32::from_be_bytes(bytes)
}

/// The current slot: the one that is open, of two open ones that of the greater number.
fn current<E: Eeprom>(cells: &E) -> Option<Slot>
    requires { IsTrue (E.device cells.now).has_power }
    ensures { result ≡ current (E.cells cells.now) }
{
    match (is_open(cells, Slot::A), is_open(cells, Slot::B)) {
        (false, false) => None,
        (true, false) => Some(Slot::A),
        (false, true) => Some(Slot::B),
        (true, true) => greater(number(cells, Slot::A), number(cells, Slot::B)),
    }
}

/// Of two open slots with these numbers, the current one.
fn greater(a: u32, b: u32) -> Option<Slot>
    ensures { result ≡ chosen true true a b }
{
    if b < a {
        return Some(Slot::A);
    }
    if a < b {
        return Some(Slot::B);
    }
    None
}

/// The store that the cells hold, if they stand for a record; nothing is written.
fn mounted<E: Eeprom>(cells: &E) -> Option<TwoSlot>
    requires { IsTrue (E.device cells.now).has_power }
    ensures fits { IfSome result (λ store. TwoSlotFits store
        (E.device cells.now) (E.cells cells.now)) }
    ensures none { IfNone result (two_slot_stands (E.cells cells.now) ≡ None) }
{
    if cell(cells, 0) != TWO_SLOTS {
        return None;
    }
    let Some(slot) = current(cells) else {
        return None;
    };
    let mut fixed = [0; FIXED];
    cells.read(slot.record(), &mut fixed);
    match read_record(&fixed) {
        Ok(kept) => Some(TwoSlot { kept, slot }),
        Err(_) => None,
    }
}

impl Durable for TwoSlot {
    ghost use Rattle.eid_store.specs.Cost.{Costs};
    ghost use Rattle.eid_store.specs.Durable.{IsAllOrNothing, Mounts, is_spend};
    ghost use Rattle.eid_store.specs.Fits.{TwoSlotFits, two_slot_fields, commit_writes};
    ghost use Rattle.eid_store.specs.Layouts.{layout_of};
    ghost use Rattle.eid_store.specs.Receipt.{receipt_number, receipt_spends};

    ghost stands = { two_slot_stands };

    ghost fields = { two_slot_fields };

    ghost fits = { TwoSlotFits };

    ghost mount_cost = { λ cells. 0 };

    ghost commit_cost = { commit_writes };

    fn mount<E: Eeprom>(cells: &mut E) -> Result<TwoSlot, MountError>
        requires power { IsTrue (E.device cells.old).has_power }
        ensures fits { IfOk result (λ store. TwoSlotFits store (E.device cells.new) (E.cells cells.new)) }
        ensures bad_image { (result ≡ Err MountError.BadImage)
            ↔ (two_slot_stands (E.cells cells.old) ≡ None) }
        ensures untouched { result ≡ Err MountError.BadImage
            → E.cells cells.new ≡ E.cells cells.old }
        ensures same { two_slot_stands (E.cells cells.new) ≡ two_slot_stands (E.cells cells.old) }
        ensures layout { layout_of (E.cells cells.new) ≡ layout_of (E.cells cells.old) }
        ensures cost { Mounts 0 (E.device cells.old) (E.device cells.new) result }
        ensures most { IsSome (two_slot_stands (E.cells cells.old)) → 0 ≤ 40 }
        // No write is made.
        ensures cells { E.cells cells.new ≡ E.cells cells.old }
        ensures device { E.device cells.new ≡ E.device cells.old }
    {
        match mounted(cells) {
            Some(store) => Ok(store),
            None => Err(MountError::BadImage),
        }
    }

    fn kept(&self) -> &Record {
        &self.kept
    }

    fn read_file<E: Eeprom>(&self, cells: &E, file: FileNo, offset: u16, into: &mut [u8]) {
        let place = place_of(&self.kept.lengths, file) + u32::from(offset);
        cells.read(self.slot.record() + FILES_FROM + place, into);
    }

    fn commit<E: Eeprom>(&mut self, cells: &mut E, effect: &Effect<'_>) -> Result<Receipt, Cut> {
        let (change_at, change) = change_of(effect, &self.kept);
        let size = files_size(&self.kept.lengths);
        let mut fixed = [0; FIXED];
        advance(&mut self.kept, effect, &mut fixed);
        let next = NewRecord {
            fixed: &fixed,
            size,
            change_at,
            change,
        };
        turn(cells, self.slot, &next)?;
        self.slot = self.slot.other();
        Ok(Receipt::of(self.kept.number, matches!(effect, Effect::Spend)))
    }

    fn law_complete() {}

    fn law_fits() {}
}
