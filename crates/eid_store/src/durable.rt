ghost use Rattle.std.specs.Prelude.{◌≡◌, ℕ, ◌+◌, ◌<◌, ◌≤◌, ◌↔◌, List, Option, Some, None, IsTrue, IsSome, IsSomeAnd, IfOk, OnOk, OnErr, length};
ghost use Rattle.std.specs.Option.{option_map, option_and_then};
ghost use Rattle.eid_cells.specs.Device.{Device};
ghost use Rattle.eid_record.specs.Plain.{PlainRecord, PlainEffect, FullRecord};
ghost use Rattle.eid_record.specs.Effect.{CanApply, HasRange, committed};
ghost use Rattle.eid_record.specs.EffectView.{effect_view};
ghost use Rattle.eid_record.specs.Files.{file_range};
ghost use Rattle.eid_record.specs.View.{record_view};

use crate::receipt::Receipt;
use eid_cells::{Cut, Eeprom};
use eid_record::{Effect, FileNo, Record};

/// Why a store was not mounted.
#[derive(Clone, Copy)]
pub enum MountError {
    /// The power was cut while the cells were repaired.
    Cut,
    /// The cells stand for no record.
    BadImage,
}

/// A way to keep the chip's record in cells so that no power cut leaves a commit half done.
pub trait Durable: Sized {
    ghost use Rattle.eid_store.specs.Complete.{IsComplete};
    ghost use Rattle.eid_store.specs.Cost.{Costs};
    ghost use Rattle.eid_store.specs.Durable.{IsAllOrNothing, Mounts, is_spend};
    ghost use Rattle.eid_store.specs.Layouts.{layout_of};
    ghost use Rattle.eid_store.specs.Receipt.{receipt_number, receipt_spends};

    /// The full record that cells stand for; none where they are of another layout.
    ghost stands: { List ℕ → Option FullRecord };

    /// The fields that the store keeps.
    ghost fields: { Self → PlainRecord };

    /// There is power, the cells stand for a full record of the store's fields, and stand at rest where the store has it.
    ghost fits: { Self → Device → List ℕ → Type 0 };

    /// How many writes mounting these cells takes.
    ghost mount_cost: { List ℕ → ℕ };

    /// How many writes a commit of the effect to these cells takes.
    ghost commit_cost: { Self → List ℕ → PlainEffect → ℕ };

    /// Mounts the record that the cells stand for, in at most 40 writes; a cut leaves them standing for it. `BadImage`
    /// comes exactly where they stand for none.
    fn mount<E: Eeprom>(cells: &mut E) -> Result<Self, MountError>
        requires power { IsTrue (E.device cells.old).has_power }
        ensures fits { IfOk result (λ store. fits store (E.device cells.new) (E.cells cells.new)) }
        ensures bad_image { (result ≡ Err MountError.BadImage)
            ↔ (stands (E.cells cells.old) ≡ None) }
        ensures untouched { result ≡ Err MountError.BadImage
            → E.cells cells.new ≡ E.cells cells.old }
        ensures same { stands (E.cells cells.new) ≡ stands (E.cells cells.old) }
        ensures layout { layout_of (E.cells cells.new) ≡ layout_of (E.cells cells.old) }
        ensures cost { Mounts (mount_cost (E.cells cells.old))
            (E.device cells.old) (E.device cells.new) result }
        ensures most { IsSome (stands (E.cells cells.old)) → mount_cost (E.cells cells.old) ≤ 40 };

    /// The record's fields, which are those that the cells stand for.
    fn kept(&self) -> &Record
        ensures { record_view result.now ≡ fields self.now };

    /// Reads bytes of a file into the whole of `into`, from an offset on.
    fn read_file<E: Eeprom>(&self, cells: &E, file: FileNo, offset: u16, into: &mut [u8])
        requires fits { fits self.now (E.device cells.now) (E.cells cells.now) }
        requires range { HasRange (fields self.now).lengths file.0 offset (length into.old) }
        ensures { option_and_then (file_range file.0 offset (length into.old))
            (stands (E.cells cells.now)) ≡ Some into.new };

    /// Commits the effect and raises the commit number by one, in 5 to 384 writes. At `Ok` the cells stand for the
    /// record after it. After `Cut` they stand for the record before it or after it, and the store is mounted anew.
    fn commit<E: Eeprom>(&mut self, cells: &mut E, effect: &Effect<'_>) -> Result<Receipt, Cut>
        requires fits { fits self.old (E.device cells.old) (E.cells cells.old) }
        requires effect { CanApply (effect_view effect.now) (fields self.old) }
        requires number { (fields self.old).number < 4294967295 }
        ensures committed { OnOk result (stands (E.cells cells.new)
            ≡ option_map (committed (effect_view effect.now)) (stands (E.cells cells.old))) }
        ensures fits { OnOk result (fits self.new (E.device cells.new) (E.cells cells.new)) }
        ensures receipt { IfOk result (λ receipt. (receipt_number receipt ≡ (fields self.old).number + 1)
            × (receipt_spends receipt ≡ is_spend (effect_view effect.now))) }
        ensures cut { OnErr result (IsAllOrNothing (effect_view effect.now)
            (stands (E.cells cells.old)) (stands (E.cells cells.new))) }
        ensures layout { layout_of (E.cells cells.new) ≡ layout_of (E.cells cells.old) }
        ensures cost { Costs (commit_cost self.old (E.cells cells.old) (effect_view effect.now))
            (E.device cells.old) (E.device cells.new) result }
        ensures least { 5 ≤ commit_cost self.old (E.cells cells.old) (effect_view effect.now) }
        ensures most { commit_cost self.old (E.cells cells.old) (effect_view effect.now) ≤ 384 };

    /// Cells that stand for a record stand for a complete one.
    fn law_complete()
        ensures { (cells : List ℕ) (full : FullRecord) → length cells ≡ 65536
            → stands cells ≡ Some full → IsComplete full };

    /// A store that fits has power, and cells that stand for a record of its fields. It fits the same cells on every
    /// device with power, whatever cut is planned there.
    fn law_fits()
        ensures stands { (store : Self) (device : Device) (cells : List ℕ) → fits store device cells
            → IsTrue device.has_power × IsSomeAnd (stands cells) (λ full. full.fields ≡ fields store) }
        ensures device { (store : Self) (old new : Device) (cells : List ℕ) → fits store old cells
            → IsTrue new.has_power → fits store new cells };
}
