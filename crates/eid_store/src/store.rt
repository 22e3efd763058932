ghost use Rattle.std.specs.Prelude.{◌≡◌, ◌+◌, ◌<◌, ◌≤◌, ◌↔◌, None, Some, IsTrue, IsSome, IfOk, OnOk, OnErr, length};
ghost use Rattle.std.specs.Option.{option_map, option_and_then};
ghost use Rattle.eid_record.specs.Effect.{CanApply, HasRange, committed};
ghost use Rattle.eid_record.specs.EffectView.{effect_view};
ghost use Rattle.eid_record.specs.Files.{file_range};
ghost use Rattle.eid_record.specs.View.{record_view};

use crate::durable::{Durable, MountError};
use crate::receipt::Receipt;
use crate::two_slot::TwoSlot;
use eid_cells::{Cut, Eeprom};
use eid_record::{Effect, FileNo, Record};

/// The chip's record in its cells, in the layout that cell 0 chooses.
#[derive(Drop)]
pub enum Store {
    /// Layout 1.
    Slots(TwoSlot),
}

#[tactic(auto, unfolding(crate::specs::Stands::stands, crate::specs::Store::fields_of, crate::specs::Store::Fits, crate::specs::Store::mount_cost, crate::specs::Store::commit_cost))]
impl Store {
    ghost use Rattle.eid_store.specs.Cost.{Costs};
    ghost use Rattle.eid_store.specs.Durable.{IsAllOrNothing, Mounts, is_spend};
    ghost use Rattle.eid_store.specs.Layouts.{layout_of};
    ghost use Rattle.eid_store.specs.Receipt.{receipt_number, receipt_spends};
    ghost use Rattle.eid_store.specs.Stands.{stands};
    ghost use Rattle.eid_store.specs.Store.{fields_of, Fits, mount_cost, commit_cost};

    /// Mounts the record that the cells stand for, in at most 40 writes; a cut leaves them standing for it. `BadImage`
    /// comes exactly where they stand for none.
    pub fn mount<E: Eeprom>(cells: &mut E) -> Result<Store, MountError>
        requires power { IsTrue (E.device cells.old).has_power }
        ensures fits { IfOk result (λ store. Fits store (E.device cells.new) (E.cells cells.new)) }
        ensures bad_image { (result ≡ Err MountError.BadImage)
            ↔ (stands (E.cells cells.old) ≡ None) }
        ensures untouched { result ≡ Err MountError.BadImage
            → E.cells cells.new ≡ E.cells cells.old }
        ensures same { stands (E.cells cells.new) ≡ stands (E.cells cells.old) }
        ensures layout { layout_of (E.cells cells.new) ≡ layout_of (E.cells cells.old) }
        ensures cost { Mounts (mount_cost (E.cells cells.old))
            (E.device cells.old) (E.device cells.new) result }
        ensures most { IsSome (stands (E.cells cells.old)) → mount_cost (E.cells cells.old) ≤ 40 }
    {
        match TwoSlot::mount(cells) {
            Ok(slots) => Ok(Store::Slots(slots)),
            Err(error) => Err(error),
        }
    }

    /// The record's fields, which are those that the cells stand for.
    pub fn kept(&self) -> &Record
        ensures { record_view result.now ≡ fields_of self.now }
    {
        match self {
            Store::Slots(slots) => slots.kept(),
        }
    }

    /// Reads bytes of a file into the whole of `into`, from an offset on.
    pub fn read_file<E: Eeprom>(&self, cells: &E, file: FileNo, offset: u16, into: &mut [u8])
        requires fits { Fits self.now (E.device cells.now) (E.cells cells.now) }
        requires range { HasRange (fields_of self.now).lengths file.0 offset (length into.old) }
        ensures { option_and_then (file_range file.0 offset (length into.old))
            (stands (E.cells cells.now)) ≡ Some into.new }
    {
        match self {
            Store::Slots(slots) => slots.read_file(cells, file, offset, into),
        }
    }

    /// Commits the effect and raises the commit number by one, in 5 to 384 writes. At `Ok` the cells stand for the
    /// record after it. After `Cut` they stand for the record before it or after it, and the store is mounted anew.
    pub fn commit<E: Eeprom>(&mut self, cells: &mut E, effect: &Effect<'_>) -> Result<Receipt, Cut>
        requires fits { Fits self.old (E.device cells.old) (E.cells cells.old) }
        requires effect { CanApply (effect_view effect.now) (fields_of self.old) }
        requires number { (fields_of self.old).number < 4294967295 }
        ensures committed { OnOk result (stands (E.cells cells.new)
            ≡ option_map (committed (effect_view effect.now)) (stands (E.cells cells.old))) }
        ensures fits { OnOk result (Fits self.new (E.device cells.new) (E.cells cells.new)) }
        ensures receipt { IfOk result (λ receipt. (receipt_number receipt ≡ (fields_of self.old).number + 1)
            × (receipt_spends receipt ≡ is_spend (effect_view effect.now))) }
        ensures cut { OnErr result (IsAllOrNothing (effect_view effect.now)
            (stands (E.cells cells.old)) (stands (E.cells cells.new))) }
        ensures layout { layout_of (E.cells cells.new) ≡ layout_of (E.cells cells.old) }
        ensures cost { Costs (commit_cost self.old (E.cells cells.old) (effect_view effect.now))
            (E.device cells.old) (E.device cells.new) result }
        ensures least { 5 ≤ commit_cost self.old (E.cells cells.old) (effect_view effect.now) }
        ensures most { commit_cost self.old (E.cells cells.old) (effect_view effect.now) ≤ 384 }
    {
        match self {
            Store::Slots(slots) => slots.commit(cells, effect),
        }
    }
}
