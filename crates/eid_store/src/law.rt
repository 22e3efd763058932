//! What holds of every store and of the cells that it fits, whatever their layout.

ghost use Rattle.std.specs.Prelude.{◌≡◌, ℕ, List, Some, IsTrue, IsSomeAnd, length};
ghost use Rattle.eid_cells.specs.Device.{Device};
ghost use Rattle.eid_record.specs.Plain.{FullRecord};
ghost use Rattle.eid_store.specs.declared.store.Store.{Store};
ghost use Rattle.eid_store.specs.Complete.{IsComplete};
ghost use Rattle.eid_store.specs.Stands.{stands};
ghost use Rattle.eid_store.specs.Store.{fields_of, Fits};

/// Cells that stand for a record stand for a complete one: its fields are valid, and its files have the lengths that
/// the fields say.
pub fn law_complete()
    ensures { (cells : List ℕ) (full : FullRecord) → length cells ≡ 65536
        → stands cells ≡ Some full → IsComplete full }
{}

/// A store that fits has power, and cells that stand for a record of its fields. It fits the same cells on every device
/// with power, whatever cut is planned there.
pub fn law_fits()
    ensures stands { (store : Store) (device : Device) (cells : List ℕ) → Fits store device cells
        → IsTrue device.has_power × IsSomeAnd (stands cells) (λ full. full.fields ≡ fields_of store) }
    ensures device { (store : Store) (old new : Device) (cells : List ℕ) → Fits store old cells
        → IsTrue new.has_power → Fits store new cells }
{}
