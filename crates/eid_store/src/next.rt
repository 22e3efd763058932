//! The record that a commit writes.

ghost use Rattle.std.specs.Prelude.{◌≡◌, ◌<◌, Ok};
ghost use Rattle.eid_record.specs.Effect.{CanApply, committed_fields};
ghost use Rattle.eid_record.specs.EffectView.{effect_view};
ghost use Rattle.eid_record.specs.Reading.{record_in};
ghost use Rattle.eid_record.specs.Valid.{IsValid};
ghost use Rattle.eid_record.specs.View.{record_view};

use eid_record::{Effect, FIXED, Record, apply, write_record};

/// A record that a commit writes: its fixed bytes, and behind them the files' bytes as they stand in the cells, with
/// one change.
#[derive(Clone, Copy)]
pub struct NewRecord<'a> {
    /// Every field, at its place.
    pub fixed: &'a [u8; FIXED],
    /// How many bytes the files have together.
    pub size: u32,
    /// The place of the change, counted from the first byte of the first file.
    pub change_at: u32,
    /// The bytes that it puts there.
    pub change: &'a [u8],
}

/// Applies the effect, raises the commit number by one, and writes the fixed bytes.
pub fn advance(kept: &mut Record, effect: &Effect<'_>, fixed: &mut [u8; FIXED])
    requires valid { IsValid (record_view kept.old) }
    requires effect { CanApply (effect_view effect.now) (record_view kept.old) }
    requires number { kept.old.number < 4294967295 }
    ensures fields { record_view kept.new
        ≡ committed_fields (effect_view effect.now) (record_view kept.old) }
    ensures bytes { record_in fixed.new ≡ Ok (record_view kept.new) }
{
    apply(kept, effect);
    kept.number += 1;
    write_record(kept, fixed);
}
