//! Where the bytes of files stand.

ghost use Rattle.std.specs.Prelude.{◌≡◌, ◌+◌, ◌≤◌, length, take};
ghost use Rattle.eid_record.specs.EffectView.{effect_view};
ghost use Rattle.eid_record.specs.Effect.{CanApply};
ghost use Rattle.eid_record.specs.Files.{total};
ghost use Rattle.eid_record.specs.Layout.{file_count};
ghost use Rattle.eid_record.specs.View.{record_view};
ghost use Rattle.eid_store.specs.Pages.{change_place, change_bytes};

use eid_record::{Effect, FILES, FileNo, Record, size_of};

/// How many bytes files of these lengths have together.
pub fn files_size(lengths: &[Option<u16>]) -> u32
    requires { total lengths.now ≤ 24000 }
    ensures { result ≡ total lengths.now }
{
    let mut sum = 0;
    for length in lengths {
        sum += size_of(*length);
    }
    sum
}

/// The place of a file's first byte, counted from the first byte of the first file.
pub fn place_of(lengths: &[Option<u16>; FILES], file: FileNo) -> u32
    requires known { file.0 ≤ file_count }
    requires fit { total lengths.now ≤ 24000 }
    ensures { result ≡ total (take file.0 lengths.now) }
{
    files_size(&lengths[..usize::from(file.0)])
}

/// The place and the bytes of what the effect changes in the files.
pub fn change_of<'a>(effect: &'a Effect<'_>, kept: &Record) -> (u32, &'a [u8])
    requires effect { CanApply (effect_view effect.now) (record_view kept.now) }
    requires count { length kept.now.lengths ≡ file_count }
    requires fit { total kept.now.lengths ≤ 24000 }
    ensures place { result.0 ≡ change_place (effect_view effect.now) kept.now.lengths }
    ensures bytes { result.1.now ≡ change_bytes (effect_view effect.now) }
{
    match effect {
        Effect::Write {
            file,
            offset,
            bytes,
        } => (place_of(&kept.lengths, *file) + u32::from(*offset), bytes),
        _ => (0, &[]),
    }
}
