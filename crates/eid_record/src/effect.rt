ghost use Rattle.std.specs.Prelude.{◌≡◌};
ghost use Rattle.eid_record.specs.Effect.{CanApply, applied};
ghost use Rattle.eid_record.specs.EffectView.{effect_view};
ghost use Rattle.eid_record.specs.Valid.{IsValid};
ghost use Rattle.eid_record.specs.View.{record_view};

use crate::fields::{FileNo, Record, TrustPoint};
use eid_bits::Date6;

/// What a commit changes.
#[derive(Drop)]
pub enum Effect<'a> {
    /// Takes one try of the PIN; one must be left.
    Spend,
    /// Sets 3 tries.
    Refill,
    /// Sets 3 tries, and by the PUK takes one unblocking, of which one must then be left.
    Unblock {
        /// Whether the PUK did it, and no terminal with the right to.
        by_puk: bool,
    },
    /// Sets the PIN, six ASCII digits.
    SetPin([u8; 6]),
    /// Sets the card access number, six ASCII digits.
    SetCan([u8; 6]),
    /// Says whether the PIN may be used.
    Active(bool),
    /// Sets the date and the trust points, each with a name of at least one byte and a key that begins with 04.
    Advance {
        /// The chip's new date.
        date: Date6,
        /// The new current trust point.
        current: TrustPoint,
        /// The new previous one; `None` leaves none.
        previous: Option<TrustPoint>,
    },
    /// Writes these bytes of a file that is there, from this offset on and not past its end.
    Write {
        /// The file, by its number.
        file: FileNo,
        /// The place of the first byte that is written, counted from the file's first byte.
        offset: u16,
        /// What is written there.
        bytes: &'a [u8],
    },
}

/// Changes the fields as the effect says, and no other. `Write` changes none, since a record has no file bytes.
pub fn apply(kept: &mut Record, effect: &Effect<'_>)
    requires { CanApply (effect_view effect.now) (record_view kept.old) }
    ensures fields { record_view kept.new ≡ applied (effect_view effect.now) (record_view kept.old) }
    ensures valid { IsValid (record_view kept.old) → IsValid (record_view kept.new) }
{
    match effect {
        Effect::Spend => kept.tries -= 1,
        Effect::Refill => kept.tries = 3,
        Effect::Unblock { by_puk } => {
            kept.tries = 3;
            if *by_puk {
                kept.unblocks -= 1;
            }
        }
        Effect::SetPin(pin) => kept.pin = *pin,
        Effect::SetCan(can) => kept.can = *can,
        Effect::Active(active) => kept.active = *active,
        Effect::Advance {
            date,
            current,
            previous,
        } => {
            kept.date = *date;
            kept.current = current.copied();
            kept.previous = previous.as_ref().map(TrustPoint::copied);
        }
        Effect::Write { .. } => {}
    }
}
