//! Numbers among the words.
ghost use Rattle.std.specs.Prelude.{◌≡◌, ◌<◌, ◌^◌, ℕ, decimal, IfOk, IfSome, IfNone};

use eid_base::NoMemory;
use std::alloc::Global;

/// The number that a text says in decimal, without sign or leading zero.
pub fn number(alloc: Global, text: &str) -> Result<Option<u64>, NoMemory>
    ensures found { IfOk result (λ r. IfSome r (λ n. (n < 2 ^ 64) × (text.now ≡ decimal n))) }
    ensures none { IfOk result (λ r. IfNone r ((n : ℕ) → n < 2 ^ 64 → text.now ≡ decimal n → ⊥)) }
{
    let Ok(value) = text.parse::<u64>() else {
        return Ok(None);
    };
    let spelled = value.to_string(alloc)?;
    if spelled.as_str() == text {
        Ok(Some(value))
    } else {
        Ok(None)
    }
}
