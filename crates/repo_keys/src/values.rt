// Single values: numbers and versions.
ghost use Rattle.std.specs.Prelude.{◌≡◌, ◌≢◌, ◌<◌, ◌≤◌, ◌^◌, ◌↔◌, ℕ, IfOk, IfSome, IfNone, IsTrue};
ghost use Rattle.serde_json.specs.View.{view};
ghost use Rattle.base_model.specs.Json.{IsValue};
ghost use Rattle.base_model.specs.Fields.{whole};
ghost use Rattle.base_model.specs.InfoFiles.{version_value};

use base_text::{NoMemory, read_decimal};
use serde_json::Value;
use std::alloc::Global;

/// The whole number that this value is.
pub fn whole_of(value: &Value) -> Option<u64>
    ensures some { IfSome result (λ n. view value.now ≡ whole n) }
    ensures none { IfNone result ((n : ℕ) → view value.now ≢ whole n) }
{
    value.as_u64()
}

/// The number of 32 bits that this value is.
pub fn small_of(value: &Value) -> Option<u32>
    ensures some { IfSome result (λ n. view value.now ≡ whole n) }
    ensures none { IfNone result ((n : ℕ) → n < 2 ^ 32 → view value.now ≢ whole n) }
{
    let n = whole_of(value)?;
    u32::try_from(n).ok()
}

/// The number, where a history can have it: from 1 on, and of 32 bits.
pub fn history_number(n: u64) -> Option<u32>
    ensures some { IfSome result (λ m. (1 ≤ m) × (m ≡ n)) }
    ensures none { IfNone result (1 ≤ n → n < 2 ^ 32 → ⊥) }
{
    if n == 0 {
        return None;
    }
    u32::try_from(n).ok()
}

/// The history number that this value is.
pub fn number_of(value: &Value) -> Option<u32>
    ensures some { IfSome result (λ n. (1 ≤ n) × (view value.now ≡ whole n)) }
    ensures none { IfNone result ((n : ℕ) → n < 2 ^ 32 → 1 ≤ n → view value.now ≢ whole n) }
{
    match whole_of(value) {
        Some(n) => history_number(n),
        None => None,
    }
}

/// The version whose digits this value is.
pub fn version_of(value: &Value) -> Option<u32>
    ensures some { IfSome result (λ n. view value.now ≡ version_value n) }
    ensures none { IfNone result ((n : ℕ) → n < 2 ^ 32 → view value.now ≢ version_value n) }
{
    let text = value.as_str()?;
    let n = read_decimal(text.as_bytes())?;
    u32::try_from(n).ok()
}

/// Whether two values are the same: each is what its own text reads as.
pub fn are_same(alloc: Global, a: &Value, b: &Value) -> Result<bool, NoMemory>
    requires first { IsValue (view a.now) }
    requires second { IsValue (view b.now) }
    ensures { IfOk result (λ same. IsTrue same ↔ (view a.now ≡ view b.now)) }
{
    let first = a.to_string(alloc)?;
    let second = b.to_string(alloc)?;
    Ok(first.as_str() == second.as_str())
}
