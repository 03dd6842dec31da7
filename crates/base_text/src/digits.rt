//! Numbers in decimal digits, each in its one spelling.

ghost use Rattle.std.specs.Prelude.{◌≡◌, ◌≢◌, ◌<◌, ◌^◌, ◌↔◌, ℕ, IfOk, IfSome, IfNone, IsTrue, string_bytes};
ghost use Rattle.std.specs.Fmt.{decimal};
ghost use Rattle.base_text.specs.Decimal.{is_plain};

use crate::memory::NoMemory;
use std::alloc::Global;

/// The digits of a number, as `7` or `120`.
pub fn decimal(alloc: Global, n: u64) -> Result<String, NoMemory>
    ensures { IfOk result (λ text. string_bytes text ≡ decimal n) }
{
    Ok(n.to_string(alloc)?)
}

// Whether no plus is first, and no zero before another digit: `parse` takes both.
fn is_plain(bytes: &[u8]) -> bool
    ensures { result ≡ is_plain bytes.now }
{
    match bytes {
        [] => false,
        [b'+', ..] => false,
        [b'0', rest @ ..] => rest.is_empty(),
        [_, ..] => true,
    }
}

/// The number of which these are the digits; none where they are no number's, or one's of more than 64 bits.
pub fn read_decimal(text: &[u8]) -> Option<u64>
    ensures value { IfSome result (λ n. text.now ≡ decimal n) }
    ensures none { IfNone result ((n : ℕ) → n < 2 ^ 64 → text.now ≢ decimal n) }
{
    if !is_plain(text) {
        return None;
    }
    let Ok(text) = str::from_utf8(text) else {
        return None;
    };
    text.parse::<u64>().ok()
}
