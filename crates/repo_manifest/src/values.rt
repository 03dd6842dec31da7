// Single values of a manifest.
ghost use Rattle.std.specs.Prelude.{◌≡◌, ◌≢◌, ℕ, List, IfSome, IfNone};
ghost use Rattle.serde_json.specs.Data.{string};
ghost use Rattle.serde_json.specs.View.{view};
ghost use Rattle.base_text.specs.Sum.{IsSum, sum_text};

use base_text::Sum;
use serde_json::Value;

/// The sum that this value is.
pub(crate) fn sum_of(value: &Value) -> Option<Sum>
    ensures some { IfSome result (λ s. (view value.now ≡ string (sum_text s.0)) × IsSum s.0) }
    ensures none { IfNone result ((s : List ℕ) → IsSum s → view value.now ≢ string (sum_text s)) }
{
    let text = value.as_str()?;
    Sum::read(text.as_bytes())
}
