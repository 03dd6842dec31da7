// The text of a position in the log (PostgreSQL manual, "pg_lsn Type").
ghost use Rattle.std.specs.Prelude.{◌≡◌, IfOk, string_bytes};
ghost use Rattle.base_model.specs.ManifestText.{lsn_text};

use base_model::Lsn;
use std::alloc::{AllocError, Global};

const HALF: u64 = 4_294_967_296;

/// The text of a position, as `1/6000028`.
pub(crate) fn lsn_text(alloc: Global, at: Lsn) -> Result<String, AllocError>
    ensures { IfOk result (λ text. string_bytes text ≡ lsn_text at.0) }
{
    let high = at.0 / HALF;
    let low = at.0 % HALF;
    format!(in alloc; "{high:X}/{low:X}")
}
