// Reads the text of a refusal.
ghost use Rattle.std.specs.Prelude.{◌≡◌, ◌≢◌, ◌==◌, ◌<◌, ◌^◌, ◌++◌, ◌∷◌, ℕ, IfOk, IfSome, IfNone, decimal, position, string_bytes};
ghost use Rattle.archive_lookup.specs.Paths.{Lacks};
ghost use Rattle.archive_spool.specs.Asking.{IsRefusalText, IsNoRefusalText};

use base_text::{NoMemory, read_decimal, text_of};
use std::alloc::Global;

fn line_end(bytes: &[u8]) -> Option<usize>
    ensures { result ≡ position (λ b. b == 10) bytes.now }
{
    bytes.iter().position(|b| *b == b'\n')
}

// The first line, and what comes after it.
fn split_line(bytes: &[u8]) -> Option<(&[u8], &[u8])>
    ensures value { IfSome result (λ p. (bytes.now ≡ p.0.now ++ 10 ∷ p.1.now) × Lacks 10 p.0.now) }
    ensures none { IfNone result (Lacks 10 bytes.now) }
{
    let at = line_end(bytes)?;
    Some((&bytes[..at], &bytes[at + 1..]))
}

fn read_code(text: &[u8]) -> Option<u32>
    ensures value { IfSome result (λ n. text.now ≡ decimal n) }
    ensures none { IfNone result ((n : ℕ) → n < 2 ^ 32 → text.now ≢ decimal n) }
{
    u32::try_from(read_decimal(text)?).ok()
}

/// The status and the line of a refusal; none where the bytes are no refusal's.
pub(crate) fn read_refusal(alloc: Global, bytes: &[u8]) -> Result<Option<(u32, String)>, NoMemory>
    ensures some { IfOk result (λ r. IfSome r (λ x. IsRefusalText bytes.now x.0 (string_bytes x.1))) }
    ensures none { IfOk result (λ r. IfNone r (IsNoRefusalText bytes.now)) }
{
    let Some((prefix, rest)) = split_line(bytes) else {
        return Ok(None);
    };
    let Some(code) = read_code(prefix) else {
        return Ok(None);
    };
    let Some(text) = text_of(rest) else {
        return Ok(None);
    };
    let line = String::from_str(alloc, text)?;
    Ok(Some((code, line)))
}
