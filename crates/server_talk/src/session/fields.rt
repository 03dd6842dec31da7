// Texts in a body, and the fields of an error.
ghost use Rattle.std.specs.Prelude.{◌≡◌, ◌==◌, true, position, IfOk, string_bytes};
ghost use Rattle.server_talk.specs.Fields.{until_zero, is_one_text, from_field, or_empty, field};

use base_text::text_of;
use std::alloc::{AllocError, Global};

fn find_zero(bytes: &[u8]) -> Option<usize>
    ensures { result ≡ position (λ b. b == 0) bytes.now }
{
    bytes.iter().position(|byte| *byte == 0)
}

// The bytes up to the first 0.
fn until_zero(bytes: &[u8]) -> &[u8]
    ensures { result.now ≡ until_zero bytes.now }
{
    match find_zero(bytes) {
        Some(end) => &bytes[..end],
        None => bytes,
    }
}

/// Whether this is one text with a 0 at its end.
pub(crate) fn is_one_text(bytes: &[u8]) -> bool
    ensures { result ≡ is_one_text bytes.now }
{
    until_zero(bytes).len() + 1 == bytes.len()
}

// The bytes after the first field of this kind's own byte.
fn from_field(kind: u8, body: &[u8]) -> &[u8]
    ensures { result.now ≡ from_field kind true body.now }
{
    let mut starts = true;
    let mut rest = body;
    while let [byte, after @ ..] = rest {
        if starts && *byte == kind {
            return after;
        }
        if starts && *byte == 0 {
            return &[];
        }
        starts = *byte == 0;
        rest = after;
    }
    rest
}

/// The text of the first field of this kind: empty where there is none, or one that isn't UTF-8.
pub(crate) fn field(alloc: Global, kind: u8, body: &[u8]) -> Result<String, AllocError>
    ensures { IfOk result (λ text. string_bytes text ≡ field kind body.now) }
{
    match text_of(until_zero(from_field(kind, body))) {
        Some(text) => Ok(String::from_str(alloc, text)?),
        None => Ok(String::new(alloc)),
    }
}
