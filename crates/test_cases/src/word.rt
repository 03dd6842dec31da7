// The words of a line.
ghost use Rattle.std.specs.Prelude.{◌<◌};

use std::alloc::{AllocError, Global};

/// A bare word, or the bytes that are between quotes.
#[derive(Drop)]
pub(crate) struct Word {
    pub quoted: bool,
    pub bytes: Vec<u8>,
}

impl Word {
    /// The text of a bare word.
    pub(crate) fn bare(&self) -> &str {
        if self.quoted {
            return "";
        }
        str::from_utf8(&self.bytes).unwrap_or("")
    }

    /// The number that a bare word states, or 0.
    pub(crate) fn number(&self) -> u64 {
        self.bare().parse::<u64>().unwrap_or(0)
    }
}

/// The words of a text: blanks part bare words, and what is between two quotes is one word.
pub(crate) fn program_arguments(alloc: Global, text: &str) -> Result<Vec<Word>, AllocError> {
    let mut words = Vec::new(alloc);
    let mut quoted = false;
    for part in text.split('"') {
        if quoted {
            let bytes = unescaped(alloc, part)?;
            words.push(Word { quoted, bytes })?;
        } else {
            push_bare(alloc, &mut words, part)?;
        }
        quoted = !quoted;
    }
    Ok(words)
}

fn push_bare(alloc: Global, words: &mut Vec<Word>, text: &str) -> Result<(), AllocError> {
    for word in text.split(' ') {
        if !word.is_empty() {
            words.push(Word {
                quoted: false,
                bytes: word.as_bytes().to_vec(alloc)?,
            })?;
        }
    }
    Ok(())
}

// The bytes that a quoted text represents.
fn unescaped(alloc: Global, text: &str) -> Result<Vec<u8>, AllocError> {
    let mut bytes = Vec::new(alloc);
    let mut first = true;
    for part in text.split('\\') {
        let mut rest = part.as_bytes();
        if !first {
            let (byte, after) = escape(rest);
            bytes.push(byte)?;
            rest = after;
        }
        bytes.extend_from_slice(rest)?;
        first = false;
    }
    Ok(bytes)
}

// The byte that is written after a backslash, and what follows it.
fn escape(part: &[u8]) -> (u8, &[u8]) {
    match part {
        [b'n', rest @ ..] => (b'\n', rest),
        [b'r', rest @ ..] => (b'\r', rest),
        [b't', rest @ ..] => (b'\t', rest),
        [b'0', rest @ ..] => (0, rest),
        [b'x', high, low, rest @ ..] => (digit(*high) * 16 + digit(*low), rest),
        other => (b'\\', other),
    }
}

fn digit(byte: u8) -> u8
    ensures { result < 16 }
{
    match byte {
        b'0'..=b'9' => byte - b'0',
        b'a'..=b'f' => byte - b'a' + 10,
        _ => 0,
    }
}
