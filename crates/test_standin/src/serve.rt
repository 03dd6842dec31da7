// The talk with one client.
ghost use Rattle.std.specs.Prelude.{◌≡◌, ◌≤◌, ◌++◌, ◌∷◌, [], ◌+◌, length, IfOk};
ghost use Rattle.std.specs.Io.KnownBytes.{Consumes};

use crate::answers::{answer, greeting};
use std::alloc::Global;
use std::io;
use std::io::{ErrorKind, Read, Write};

// A client sends no more at once.
const MOST: u32 = 10_000;

/// Answers a client's messages until it ends the talk. It fails where they aren't as the protocol has them.
pub fn serve<S: Read + Write>(alloc: Global, stream: &mut S) -> io::Result<()> {
    let _names = sized(alloc, stream)?;
    stream.write_all(&greeting(alloc)?)?;
    for _ in 0..u64::MAX {
        match kind(stream)? {
            b'Q' => {
                let text = sized(alloc, stream)?;
                stream.write_all(&answer(alloc, text_of(&text)?)?)?;
            }
            b'X' => return Ok(()),
            _ => return Err(invalid()),
        }
    }
    Err(invalid())
}

fn kind<S: Read>(stream: &mut S) -> io::Result<u8>
    ensures { IfOk result (λ kind. Consumes (S.remaining stream.old) (S.remaining stream.new) (kind ∷ [])) }
{
    let mut kind = [0u8; 1];
    stream.read_exact(&mut kind)?;
    Ok(kind[0])
}

// What comes after a length that counts itself.
fn sized<S: Read>(alloc: Global, stream: &mut S) -> io::Result<Vec<u8>>
    ensures { IfOk result (λ bytes. length bytes.items + 4 ≤ 10000) }
{
    let mut count = [0u8; 4];
    stream.read_exact(&mut count)?;
    let count = u32::from_be_bytes(count);
    if !(4..=MOST).contains(&count) {
        return Err(invalid());
    }
    let mut bytes = vec![in alloc; 0u8; (count - 4) as usize]?;
    stream.read_exact(&mut bytes)?;
    Ok(bytes)
}

// A text without the 0 at its end.
fn text_of(bytes: &[u8]) -> io::Result<&str>
    ensures { IfOk result (λ text. bytes.now ≡ text.now ++ 0 ∷ []) }
{
    match bytes {
        [text @ .., 0] => str::from_utf8(text).map_err(|_| invalid()),
        _ => Err(invalid()),
    }
}

fn invalid() -> io::Error {
    io::Error::from(ErrorKind::InvalidData)
}
