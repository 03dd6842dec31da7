// The sum of the bytes at a place.
ghost use Rattle.std.specs.Prelude.{◌≡◌, ◌<◌, IfOk, IfSome, string_bytes};
ghost use Rattle.base_devices.specs.Cause.{HasCause};
ghost use Rattle.cmd_verify.specs.Lies.{LiesSo, ShowsDeviation};
ghost use Rattle.cmd_verify.specs.What.{Short, Digest, line_of};
ghost use Rattle.base_devices.specs.States.{OnlyReads};

use crate::findings::finding::{FindingKind, Mark};
use base_devices::{DeviceError, Disk};
use base_text::{NoMemory, Sum};
use sha1::Sha1;
use std::alloc::Global;

/// What lies at a place.
#[derive(Clone, Copy, Debug, PartialEq, Eq)]
pub(crate) enum Lies {
    /// Nothing is at the name.
    Nothing,
    /// This many bytes, fewer than should.
    Few(u64),
    /// As many as should, with this sum.
    All(Sum),
}

// The room for a piece.
const PIECE_SIZE: usize = 64 << 10;

/// What lies at a name from a place on, of this many bytes. They are read once, in pieces. The bytes after them aren't
/// read, since many files may lie there.
pub(crate) fn sum_at<D: Disk>(
    d: &mut D,
    name: &str,
    at: u64,
    size: u64,
) -> Result<Lies, DeviceError>
    requires { 0 < size }
    ensures lies { IfOk result (λ r. IfSome (D.state d.old).view.now (λ f. LiesSo (f name.now) at size r)) }
    ensures looks { OnlyReads (D.state d.old) (D.state d.new) }
    ensures cause { HasCause (D.state d.old).faults (D.state d.new).faults result }
{
    let mut digest = Sha1::new();
    let mut count = 0u64;
    let mut piece = [0u8; PIECE_SIZE];
    while count < size {
        let Some(from) = at.checked_add(count) else {
            return Err(DeviceError::NoMemory);
        };
        let wanted = (size - count).min(PIECE_SIZE as u64) as usize;
        let room = &mut piece[..wanted];
        match d.read(name, from, room)? {
            None => return Ok(Lies::Nothing),
            Some(0) => return Ok(Lies::Few(count)),
            Some(read) => {
                digest.update(&room[..read]);
                count += read as u64;
            }
        }
    }
    Ok(Lies::All(Sum(digest.finalize())))
}

fn short_line(alloc: Global, known: u64, found: u64) -> Result<String, NoMemory>
    ensures { IfOk result (λ line. string_bytes line ≡ line_of (Short known found)) }
{
    Ok(format!(in alloc; "short, {found} of {known} bytes")?)
}

fn digest_line(alloc: Global, known: &Sum, found: &Sum) -> Result<String, NoMemory>
    ensures { IfOk result (λ line. string_bytes line ≡ line_of (Digest known.now.0 found.now.0)) }
{
    let known = known.hex(alloc)?;
    let found = found.hex(alloc)?;
    Ok(format!(in alloc; "checksum {known}, found {found}")?)
}

/// How what lies there deviates from this many bytes with this sum.
pub(crate) fn deviation(
    alloc: Global,
    lies: Lies,
    size: u64,
    sum: &Sum,
) -> Result<Option<Mark>, NoMemory>
    ensures { IfOk result (ShowsDeviation lies size sum.now.0) }
{
    match lies {
        Lies::Nothing => Ok(Some(Mark {
            kind: FindingKind::Absent,
            line: String::from_str(alloc, "absent")?,
        })),
        Lies::Few(found) => Ok(Some(Mark {
            kind: FindingKind::Short,
            line: short_line(alloc, size, found)?,
        })),
        Lies::All(found) => {
            if found == *sum {
                return Ok(None);
            }
            Ok(Some(Mark {
                kind: FindingKind::Digest,
                line: digest_line(alloc, sum, &found)?,
            }))
        }
    }
}
