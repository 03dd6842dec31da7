// The sum of bytes that are read in pieces.
ghost use Rattle.std.specs.Prelude.{◌≤◌, ◌+◌, ◌<◌, ◌^◌, Some, IfOk, IfSome, length};
ghost use Rattle.base_devices.specs.Cause.{HasCause};
ghost use Rattle.repo_names.specs.Header.{BeginsWith};
ghost use Rattle.archive_store.specs.ByteSource.{ReadsPiece};
ghost use Rattle.archive_store.specs.Pushing.{ReadsToSum};

use crate::pieces::{ByteSource, Prefix};
use base_devices::DeviceError;
use base_text::Sum;
use sha1::Sha1;

/// The room for a piece.
pub(crate) const PIECE_SIZE: usize = 64 << 10;

/// Reads the piece after this many bytes. With it there are no more than a number can count.
pub(crate) fn next_piece<H, P: ByteSource<H>>(
    device: &mut H,
    pieces: &P,
    count: u64,
    room: &mut [u8],
) -> Result<usize, DeviceError>
    ensures bytes { IfOk result (λ n. ReadsPiece (P.bytes pieces.now device.old) count room.old room.new n) }
    ensures room { IfOk result (λ n. n ≤ length room.old) }
    ensures fits { IfOk result (λ n. count + n < 2 ^ 64) }
    ensures same { P.same device.old device.new }
    ensures cause { HasCause (P.faults device.old) (P.faults device.new) result }
{
    let size = pieces.read(device, count, room)?;
    match count.checked_add(size as u64) {
        Some(_) => Ok(size),
        None => Err(DeviceError::NoMemory),
    }
}

/// The sum of bytes whose first ones these are. Those of a known source are as many as was given. Where others
/// aren't, the answer is out of memory, since no refusal reports it.
pub fn sum_of<H, P: ByteSource<H>>(
    device: &mut H,
    pieces: &P,
    prefix: Prefix<'_>,
) -> Result<Sum, DeviceError>
    requires known { IfSome (P.bytes pieces.now device.old) (BeginsWith prefix.bytes.now prefix.length) }
    requires within { length prefix.bytes.now ≤ prefix.length }
    ensures sum { IfOk result (λ sum. ReadsToSum (P.bytes pieces.now device.old) prefix.entry sum.0) }
    ensures same { P.same device.old device.new }
    ensures cause { HasCause (P.faults device.old) (P.faults device.new) result }
{
    let mut digest = Sha1::new();
    digest.update(prefix.bytes);
    let mut count = prefix.bytes.len() as u64;
    let mut piece = [0u8; PIECE_SIZE];
    while count <= prefix.length {
        let size = next_piece(device, pieces, count, &mut piece)?;
        if size == 0 {
            return if count == prefix.length {
                Ok(Sum(digest.finalize()))
            } else {
                Err(DeviceError::NoMemory)
            };
        }
        digest.update(&piece[..size]);
        count += size as u64;
    }
    Err(DeviceError::NoMemory)
}
