// Copies a stored file into the spool, piece by piece.
ghost use Rattle.std.specs.Prelude.{◌≡◌, IfOk, IfErr};
ghost use Rattle.base_devices.specs.Content.{SameBut};
ghost use Rattle.base_devices.specs.States.{OnlyReads, Works};
ghost use Rattle.cmd_archive_get_async.specs.Between.{CopyStops, CopiedAhead};

use crate::ahead::fault::of_spool;
use base_devices::Disk;
use base_disk::{add_stage, start_stage};
use base_text::Sum;
use cmd_archive_get::GetFault;
use cmd_types::{Halt, Object, halted};
use sha1::Sha1;
use std::alloc::Global;

// This many bytes of a stored file are read at once.
const PIECE_SIZE: usize = 1 << 16;

/// A segment has at most 1 GiB.
pub(crate) const SEGMENT_LIMIT: u64 = 1 << 30;

/// The result of a copy of a stored file.
#[derive(Drop)]
pub(crate) enum Copied {
    /// All its bytes were copied; this is the sum of what was copied.
    Whole(Sum),
    /// It is longer than a segment.
    Long,
    /// It isn't there.
    Vanished,
}

/// Copies a stored file to a name of the spool, and sums what it copies.
pub(crate) fn copy<D: Disk, S: Disk>(
    alloc: Global,
    repo: &mut D,
    spool: &mut S,
    from: &str,
    name: &str,
) -> Result<Copied, Halt<GetFault>>
    ensures copied { IfOk result (CopiedAhead D.state S.state from.now name.now repo.old spool.old spool.new) }
    ensures others { SameBut name.now (S.state spool.old).view.now (S.state spool.new).view.now }
    ensures works { Works (λ _ _. ⊥) (λ n. n ≡ name.now) (S.state spool.old) (S.state spool.new) }
    ensures looks { OnlyReads (D.state repo.old) (D.state repo.new) }
    ensures cause { IfErr result (CopyStops D.state S.state repo.old repo.new spool.old spool.new) }
{
    let mut staging = match start_stage(alloc, spool, name) {
        Ok(staging) => staging,
        Err(fault) => return Err(of_spool(fault)),
    };
    let mut room = [0u8; PIECE_SIZE];
    let mut digest = Sha1::new();
    while staging.length() <= SEGMENT_LIMIT {
        let count = match repo.read(from, staging.length(), &mut room) {
            Ok(Some(count)) => count,
            Ok(None) => return Ok(Copied::Vanished),
            Err(error) => return Err(halted(Object::Repo, error)),
        };
        if count == 0 {
            return Ok(Copied::Whole(Sum(digest.finalize())));
        }
        digest.update(&room[..count]);
        if let Err(fault) = add_stage(spool, &mut staging, &room[..count]) {
            return Err(of_spool(fault));
        }
    }
    Ok(Copied::Long)
}
