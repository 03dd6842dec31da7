// Looks for the segments.
ghost use Rattle.std.specs.Prelude.{◌≡◌, ◌+◌, ◌*◌, ◌^◌, ◌<◌, ◌≤◌, IfOk, IfErr};
ghost use Rattle.base_devices.specs.States.{OnlyReads};
ghost use Rattle.base_model.specs.ManifestText.{IsSegSize, IsWalPart, position, segments_per_log};
ghost use Rattle.repo_names.specs.Next.{IsOfLog, IsNext};
ghost use Rattle.archive_wait.specs.Stored.{LastsIfFound, LacksUnlessFound, LastsIfWhole, MissesFirst};
ghost use Rattle.archive_wait.specs.Causes.{LookEnds, IsFaultOfLook, PartEnds};

use crate::fault::AwaitFault;
use archive_lookup::ArchiveFault;
use archive_store::present;
use base_devices::Disk;
use base_model::{ArchiveId, ArchiveName, WalPart};
use repo_names::{SegSize, Segment, next, segments_per_log};
use std::alloc::Global;

// The fault that a fault of the archive becomes. No other comes from looking for a segment.
fn look_fault(fault: ArchiveFault) -> AwaitFault
    ensures { IsFaultOfLook fault result }
{
    match fault {
        ArchiveFault::Ambiguous { first, second } => AwaitFault::Ambiguous { first, second },
        ArchiveFault::Disk => AwaitFault::Repo,
        _ => AwaitFault::NoMemory,
    }
}

// Whether a segment is stored; its folder is synced before.
fn is_stored<D: Disk>(
    alloc: Global,
    repo: &mut D,
    stanza: &str,
    id: ArchiveId,
    segment: Segment,
) -> Result<bool, AwaitFault>
    ensures there { IfOk result (LastsIfFound stanza.now id segment (D.state repo.old) (D.state repo.new)) }
    ensures missing { IfOk result
        (LacksUnlessFound stanza.now id segment (D.state repo.new)) }
    ensures looks { OnlyReads (D.state repo.old) (D.state repo.new) }
    ensures cause { IfErr result (LookEnds stanza.now id segment (D.state repo.old) (D.state repo.new)) }
{
    match present(alloc, repo, stanza, &id, &ArchiveName::Segment(segment)) {
        Ok(None) => Ok(false),
        Ok(Some(_)) => Ok(true),
        Err(fault) => Err(look_fault(fault)),
    }
}

// The segment that follows one that isn't the last of all.
fn following(segment: &Segment, size: SegSize) -> Segment
    requires sized { IsSegSize size.0 }
    requires of_log { IsOfLog size.0 segment.now }
    requires before { position size.0 segment.now + 1 < 2 ^ 32 * segments_per_log size.0 }
    ensures { IsNext size.0 segment.now result }
{
    match next(segment, size) {
        Some(following) => following,
        None => *segment,
    }
}

// How many segments follow the first one of a part.
fn following_first(wal: &WalPart) -> u64
    requires { IsWalPart wal.now }
    ensures { position wal.now.size.0 wal.now.span.stop ≡ position wal.now.size.0 wal.now.span.start + result }
{
    let per_log = u64::from(segments_per_log(wal.size));
    let first = u64::from(wal.span.start.log) * per_log + u64::from(wal.span.start.seg);
    let last = u64::from(wal.span.stop.log) * per_log + u64::from(wal.span.stop.seg);
    last - first
}

// The first segment of the part that isn't stored, where one is; each folder is synced before it is looked at.
fn look_once<D: Disk>(
    alloc: Global,
    repo: &mut D,
    stanza: &str,
    id: &ArchiveId,
    wal: &WalPart,
) -> Result<Option<Segment>, AwaitFault>
    requires { IsWalPart wal.now }
    ensures there { IfOk result (LastsIfWhole stanza.now id.now wal.now (D.state repo.old) (D.state repo.new)) }
    ensures missing { IfOk result (MissesFirst stanza.now id.now wal.now (D.state repo.new)) }
    ensures looks { OnlyReads (D.state repo.old) (D.state repo.new) }
    ensures cause { IfErr result (PartEnds stanza.now id.now wal.now (D.state repo.old) (D.state repo.new)) }
{
    let mut segment = wal.span.start;
    for _ in 0..following_first(wal) {
        if !is_stored(alloc, repo, stanza, *id, segment)? {
            return Ok(Some(segment));
        }
        segment = following(&segment, wal.size);
    }
    if is_stored(alloc, repo, stanza, *id, segment)? {
        Ok(None)
    } else {
        Ok(Some(segment))
    }
}

/// The first segment of the part that isn't stored, where one is. Others work meanwhile: a file may come between the
/// sync of its folder and the look, and not be synced itself. So where none is missing, all are looked for again.
pub(crate) fn first_missing<D: Disk>(
    alloc: Global,
    repo: &mut D,
    stanza: &str,
    id: &ArchiveId,
    wal: &WalPart,
) -> Result<Option<Segment>, AwaitFault>
    requires { IsWalPart wal.now }
    ensures there { IfOk result (LastsIfWhole stanza.now id.now wal.now (D.state repo.old) (D.state repo.new)) }
    ensures missing { IfOk result (MissesFirst stanza.now id.now wal.now (D.state repo.new)) }
    ensures looks { OnlyReads (D.state repo.old) (D.state repo.new) }
    ensures cause { IfErr result (PartEnds stanza.now id.now wal.now (D.state repo.old) (D.state repo.new)) }
{
    match look_once(alloc, repo, stanza, id, wal) {
        Ok(None) => look_once(alloc, repo, stanza, id, wal),
        Ok(Some(segment)) => Ok(Some(segment)),
        Err(fault) => Err(fault),
    }
}
