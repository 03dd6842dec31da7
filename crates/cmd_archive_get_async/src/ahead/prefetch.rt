// Fetches segments from the repository into the spool.
ghost use Rattle.std.specs.Prelude.{◌≡◌, [], IfOk, IfErr, OnOk, string_bytes};
ghost use Rattle.base_devices.specs.Content.{SameBut};
ghost use Rattle.base_devices.specs.States.{CallsProperly, OnlyReads, Works};
ghost use Rattle.base_model.specs.ManifestText.{IsSegSize};
ghost use Rattle.repo_names.specs.Next.{IsOfLog};
ghost use Rattle.base_crash_lists.specs.Beside.{StaysBeside};
ghost use Rattle.archive_spool.specs.Marks.{GivesMarks};
ghost use Rattle.cmd_archive_get_async.specs.Names.{ChangesAhead};
ghost use Rattle.cmd_archive_get_async.specs.Fetching.{most_ahead, HoldsFetched};
ghost use Rattle.cmd_archive_get_async.specs.Between.{SpoolEnds, FindsSegment, PutsCopy, PutStops, Fetched, OneEnds, NextComes, NextStops, FetchedAhead, AheadStops};

use crate::ahead::fault::of_spool;
use crate::ahead::names::{ahead_folder, ahead_name};
use crate::ahead::spool_copy::{Copied, SEGMENT_LIMIT, copy};
use archive_lookup::Stored;
use archive_store::present;
use base_devices::Disk;
use base_disk::drop_folder;
use base_model::{ArchiveId, ArchiveName, SegSize, Segment};
use base_text::Sum;
use cmd_archive_get::{GetFault, of_archive};
use cmd_types::Halt;
use repo_names::next;
use std::alloc::Global;

// Copies a stored file with this sum to a name of the spool.
fn fetch_file<D: Disk, S: Disk>(
    alloc: Global,
    repo: &mut D,
    spool: &mut S,
    from: String,
    sum: Sum,
    name: &str,
) -> Result<(), Halt<GetFault>>
    ensures puts { PutsCopy D.state S.state (string_bytes from) sum.0 name.now result repo.old spool.old spool.new }
    ensures others { SameBut name.now (S.state spool.old).view.now (S.state spool.new).view.now }
    ensures works { Works (λ _ _. ⊥) (λ n. n ≡ name.now) (S.state spool.old) (S.state spool.new) }
    ensures looks { OnlyReads (D.state repo.old) (D.state repo.new) }
    ensures cause { PutStops D.state S.state (string_bytes from) sum.0 result repo.old repo.new spool.old spool.new }
{
    match copy(alloc, repo, spool, from.as_str(), name) {
        Ok(Copied::Whole(found)) => {
            if found == sum {
                Ok(())
            } else {
                Err(Halt::Refused(GetFault::SegmentDamaged { known: sum, found }))
            }
        }
        Ok(Copied::Long) => Err(Halt::Refused(GetFault::TooLong {
            name: from,
            limit: SEGMENT_LIMIT,
        })),
        // It was listed, and isn't there any more.
        Ok(Copied::Vanished) => Err(Halt::NoMemory),
        Err(halt) => Err(halt),
    }
}

// Fetches a segment that is stored.
fn fetch_stored<D: Disk, S: Disk>(
    alloc: Global,
    repo: &mut D,
    spool: &mut S,
    stanza: &str,
    id: &ArchiveId,
    segment: &Segment,
    stored: Stored,
) -> Result<(), Halt<GetFault>>
    requires finds { FindsSegment stanza.now id.now segment.now stored (D.state repo.old) }
    ensures fetches { OnOk result (Fetched D.state S.state stanza.now id.now segment.now repo.old spool.old spool.new) }
    ensures only { ChangesAhead stanza.now (S.state spool.old).view (S.state spool.new).view }
    ensures frame { CallsProperly (S.state spool.old) (S.state spool.new) }
    ensures looks { OnlyReads (D.state repo.old) (D.state repo.new) }
    ensures cause { OneEnds D.state S.state stanza.now id.now segment.now result repo.old repo.new spool.old spool.new }
{
    // A segment has a sum, so this is never so.
    let Some(sum) = stored.sum else {
        return Err(Halt::NoMemory);
    };
    match ahead_name(alloc, stanza, segment, &sum) {
        Ok(name) => fetch_file(alloc, repo, spool, stored.path, sum, name.as_str()),
        Err(_) => Err(Halt::NoMemory),
    }
}

// Fetches the segment that follows this one, where there is one and the repository has it.
fn fetch_next<D: Disk, S: Disk>(
    alloc: Global,
    repo: &mut D,
    spool: &mut S,
    stanza: &str,
    id: &ArchiveId,
    last: &Segment,
    size: SegSize,
) -> Result<Option<Segment>, Halt<GetFault>>
    requires valid { IsSegSize size.0 }
    requires of_log { IsOfLog size.0 last.now }
    ensures fetches { NextComes D.state S.state stanza.now id.now last.now size.0 result repo.old spool.old spool.new }
    ensures only { ChangesAhead stanza.now (S.state spool.old).view (S.state spool.new).view }
    ensures frame { CallsProperly (S.state spool.old) (S.state spool.new) }
    ensures looks { OnlyReads (D.state repo.old) (D.state repo.new) }
    ensures cause { IfErr result (NextStops D.state S.state stanza.now id.now last.now size.0
        repo.old repo.new spool.old spool.new) }
{
    let Some(segment) = next(last, size) else {
        return Ok(None);
    };
    match present(alloc, repo, stanza, id, &ArchiveName::Segment(segment)) {
        Ok(Some(stored)) => {
            match fetch_stored(alloc, repo, spool, stanza, id, &segment, stored) {
                Ok(()) => Ok(Some(segment)),
                Err(halt) => Err(halt),
            }
        }
        Ok(None) => Ok(None),
        Err(fault) => Err(of_archive(fault)),
    }
}

// Removes all that was fetched before.
fn clear<S: Disk>(alloc: Global, spool: &mut S, stanza: &str) -> Result<(), Halt<GetFault>>
    ensures clear { OnOk result (HoldsFetched stanza.now [] (S.state spool.old).view.now (S.state spool.new).view.now) }
    ensures only { ChangesAhead stanza.now (S.state spool.old).view (S.state spool.new).view }
    ensures frame { CallsProperly (S.state spool.old) (S.state spool.new) }
    ensures cause { IfErr result (SpoolEnds (S.state spool.old) (S.state spool.new)) }
{
    let Ok(folder) = ahead_folder(alloc, stanza) else {
        return Err(Halt::NoMemory);
    };
    match drop_folder(alloc, spool, folder.as_str()) {
        Ok(()) => Ok(()),
        Err(fault) => Err(of_spool(fault)),
    }
}

// At most this many bytes of segments, and one at least.
fn most_ahead(size: SegSize, queue: u64) -> u64
    requires { IsSegSize size.0 }
    ensures { result ≡ most_ahead size.0 queue }
{
    (queue / u64::from(size.0)).max(1)
}

/// Fetches the segments that follow this one from the repository into the spool, at most this many bytes of
/// segments, one at least, up to the first that isn't stored under this id; and returns how many. What was fetched
/// before is removed.
pub fn fetch_ahead<D: Disk, S: Disk>(
    alloc: Global,
    repo: &mut D,
    spool: &mut S,
    stanza: &str,
    id: &ArchiveId,
    after: &Segment,
    size: SegSize,
    queue: u64,
) -> Result<u64, Halt<GetFault>>
    requires valid { IsSegSize size.0 }
    requires of_log { IsOfLog size.0 after.now }
    ensures fetched { IfOk result (FetchedAhead D.state S.state stanza.now id.now after.now size.0 queue
        repo.old spool.old spool.new) }
    // Nothing else changes, and no receipt is given.
    ensures only { ChangesAhead stanza.now (S.state spool.old).view (S.state spool.new).view }
    ensures marks { GivesMarks stanza.now [] (S.state spool.old).view (S.state spool.new).view }
    ensures beside { StaysBeside stanza.now (S.state spool.old).view (S.state spool.new).view }
    ensures frame { CallsProperly (S.state spool.old) (S.state spool.new) }
    ensures looks { OnlyReads (D.state repo.old) (D.state repo.new) }
    ensures cause { IfErr result (AheadStops D.state S.state stanza.now id.now after.now size.0 queue
        repo.old repo.new spool.old spool.new) }
{
    if let Err(halt) = clear(alloc, spool, stanza) {
        return Err(halt);
    }
    let most = most_ahead(size, queue);
    let mut last = *after;
    for count in 0..most {
        match fetch_next(alloc, repo, spool, stanza, id, &last, size) {
            Ok(Some(segment)) => last = segment,
            Ok(None) => return Ok(count),
            Err(halt) => return Err(halt),
        }
    }
    Ok(most)
}
