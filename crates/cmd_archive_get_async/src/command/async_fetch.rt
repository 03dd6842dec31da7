// archive-get:async: fetches what follows a segment.
ghost use Rattle.std.specs.Prelude.{◌≡◌, [], IfOk, IfErr, IfSome, OnOk};
ghost use Rattle.base_devices.specs.States.{CallsProperly, OnlyReads};
ghost use Rattle.base_model.specs.InfoFiles.{IsArchiveInfo};
ghost use Rattle.base_model.specs.Names.{segment_text};
ghost use Rattle.base_model.specs.Values.{archive_info_of};
ghost use Rattle.base_crash_lists.specs.Beside.{StaysBeside};
ghost use Rattle.cmd_types.specs.Current.{HasValue};
ghost use Rattle.cmd_types.specs.Halts.{HaltCause};
ghost use Rattle.archive_spool.specs.Marks.{GivesMarks};
ghost use Rattle.cmd_archive_get_async.specs.Names.{ChangesAhead};
ghost use Rattle.cmd_archive_get_async.specs.FollowUp.{WordCause};
ghost use Rattle.cmd_archive_get_async.specs.Between.{AheadStops, FetchedAfter, FetchedUp, FollowUpStops};

use crate::ahead::fetch_ahead;
use crate::command::following::size_of;
use archive_lookup::Stored;
use base_devices::Disk;
use base_model::{ArchiveInfo, ArchiveName, Segment};
use cmd_archive_get::{GetFault, find_file};
use cmd_types::{Halt, Outcome};
use repo_names::read_segment;
use repo_stanza::Control;
use std::alloc::Global;

/// What archive-get:async is given: the segment after which it fetches.
#[derive(Drop)]
pub struct FetchOrder<'a> {
    /// The name of the segment, as it was given.
    pub word: &'a str,
    pub segment: Segment,
    ghost named: { word.now ≡ segment_text segment },
}

/// The order that the argument gives.
pub fn fetch_order(alloc: Global, word: &str) -> Result<FetchOrder<'_>, Halt<GetFault>>
    ensures order { IfOk result (λ o. o.word.now ≡ word.now) }
    ensures cause { IfErr result (HaltCause (WordCause word.now) (λ _. ⊥)) }
{
    match read_segment(word.as_bytes()) {
        Some(segment) => Ok(FetchOrder { word, segment }),
        None => Err(Halt::Refused(GetFault::SegmentName {
            name: String::from_str(alloc, word)?,
        })),
    }
}

// Fetches what follows a stored segment, by its length.
fn fetch_from<D: Disk, S: Disk>(
    alloc: Global,
    repo: &mut D,
    spool: &mut S,
    stanza: &str,
    segment: &Segment,
    stored: &Stored,
    queue: u64,
) -> Result<(), Halt<GetFault>>
    ensures fetches { OnOk result (FetchedAfter D.state S.state stanza.now segment.now stored.now queue
        repo.old spool.old spool.new) }
    ensures looks { OnlyReads (D.state repo.old) (D.state repo.new) }
    ensures only { ChangesAhead stanza.now (S.state spool.old).view (S.state spool.new).view }
    ensures frame { CallsProperly (S.state spool.old) (S.state spool.new) }
    ensures cause { IfErr result (AheadStops D.state S.state stanza.now stored.now.id segment.now stored.now.size queue
        repo.old repo.new spool.old spool.new) }
{
    let Some(size) = size_of(segment, stored.size) else {
        return Ok(());
    };
    match fetch_ahead(alloc, repo, spool, stanza, &stored.id, segment, size, queue) {
        Ok(_) => Ok(()),
        Err(halt) => Err(halt),
    }
}

/// Fetches the segments that follow a stored one into the spool, at most this many bytes of segments. `known` is
/// what the data folder says about its cluster, and `info` the value of the archive pair.
pub fn fetch_after<D: Disk, S: Disk>(
    alloc: Global,
    repo: &mut D,
    spool: &mut S,
    stanza: &str,
    order: &FetchOrder<'_>,
    known: &Control,
    info: &ArchiveInfo,
    queue: u64,
) -> Result<Outcome, Halt<GetFault>>
    requires pair { IfSome (D.state repo.old).view.now (λ f. HasValue stanza.now f (archive_info_of info.now)) }
    requires valid { IsArchiveInfo (archive_info_of info.now) }
    ensures fetched { IfOk result (FetchedUp D.state S.state stanza.now known.now order.now.word.now
        order.now.segment queue repo.old spool.old spool.new) }
    ensures looks { OnlyReads (D.state repo.old) (D.state repo.new) }
    ensures marks { GivesMarks stanza.now [] (S.state spool.old).view (S.state spool.new).view }
    ensures beside { StaysBeside stanza.now (S.state spool.old).view (S.state spool.new).view }
    ensures only { ChangesAhead stanza.now (S.state spool.old).view (S.state spool.new).view }
    ensures frame { CallsProperly (S.state spool.old) (S.state spool.new) }
    ensures cause { IfErr result (FollowUpStops D.state S.state stanza.now known.now order.now.segment queue
        repo.old repo.new spool.old spool.new) }
{
    let name = ArchiveName::Segment(order.segment);
    let stored = match find_file(alloc, repo, stanza, known, info, &name) {
        Ok(Some(stored)) => stored,
        Ok(None) => {
            return match String::from_str(alloc, order.word) {
                Ok(name) => Ok(Outcome::Absent { name }),
                Err(_) => Err(Halt::NoMemory),
            };
        }
        Err(halt) => return Err(halt),
    };
    match fetch_from(alloc, repo, spool, stanza, &order.segment, &stored, queue) {
        Ok(()) => Ok(Outcome::Finished {
            lines: String::new(alloc),
        }),
        Err(halt) => Err(halt),
    }
}
