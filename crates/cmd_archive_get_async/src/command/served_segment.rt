// Serves a whole segment, from the spool or else from the repository.
ghost use Rattle.std.specs.Prelude.{◌≡◌, ◌≤◌, [], Option, None, IfOk, IfErr, IfSome, IsSome};
ghost use Rattle.base_devices.specs.States.{CallsProperly, OnlyReads};
ghost use Rattle.base_model.specs.declared.wal.ArchiveName.TheVariants.{Segment as OfWhole};
ghost use Rattle.base_model.specs.InfoFiles.{IsArchiveInfo};
ghost use Rattle.base_model.specs.Values.{archive_info_of};
ghost use Rattle.base_crash_lists.specs.Beside.{StaysBeside};
ghost use Rattle.cmd_types.specs.Cluster.{FolderShows};
ghost use Rattle.cmd_types.specs.Current.{HasValue};
ghost use Rattle.archive_spool.specs.Marks.{GivesMarks};
ghost use Rattle.cmd_archive_get_async.specs.Getting.{StillFolder};
ghost use Rattle.cmd_archive_get_async.specs.Between.{KeptAsFound, ServedBySum, ServedLasts, GivenFile, SetsBySum, GivesOne, GetAheadEnds};
ghost use Rattle.cmd_archive_get.specs.ByOrder.{GetEnds};

use crate::ahead::take_ahead;
use archive_lookup::Stored;
use base_devices::{DataFolder, Disk};
use base_model::{ArchiveInfo, Segment};
use cmd_archive_get::{GetFault, GetOrder, find_file, get_file};
use cmd_types::{Halt, Outcome};
use repo_stanza::Control;
use std::alloc::Global;

// Serves a segment from the repository, and hands on where that stores it; None where it doesn't.
fn serve_stored<D: Disk, T: DataFolder>(
    alloc: Global,
    repo: &mut D,
    tree: &mut T,
    stanza: &str,
    order: &GetOrder<'_>,
    known: &Control,
    info: &ArchiveInfo,
    stored: Stored,
) -> Result<Option<Stored>, Halt<GetFault>>
    requires shows { IfSome (T.state tree.old).nodes (λ f. FolderShows f known.now) }
    requires pair { IfSome (D.state repo.old).view.now (λ f. HasValue stanza.now f (archive_info_of info.now)) }
    requires valid { IsArchiveInfo (archive_info_of info.now) }
    ensures serves { IfOk result (ServedBySum D.state T.state stanza.now order.now repo.old tree.old tree.new) }
    ensures same { IfOk result (λ r. IfSome r (λ file. file ≡ stored)) }
    ensures lasts { IfOk result (ServedLasts D.state T.state stanza.now order.now repo.old repo.new tree.old tree.new) }
    ensures given { IfOk result (GivenFile D.state T.state stanza.now order.now repo.old tree.old tree.new) }
    ensures changes { SetsBySum D.state T.state stanza.now order.now repo.old tree.old tree.new }
    ensures still { StillFolder result (T.state tree.old).nodes (T.state tree.new).nodes }
    ensures looks { OnlyReads (D.state repo.old) (D.state repo.new) }
    ensures opened { (T.state tree.new).opened ≡ (T.state tree.old).opened }
    ensures later { (T.state tree.old).faults ≤ (T.state tree.new).faults }
    ensures cause { IfErr result (GetEnds D.state T.state stanza.now order.now repo.old repo.new tree.old tree.new) }
{
    match get_file(alloc, repo, tree, stanza, order, known, info) {
        Ok(Outcome::Finished { .. }) => Ok(Some(stored)),
        Ok(Outcome::Absent { .. }) => Ok(None),
        Ok(Outcome::FindingsFound { .. }) => unreachable!(),
        Err(halt) => Err(halt),
    }
}

/// Serves a whole segment, and returns where the repository stores it; None where it doesn't.
pub(crate) fn serve_ahead<D: Disk, S: Disk, T: DataFolder>(
    alloc: Global,
    repo: &mut D,
    spool: &mut S,
    tree: &mut T,
    stanza: &str,
    order: &GetOrder<'_>,
    segment: &Segment,
    known: &Control,
    info: &ArchiveInfo,
) -> Result<Option<Stored>, Halt<GetFault>>
    requires whole { order.now.name ≡ OfWhole segment.now }
    requires shows { IfSome (T.state tree.old).nodes (λ f. FolderShows f known.now) }
    requires pair { IfSome (D.state repo.old).view.now (λ f. HasValue stanza.now f (archive_info_of info.now)) }
    requires valid { IsArchiveInfo (archive_info_of info.now) }
    ensures serves { IfOk result (ServedBySum D.state T.state stanza.now order.now repo.old tree.old tree.new) }
    ensures kept { IfOk result (KeptAsFound stanza.now known.now order.now.name (D.state repo.old)) }
    ensures lasts { IfOk result (ServedLasts D.state T.state stanza.now order.now repo.old repo.new tree.old tree.new) }
    ensures given { GivesOne D.state S.state T.state stanza.now order.now result repo.old spool.old tree.old tree.new }
    ensures changes { SetsBySum D.state T.state stanza.now order.now repo.old tree.old tree.new }
    ensures still { StillFolder result (T.state tree.old).nodes (T.state tree.new).nodes }
    ensures looks { OnlyReads (D.state repo.old) (D.state repo.new) }
    ensures opened { (T.state tree.new).opened ≡ (T.state tree.old).opened }
    ensures later { (T.state tree.old).faults ≤ (T.state tree.new).faults }
    ensures marks { GivesMarks stanza.now [] (S.state spool.old).view (S.state spool.new).view }
    ensures beside { StaysBeside stanza.now (S.state spool.old).view (S.state spool.new).view }
    ensures known { IsSome (S.state spool.old).view.now → IsSome (S.state spool.new).view.now }
    ensures frame { CallsProperly (S.state spool.old) (S.state spool.new) }
    ensures cause { IfErr result (GetAheadEnds D.state S.state T.state stanza.now known.now order.now
        repo.old repo.new spool.old spool.new tree.old tree.new) }
{
    let stored = match find_file(alloc, repo, stanza, known, info, &order.name) {
        Ok(Some(stored)) => stored,
        Ok(None) => return Ok(None),
        Err(halt) => return Err(halt),
    };
    // Where no sum is known of it, the spool isn't asked.
    let Some(sum) = stored.sum else {
        return serve_stored(alloc, repo, tree, stanza, order, known, info, stored);
    };
    match take_ahead(alloc, spool, tree, stanza, segment, &sum, order.inside) {
        Ok(true) => Ok(Some(stored)),
        Ok(false) => serve_stored(alloc, repo, tree, stanza, order, known, info, stored),
        Err(halt) => Err(halt),
    }
}
