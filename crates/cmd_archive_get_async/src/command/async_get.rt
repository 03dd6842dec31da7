// archive-get with archive-async: a file is served, through the spool where it is there.
ghost use Rattle.std.specs.Prelude.{◌≡◌, ◌≤◌, [], map, Option, IfOk, IfErr, IfSome, IsSome, string_bytes};
ghost use Rattle.base_devices.specs.States.{CallsProperly, OnlyReads};
ghost use Rattle.base_model.specs.InfoFiles.{IsArchiveInfo};
ghost use Rattle.base_model.specs.Values.{archive_info_of};
ghost use Rattle.base_crash_lists.specs.Beside.{StaysBeside};
ghost use Rattle.cmd_types.specs.Cluster.{FolderShows};
ghost use Rattle.cmd_types.specs.Current.{HasValue};
ghost use Rattle.cmd_types.specs.Reached.{reached_by};
ghost use Rattle.cmd_types.specs.Risen.{none};
ghost use Rattle.cmd_types.specs.DisksEffect.{OnNone};
ghost use Rattle.archive_spool.specs.Marks.{GivesMarks};
ghost use Rattle.cmd_archive_get.specs.Getting.{get_early};
ghost use Rattle.cmd_archive_get_async.specs.Following.{QuietOthers};
ghost use Rattle.cmd_archive_get_async.specs.Getting.{FollowsUp};
ghost use Rattle.cmd_archive_get_async.specs.Between.{GotBySum, GotLasts, SetsBySum, GivesFile, GetAheadEnds};

use crate::command::following::follow;
use crate::command::served_segment::serve_ahead;
use archive_lookup::OtherProcesses;
use base_devices::{DataFolder, Disk};
use base_model::{ArchiveInfo, ArchiveName};
use cmd_archive_get::{GetFault, GetOrder, get_file};
use cmd_types::{Halt, Outcome};
use repo_stanza::Control;
use std::alloc::Global;

/// Serves a file of the archive at a path of the data folder: a whole segment from the spool, where that has it. After
/// that a fetch is started with these arguments, where the spool doesn't have the next segment. `known` is what the
/// data folder says about its cluster, and `info` the value of the archive pair.
pub fn get_ahead<D: Disk, S: Disk, T: DataFolder, A: OtherProcesses<D, S>>(
    alloc: Global,
    repo: &mut D,
    spool: &mut S,
    tree: &mut T,
    processes: &mut A,
    stanza: &str,
    order: &GetOrder<'_>,
    known: &Control,
    info: &ArchiveInfo,
    arguments: &[String],
) -> Result<Outcome, Halt<GetFault>>
    requires shows { IfSome (T.state tree.old).nodes (λ f. FolderShows f known.now) }
    requires pair { IfSome (D.state repo.old).view.now (λ f. HasValue stanza.now f (archive_info_of info.now)) }
    requires valid { IsArchiveInfo (archive_info_of info.now) }
    // The data folder has at Finished a file of the sum that the repository's name states, and is unchanged where the
    // repository doesn't have it.
    ensures got { IfOk result (GotBySum D.state T.state stanza.now order.now repo.old tree.old tree.new) }
    // So it is in all that a crash leaves, where that has the archive pair.
    ensures lasts { IfOk result (GotLasts D.state T.state stanza.now order.now repo.old repo.new tree.old tree.new) }
    // What is served is archived, where no two contents share a SHA-1.
    ensures given { GivesFile D.state S.state T.state stanza.now order.now result repo.old spool.old tree.old tree.new }
    ensures changes { SetsBySum D.state T.state stanza.now order.now repo.old tree.old tree.new }
    ensures none { OnNone (reached_by get_early result) ((T.state tree.new).nodes ≡ (T.state tree.old).nodes) }
    ensures looks { OnlyReads (D.state repo.old) (D.state repo.new) }
    ensures opened { (T.state tree.new).opened ≡ (T.state tree.old).opened }
    ensures later { (T.state tree.old).faults ≤ (T.state tree.new).faults }

    // The spool gives no receipt, and a fetch is started where it is requested.
    ensures marks { GivesMarks stanza.now [] (S.state spool.old).view (S.state spool.new).view }
    ensures beside { StaysBeside stanza.now (S.state spool.old).view (S.state spool.new).view }
    ensures known { IsSome (S.state spool.old).view.now → IsSome (S.state spool.new).view.now }
    ensures frame { CallsProperly (S.state spool.old) (S.state spool.new) }
    ensures follows { IfOk result (FollowsUp stanza.now known.now order.now.name (D.state repo.old).view.now
        (map string_bytes arguments.now) (S.state spool.new).view.now (A.state processes.old) (A.state processes.new)) }
    ensures others { QuietOthers (map string_bytes arguments.now) (A.state processes.old) (A.state processes.new) }
    ensures cause { IfErr result (GetAheadEnds D.state S.state T.state stanza.now known.now order.now
        repo.old repo.new spool.old spool.new tree.old tree.new) }
{
    let ArchiveName::Segment(segment) = order.name else {
        return get_file(alloc, repo, tree, stanza, order, known, info);
    };
    match serve_ahead(
        alloc, repo, spool, tree, stanza, order, &segment, known, info,
    ) {
        Ok(Some(stored)) => {
            match follow(
                alloc,
                spool,
                processes,
                stanza,
                &segment,
                stored.size,
                arguments,
            ) {
                Ok(lines) => Ok(Outcome::Finished { lines }),
                Err(halt) => Err(halt),
            }
        }
        Ok(None) => match String::from_str(alloc, order.word) {
            Ok(name) => Ok(Outcome::Absent { name }),
            Err(_) => Err(Halt::NoMemory),
        },
        Err(halt) => Err(halt),
    }
}
