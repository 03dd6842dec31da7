// Stores the files that are ready under the id of the current cluster.
ghost use Rattle.std.specs.Prelude.{◌≡◌, ◌∷◌, [], IfErr, IfSome, OnOk};
ghost use Rattle.base_devices.specs.States.{CallsProperly, OnlyReadsFolder};
ghost use Rattle.base_model.specs.InfoFiles.{IsArchiveInfo};
ghost use Rattle.base_model.specs.Values.{archive_info_of};
ghost use Rattle.base_crash_lists.specs.Beside.{StaysBeside};
ghost use Rattle.cmd_types.specs.Cluster.{FolderShows};
ghost use Rattle.cmd_types.specs.Current.{HasValue};
ghost use Rattle.cmd_types.specs.Plans.{archive_lock};
ghost use Rattle.cmd_archive_push_async.specs.Paired.{KeepsPair};
ghost use Rattle.cmd_archive_push_async.specs.Whole.{HasMarksOf};
ghost use Rattle.cmd_archive_push_async.specs.Between.{PutsByCurrent, RunsDrain, Pushes, GivesReceipts, PutsLogs, Lasting, DrainEnds};

use crate::files::drain;
use base_devices::{DataFolder, Disk, Locks};
use base_model::ArchiveInfo;
use cmd_archive_push::{PushFault, id_of};
use cmd_types::{Halt, Outcome};
use repo_stanza::Control;
use std::alloc::Global;

/// Stores each file of the log that is ready, and marks in the spool the result of it. As long as it has the locks
/// nobody can release them.
pub fn drain_stanza<D: Disk, S: Disk, T: DataFolder, K: Locks>(
    alloc: Global,
    repo: &mut D,
    spool: &mut S,
    tree: &mut T,
    _locks: &K,
    stanza: &str,
    known: &Control,
    info: &ArchiveInfo,
) -> Result<Outcome, Halt<PushFault>>
    requires locked { (K.state _locks.now).taken ≡ archive_lock stanza.now ∷ [] }
    requires shows { IfSome (T.state tree.old).nodes (λ f. FolderShows f known.now) }
    requires pair { IfSome (D.state repo.old).view.now (λ f. HasValue stanza.now f (archive_info_of info.now)) }
    requires valid { IsArchiveInfo (archive_info_of info.now) }
    // It is one command of the log: all of it, or a part, or nothing where it is refused.
    ensures runs { RunsDrain D.state S.state T.state stanza.now result repo.old repo.new spool.old spool.new tree.old }
    ensures drained { Pushes D.state S.state T.state stanza.now known.now result repo.old repo.new spool.old spool.new
        tree.old }
    // Each receipt that it gives is of a file that the repository then stores, whatever else lies there. It puts files
    // that are ready, and changes no other name.
    ensures receipts { GivesReceipts D.state S.state T.state stanza.now repo.old repo.new spool.old spool.new tree.old }
    ensures puts_only { PutsByCurrent stanza.now (D.state repo.old) (D.state repo.new) }
    ensures puts { PutsLogs D.state S.state T.state stanza.now repo.old repo.new tree.old }
    // At Ok no crash removes what was stored, and each leaves the marks unchanged.
    ensures stays { Lasting D.state S.state T.state stanza.now result known.now repo.old repo.new tree.old }
    ensures lasts { OnOk result (HasMarksOf stanza.now (S.state spool.old).view (S.state spool.new).view) }
    // Members of the archive pair that have the same bytes stay so, in all that a crash leaves too.
    ensures pair { KeepsPair stanza.now (D.state repo.old).view (D.state repo.new).view }
    ensures beside { StaysBeside stanza.now (D.state repo.old).view (D.state repo.new).view }
    ensures spool_beside { StaysBeside stanza.now (S.state spool.old).view (S.state spool.new).view }
    ensures repo_frame { CallsProperly (D.state repo.old) (D.state repo.new) }
    ensures spool_frame { CallsProperly (S.state spool.old) (S.state spool.new) }
    ensures looks { OnlyReadsFolder (T.state tree.old) (T.state tree.new) }
    ensures cause { IfErr result (DrainEnds D.state S.state T.state stanza.now repo.old repo.new spool.old spool.new
        tree.old tree.new) }
{
    let id = match id_of(info, known) {
        Ok(id) => id,
        Err(halt) => return Err(halt),
    };
    match drain(alloc, repo, spool, tree, stanza, id, known.system) {
        Ok(_) => Ok(Outcome::Finished {
            lines: String::new(alloc),
        }),
        Err(halt) => Err(halt),
    }
}
