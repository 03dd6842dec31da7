// Stores all files of the log that are ready.
ghost use Rattle.std.specs.Prelude.{IfErr, OnOk};
ghost use Rattle.base_devices.specs.States.{CallsProperly, OnlyReadsFolder};
ghost use Rattle.archive_lookup.specs.Stored.{ChangesArchive};
ghost use Rattle.cmd_archive_push_async.specs.Paired.{KeepsPair};
ghost use Rattle.cmd_archive_push_async.specs.Whole.{HasMarksOf};
ghost use Rattle.cmd_archive_push_async.specs.Between.{PutsSome, DrainsLogs, EndsAtReady};

use crate::files::file_loop::drain_named;
use crate::files::mark_sync::sync_marks;
use crate::files::push_marks::Drained;
use crate::files::ready::ready_names;
use crate::files::target::Target;
use base_devices::{DataFolder, Disk};
use base_model::ArchiveId;
use cmd_archive_push::PushFault;
use cmd_types::Halt;
use std::alloc::Global;

/// Stores each file of the log that is ready and that the data folder has, in byte order of their names, and marks in
/// the spool the result of each. The id is that of the stanza's current cluster. Marks of no use are removed before.
pub fn drain<D: Disk, S: Disk, T: DataFolder>(
    alloc: Global,
    repo: &mut D,
    spool: &mut S,
    tree: &mut T,
    stanza: &str,
    id: ArchiveId,
    system: u64,
) -> Result<Drained, Halt<PushFault>>
    // Each file has its mark, and under that id the two disks change by the command that stores these files.
    ensures drains { DrainsLogs D.state S.state T.state stanza.now id system result
        repo.old repo.new spool.old spool.new tree.old }
    // At Ok a crash leaves the marks unchanged.
    ensures lasts { OnOk result (HasMarksOf stanza.now (S.state spool.old).view (S.state spool.new).view) }
    ensures puts_only { PutsSome stanza.now id (D.state repo.old) (D.state repo.new) }
    ensures pair { KeepsPair stanza.now (D.state repo.old).view (D.state repo.new).view }
    ensures repo_only { ChangesArchive stanza.now (D.state repo.old).view (D.state repo.new).view }
    ensures spool_only { ChangesArchive stanza.now (S.state spool.old).view (S.state spool.new).view }
    ensures repo_frame { CallsProperly (D.state repo.old) (D.state repo.new) }
    ensures spool_frame { CallsProperly (S.state spool.old) (S.state spool.new) }
    ensures looks { OnlyReadsFolder (T.state tree.old) (T.state tree.new) }
    ensures cause { IfErr result (EndsAtReady D.state S.state T.state stanza.now id
        repo.old repo.new spool.old spool.new tree.old tree.new) }
{
    let names = match ready_names(alloc, tree) {
        Ok(names) => names,
        Err(halt) => return Err(halt),
    };
    let to = Target { stanza, id, system };
    let drained = match drain_named(alloc, repo, spool, tree, &to, &names) {
        Ok(drained) => drained,
        Err(halt) => return Err(halt),
    };
    sync_marks(alloc, spool, stanza, drained)
}
