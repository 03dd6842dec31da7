// Stores files one after the other.
ghost use Rattle.std.specs.Prelude.{◌≡◌, ◌+◌, ◌<◌, ◌^◌, IfErr};
ghost use Rattle.base_devices.specs.States.{CallsProperly, OnlyReadsFolder};
ghost use Rattle.archive_lookup.specs.Stored.{ChangesArchive};
ghost use Rattle.cmd_archive_push_async.specs.Paired.{KeepsPair};
ghost use Rattle.cmd_archive_push_async.specs.Between.{PutsSome, DrainsFiles, DrainsCleared, EndsAmong};

use crate::files::marked_store::store_file;
use crate::files::push_marks::{Drained, of_spool};
use crate::files::target::Target;
use archive_spool::clear_marks;
use base_devices::{DataFolder, Disk};
use base_model::ArchiveName;
use cmd_archive_push::PushFault;
use cmd_types::Halt;
use std::alloc::Global;

impl Drained {
    // With what was done with one file more.
    fn with(self, more: Drained) -> Drained
        requires pushed { self.pushed + more.pushed < 2 ^ 64 }
        requires refused { self.refused + more.refused < 2 ^ 64 }
        ensures pushed { result.pushed ≡ self.pushed + more.pushed }
        ensures refused { result.refused ≡ self.refused + more.refused }
    {
        Drained {
            pushed: self.pushed + more.pushed,
            refused: self.refused + more.refused,
        }
    }
}

/// Stores the files of these names that the data folder has, in their order, and marks the result of each.
pub(crate) fn drain_files<D: Disk, S: Disk, T: DataFolder>(
    alloc: Global,
    repo: &mut D,
    spool: &mut S,
    tree: &mut T,
    to: &Target<'_>,
    names: &[ArchiveName],
) -> Result<Drained, Halt<PushFault>>
    ensures drains { DrainsFiles D.state S.state T.state to.now names.now result
        repo.old repo.new spool.old spool.new tree.old }
    ensures puts_only { PutsSome to.now.stanza.now to.now.id (D.state repo.old) (D.state repo.new) }
    ensures pair { KeepsPair to.now.stanza.now (D.state repo.old).view (D.state repo.new).view }
    ensures repo_only { ChangesArchive to.now.stanza.now (D.state repo.old).view (D.state repo.new).view }
    ensures spool_only { ChangesArchive to.now.stanza.now (S.state spool.old).view (S.state spool.new).view }
    ensures repo_frame { CallsProperly (D.state repo.old) (D.state repo.new) }
    ensures spool_frame { CallsProperly (S.state spool.old) (S.state spool.new) }
    ensures looks { OnlyReadsFolder (T.state tree.old) (T.state tree.new) }
    ensures cause { IfErr result (EndsAmong D.state S.state T.state to.now names.now
        repo.old repo.new spool.old spool.new tree.old tree.new) }
{
    let mut drained = Drained {
        pushed: 0,
        refused: 0,
    };
    for name in names {
        let more = match store_file(alloc, repo, spool, tree, to, *name) {
            Ok(more) => more,
            Err(halt) => return Err(halt),
        };
        drained = drained.with(more);
    }
    Ok(drained)
}

/// Removes marks of no use. Then it stores the files of these names that the data folder has, in their order, and
/// marks the result of each.
pub(crate) fn drain_named<D: Disk, S: Disk, T: DataFolder>(
    alloc: Global,
    repo: &mut D,
    spool: &mut S,
    tree: &mut T,
    to: &Target<'_>,
    names: &[ArchiveName],
) -> Result<Drained, Halt<PushFault>>
    ensures drains { DrainsCleared D.state S.state T.state to.now names.now result
        repo.old repo.new spool.old spool.new tree.old }
    ensures puts_only { PutsSome to.now.stanza.now to.now.id (D.state repo.old) (D.state repo.new) }
    ensures pair { KeepsPair to.now.stanza.now (D.state repo.old).view (D.state repo.new).view }
    ensures repo_only { ChangesArchive to.now.stanza.now (D.state repo.old).view (D.state repo.new).view }
    ensures spool_only { ChangesArchive to.now.stanza.now (S.state spool.old).view (S.state spool.new).view }
    ensures repo_frame { CallsProperly (D.state repo.old) (D.state repo.new) }
    ensures spool_frame { CallsProperly (S.state spool.old) (S.state spool.new) }
    ensures looks { OnlyReadsFolder (T.state tree.old) (T.state tree.new) }
    ensures cause { IfErr result (EndsAmong D.state S.state T.state to.now names.now
        repo.old repo.new spool.old spool.new tree.old tree.new) }
{
    match clear_marks(alloc, spool, to.stanza, names) {
        Ok(()) => drain_files(alloc, repo, spool, tree, to, names),
        Err(fault) => Err(of_spool(fault)),
    }
}
