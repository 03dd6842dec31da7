// One file of the log is stored, and marked in the spool.
ghost use Rattle.std.specs.Prelude.{◌≡◌, ◌≤◌, ◌+◌, IfOk, IfErr};
ghost use Rattle.base_devices.specs.States.{CallsProperly, OnlyReadsFolder};
ghost use Rattle.base_model.specs.Names.{wal_text};
ghost use Rattle.archive_lookup.specs.Stored.{ChangesArchive};
ghost use Rattle.cmd_archive_push.specs.LogFile.{IsOpened};
ghost use Rattle.cmd_archive_push.specs.WalPath.{wal_path};
ghost use Rattle.cmd_archive_push_async.specs.Paired.{KeepsPair};
ghost use Rattle.cmd_archive_push_async.specs.Ends.{SkipsMissing, is_missing};
ghost use Rattle.cmd_archive_push_async.specs.Between.{PutsSome, Records, EndsAtFile};

use crate::files::push_marks::{Drained, mark_tried};
use crate::files::pushing::push_log;
use crate::files::target::Target;
use base_devices::{DataFolder, Disk};
use base_model::ArchiveName;
use cmd_archive_push::{LogFile, PushFault, limit_of, open_log_file};
use cmd_types::Halt;
use repo_names::archive_name_text;
use std::alloc::Global;

fn is_missing(halt: &Halt<PushFault>) -> bool
    ensures { result ≡ is_missing halt.now }
{
    match halt {
        Halt::Refused(fault) => match fault {
            PushFault::SegmentMissing { .. } => true,
            PushFault::SegmentName { .. }
            | PushFault::PathOutside { .. }
            | PushFault::StanzaMismatch { .. }
            | PushFault::TooLong { .. }
            | PushFault::HeaderForm { .. }
            | PushFault::SegmentSize { .. }
            | PushFault::HeaderMismatch { .. }
            | PushFault::Ambiguous { .. }
            | PushFault::Duplicate { .. } => false,
        },
        Halt::Failed(_) | Halt::NoMemory => false,
    }
}

// A file that isn't there is passed over.
fn skip_missing(halt: Halt<PushFault>) -> Result<Drained, Halt<PushFault>>
    ensures { SkipsMissing halt result }
{
    if is_missing(&halt) {
        Ok(Drained {
            pushed: 0,
            refused: 0,
        })
    } else {
        Err(halt)
    }
}

// Stores a file that was opened, and marks it.
fn store_log<D: Disk, S: Disk, T: DataFolder>(
    alloc: Global,
    repo: &mut D,
    spool: &mut S,
    tree: &mut T,
    to: &Target<'_>,
    name: ArchiveName,
    log: &LogFile,
) -> Result<Drained, Halt<PushFault>>
    requires opened { IsOpened (T.state tree.old).nodes (wal_path (wal_text name)) log.now }
    ensures drains { Records D.state S.state T.state to.now name result
        repo.old repo.new spool.old spool.new tree.old }
    ensures few { IfOk result (λ drained. drained.pushed + drained.refused ≤ 1) }
    ensures puts_only { PutsSome to.now.stanza.now to.now.id (D.state repo.old) (D.state repo.new) }
    ensures pair { KeepsPair to.now.stanza.now (D.state repo.old).view (D.state repo.new).view }
    ensures repo_only { ChangesArchive to.now.stanza.now (D.state repo.old).view (D.state repo.new).view }
    ensures spool_only { ChangesArchive to.now.stanza.now (S.state spool.old).view (S.state spool.new).view }
    ensures repo_frame { CallsProperly (D.state repo.old) (D.state repo.new) }
    ensures spool_frame { CallsProperly (S.state spool.old) (S.state spool.new) }
    ensures looks { OnlyReadsFolder (T.state tree.old) (T.state tree.new) }
    ensures cause { IfErr result (EndsAtFile D.state S.state T.state to.now name
        repo.old repo.new spool.old spool.new tree.old tree.new) }
{
    match push_log(alloc, repo, tree, to, name, log) {
        Ok(tried) => mark_tried(alloc, spool, to.stanza, name, &tried),
        Err(halt) => Err(halt),
    }
}

/// Stores the file of this name, where the data folder has it, and marks it.
pub(crate) fn store_file<D: Disk, S: Disk, T: DataFolder>(
    alloc: Global,
    repo: &mut D,
    spool: &mut S,
    tree: &mut T,
    to: &Target<'_>,
    name: ArchiveName,
) -> Result<Drained, Halt<PushFault>>
    ensures drains { Records D.state S.state T.state to.now name result
        repo.old repo.new spool.old spool.new tree.old }
    ensures few { IfOk result (λ drained. drained.pushed + drained.refused ≤ 1) }
    ensures puts_only { PutsSome to.now.stanza.now to.now.id (D.state repo.old) (D.state repo.new) }
    ensures pair { KeepsPair to.now.stanza.now (D.state repo.old).view (D.state repo.new).view }
    ensures repo_only { ChangesArchive to.now.stanza.now (D.state repo.old).view (D.state repo.new).view }
    ensures spool_only { ChangesArchive to.now.stanza.now (S.state spool.old).view (S.state spool.new).view }
    ensures repo_frame { CallsProperly (D.state repo.old) (D.state repo.new) }
    ensures spool_frame { CallsProperly (S.state spool.old) (S.state spool.new) }
    ensures looks { OnlyReadsFolder (T.state tree.old) (T.state tree.new) }
    ensures cause { IfErr result (EndsAtFile D.state S.state T.state to.now name
        repo.old repo.new spool.old spool.new tree.old tree.new) }
{
    let Ok(text) = archive_name_text(alloc, &name) else {
        return Err(Halt::NoMemory);
    };
    let limit = limit_of(&name);
    let log = match open_log_file(alloc, tree, text.as_str(), text.as_str(), limit) {
        Ok(log) => log,
        Err(halt) => return skip_missing(halt),
    };
    store_log(alloc, repo, spool, tree, to, name, &log)
}
