// Stores the file that archive-push is given.
ghost use Rattle.std.specs.Prelude.{◌≡◌, ◌∷◌, [], ◌≤◌, ◌<◌, ◌^◌, IfOk, IfErr, IfSome, string_bytes};
ghost use Rattle.base_devices.specs.States.{CallsProperly, OnlyReadsFolder};
ghost use Rattle.base_model.specs.InfoFiles.{IsArchiveInfo};
ghost use Rattle.base_model.specs.Names.{wal_text};
ghost use Rattle.base_model.specs.Values.{archive_info_of};
ghost use Rattle.archive_lookup.specs.Causes.{limit_of};
ghost use Rattle.base_crash_lists.specs.Beside.{StaysBeside};
ghost use Rattle.archive_store.specs.Still.{IsStill};
ghost use Rattle.cmd_types.specs.Cluster.{FolderShows};
ghost use Rattle.cmd_types.specs.Current.{HasValue};
ghost use Rattle.cmd_types.specs.Plans.{archive_lock};
ghost use Rattle.cmd_types.specs.Reached.{reached_by};
ghost use Rattle.cmd_types.specs.DisksEffect.{OnNone};
ghost use Rattle.cmd_archive_push.specs.Faults.{push_early};
ghost use Rattle.cmd_archive_push.specs.LogFile.{IsOpened};
ghost use Rattle.cmd_archive_push.specs.Outcomes.{pushed_lines};
ghost use Rattle.cmd_archive_push.specs.WalPath.{wal_path};
ghost use Rattle.cmd_archive_push.specs.Storing.{IsIdOfCurrentIn, DoesPush, StoresBy, PutsByOrder, LastsBy, StaysAgreed, StaysAlike, StaysSynced, PushEnds};

use crate::current::id_of;
use crate::fault::{PushFault, of_store};
use crate::log_file::{LogFile, open_log_file};
use crate::order::PushOrder;
use archive_store::{Pushed, push_from};
use base_devices::{DataFolder, Disk, Locks};
use base_model::{ArchiveId, ArchiveInfo, ArchiveName};
use cmd_types::{Halt, Outcome};
use repo_stanza::Control;
use std::alloc::{AllocError, Global};

/// How many bytes a file of this name may have: 1 GiB of a segment, and 1 MiB of a history.
pub fn limit_of(name: &ArchiveName) -> u64
    ensures limit { result ≡ limit_of name.now }
    ensures least { 65536 ≤ result }
{
    match name {
        ArchiveName::Segment(_) | ArchiveName::Partial(_) => 1 << 30,
        ArchiveName::History(_) | ArchiveName::Backup(..) => 1 << 20,
    }
}

// What a push reports: a warning where the file was stored already.
fn pushed_lines(alloc: Global, pushed: Pushed, name: &str) -> Result<String, AllocError>
    ensures { IfOk result (λ lines. string_bytes lines ≡ pushed_lines pushed name.now) }
{
    match pushed {
        Pushed::New => Ok(String::new(alloc)),
        Pushed::Same => format!(in alloc;
            "WARN: {name} is already in the archive with the same checksum\n"
        ),
    }
}

// The stanza's current cluster, which is the data folder's: its id, and what the data folder says of it.
#[derive(Drop)]
struct Current<'a> {
    id: ArchiveId,
    known: &'a Control,
}

// Stores the file that was opened.
fn store<D: Disk, T: DataFolder>(
    alloc: Global,
    repo: &mut D,
    tree: &mut T,
    stanza: &str,
    order: &PushOrder<'_>,
    at: &Current<'_>,
    log: &LogFile,
) -> Result<Outcome, Halt<PushFault>>
    requires opened { IsOpened (T.state tree.old).nodes (wal_path (wal_text order.now.name)) log.now }
    requires fits { (at.now.id.version < 2 ^ 32) × (at.now.id.number < 2 ^ 32) }
    requires current { IsIdOfCurrentIn stanza.now at.now.id at.now.known.now (D.state repo.old) (T.state tree.old) }
    ensures does { DoesPush stanza.now order.now (T.state tree.old) result (D.state repo.old) (D.state repo.new) }
    ensures stored { IfOk result (StoresBy D.state T.state stanza.now order.now repo.old repo.new tree.old) }
    // No crash removes it.
    ensures lasts { IfOk result (LastsBy stanza.now order.now (D.state repo.old) (D.state repo.new)) }
    // Whatever else lies in the repository, nothing of it changes but the file's path.
    ensures puts { PutsByOrder stanza.now order.now (D.state repo.old) (D.state repo.new) (T.state tree.old) }
    ensures agrees { StaysAgreed stanza.now (D.state repo.old) (D.state repo.new) }
    ensures synced { StaysSynced stanza.now (D.state repo.old) (D.state repo.new) }
    ensures alike { StaysAlike stanza.now (D.state repo.old) (D.state repo.new) }
    ensures rest { OnNone (reached_by push_early result) (IsStill (D.state repo.old).view (D.state repo.new).view) }
    ensures looks { OnlyReadsFolder (T.state tree.old) (T.state tree.new) }
    ensures beside { StaysBeside stanza.now (D.state repo.old).view (D.state repo.new).view }
    ensures frame { CallsProperly (D.state repo.old) (D.state repo.new) }
    ensures cause { IfErr result (PushEnds D.state T.state stanza.now order.now repo.old repo.new tree.old tree.new) }
{
    match push_from(
        alloc,
        repo,
        tree,
        stanza,
        &at.id,
        &order.name,
        at.known.system,
        log,
        log.prefix(),
    ) {
        Ok((pushed, _)) => {
            let lines = pushed_lines(alloc, pushed, &order.text)?;
            Ok(Outcome::Finished { lines })
        }
        Err(fault) => Err(of_store(fault)),
    }
}

/// Stores the file under the id of the current cluster. As long as it has the locks nobody can release them.
pub fn push_file<D: Disk, T: DataFolder, K: Locks>(
    alloc: Global,
    repo: &mut D,
    tree: &mut T,
    _locks: &K,
    stanza: &str,
    order: PushOrder<'_>,
    known: &Control,
    info: &ArchiveInfo,
) -> Result<Outcome, Halt<PushFault>>
    requires locked { (K.state _locks.now).taken ≡ archive_lock stanza.now ∷ [] }
    requires shows { IfSome (T.state tree.old).nodes (λ f. FolderShows f known.now) }
    requires pair { IfSome (D.state repo.old).view.now (λ f. HasValue stanza.now f (archive_info_of info.now)) }
    requires valid { IsArchiveInfo (archive_info_of info.now) }
    // The command's steps are done, or a part of them, or none where it is refused.
    ensures does { DoesPush stanza.now order.entry (T.state tree.old) result (D.state repo.old) (D.state repo.new) }
    ensures stored { IfOk result (StoresBy D.state T.state stanza.now order.entry repo.old repo.new tree.old) }
    // No crash removes it.
    ensures lasts { IfOk result (LastsBy stanza.now order.entry (D.state repo.old) (D.state repo.new)) }
    // Whatever else lies in the repository, nothing of it changes but the file's path.
    ensures puts { PutsByOrder stanza.now order.entry (D.state repo.old) (D.state repo.new) (T.state tree.old) }
    ensures agrees { StaysAgreed stanza.now (D.state repo.old) (D.state repo.new) }
    ensures synced { StaysSynced stanza.now (D.state repo.old) (D.state repo.new) }
    ensures alike { StaysAlike stanza.now (D.state repo.old) (D.state repo.new) }
    ensures rest { OnNone (reached_by push_early result) (IsStill (D.state repo.old).view (D.state repo.new).view) }
    ensures looks { OnlyReadsFolder (T.state tree.old) (T.state tree.new) }
    ensures beside { StaysBeside stanza.now (D.state repo.old).view (D.state repo.new).view }
    ensures frame { CallsProperly (D.state repo.old) (D.state repo.new) }
    ensures cause { IfErr result (PushEnds D.state T.state stanza.now order.entry repo.old repo.new tree.old tree.new) }
{
    let id = id_of(info, known)?;
    let log = open_log_file(alloc, tree, order.path, &order.text, limit_of(&order.name))?;
    let at = Current { id, known };
    store(alloc, repo, tree, stanza, &order, &at, &log)
}
