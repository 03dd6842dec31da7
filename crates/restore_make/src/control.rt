// Puts the control file in its place last.
ghost use Rattle.std.specs.Prelude.{◌≡◌, ◌≢◌, ◌<◌, ◌≤◌, ◌^◌, true, map, vec_len, IfOk, OnOk, OnErr, IfErr, IfSome, IfNone};
ghost use Rattle.base_devices.specs.Cause.{HasCause};
ghost use Rattle.base_devices.specs.States.{AllSynced, MovesProperly};
ghost use Rattle.base_model.specs.InfoFiles.{IsLabel};
ghost use Rattle.base_model.specs.Text.{In};
ghost use Rattle.base_model.specs.Values.{FileEntry as Entry, file_entry_of};
ghost use Rattle.base_model.specs.StanzaName.{is_stanza};
ghost use Rattle.worker_pool.specs.Pools.{links_in};
ghost use Rattle.worker_pool.specs.Run.{AreReady};
ghost use Rattle.restore_steps.specs.Files.{temporary_path, SameBeside};
ghost use Rattle.restore_steps.specs.Clearing.{control_path, StaysNone};
ghost use Rattle.restore_steps.specs.Sources.{IsEntry};
ghost use Rattle.restore_steps.specs.Trees.{ProperAt};
ghost use Rattle.restore_make.specs.Finished.{waiting_path, IsAway};
ghost use Rattle.restore_make.specs.Faults.{Renames};
ghost use Rattle.restore_make.specs.Controlled.{IsControlOf, HasBackupFile, StaysAway, MovesControl, ChangesControl, FailsToFetch};

use crate::fault::FillFault;
use crate::file_jobs::FileJobs;
use crate::file_writes::write_files;
use base_devices::{DataFolder, DeviceError, Link, Scheduler};
use base_model::{FileEntry, Label};
use restore_steps::{Wanted, begin_timed, is_control, source_job};
use std::alloc::{AllocError, Global};
use worker_pool::Pool;

// The control file, and the name under which it waits until all else is valid.
const CONTROL: &str = "global/pg_control";

const WAITING: &str = "global/pg_control.pgbackrest.tmp";

/// A file of a backup: the stanza, the backup's own label, and the file's entry.
#[derive(Clone, Copy)]
pub(crate) struct BackupFile<'a> {
    pub(crate) stanza: &'a str,
    pub(crate) own: &'a Label,
    pub(crate) entry: &'a FileEntry,
}

/// The entry of the control file.
pub(crate) fn control_of(files: &[FileEntry]) -> Option<&FileEntry>
    ensures some { IfSome result (λ e. IsControlOf (map file_entry_of files.now) (file_entry_of e.now)) }
    ensures none { IfNone result ((e : Entry) → In e (map file_entry_of files.now) → e.path ≢ control_path) }
{
    for file in files {
        if is_control(&file.path) {
            return Some(file);
        }
    }
    None
}

// The fault of a file that is written under another name, by its own.
fn renamed(alloc: Global, path: &str, fault: FillFault) -> Result<FillFault, AllocError>
    ensures { IfOk result (λ e. Renames path.now fault e) }
{
    match fault {
        FillFault::FileDamaged { known, found, .. } => Ok(FillFault::FileDamaged {
            path: String::from_str(alloc, path)?,
            known,
            found,
        }),
        FillFault::Unread { .. } => Ok(FillFault::Unread {
            path: String::from_str(alloc, path)?,
        }),
        FillFault::WorkersLost => Ok(FillFault::WorkersLost),
        FillFault::DataFolder => Ok(FillFault::DataFolder),
        FillFault::NoMemory => Ok(FillFault::NoMemory),
    }
}

// Has one file read and written at a path.
fn fetch<T: DataFolder, L: Link, U: Scheduler>(
    alloc: Global,
    file: &BackupFile<'_>,
    path: &str,
    pool: &mut Pool<L, U>,
    tree: &mut T,
) -> Result<(), FillFault>
    requires few { vec_len pool.old.links < 2 ^ 32 }
    requires ready { AreReady (links_in L.link_state pool.old) }
    requires stanza { is_stanza file.now.stanza.now ≡ true }
    requires own { IsLabel file.now.own.now }
    requires entry { IsEntry (file_entry_of file.now.entry.now) }
    requires some { 0 < file.now.entry.now.size }
    ensures fetched { OnOk result (HasBackupFile file.now path.now L.link_state pool.old (T.state tree.new)) }
    ensures alone { OnOk result (IsAway (temporary_path path.now) (T.state tree.new).nodes) }
    ensures others { SameBeside path.now (T.state tree.old).nodes (T.state tree.new).nodes }
    ensures proper { ProperAt path.now (T.state tree.old) (T.state tree.new) }
    ensures opened { (T.state tree.new).opened ≡ (T.state tree.old).opened }
    ensures later { (T.state tree.old).faults ≤ (T.state tree.new).faults }
    ensures fault { IfErr result (FailsToFetch file.now L.link_state pool.old pool.new T.state tree.old tree.new) }
{
    let mut jobs = Vec::new(alloc);
    jobs.push(source_job(alloc, file.stanza, file.own, file.entry)?)?;
    let wanted = [Wanted {
        path,
        size: file.entry.size,
        sum: file.entry.sum,
        time: file.entry.time,
    }];
    let asked = FileJobs {
        jobs: &jobs,
        wanted: &wanted,
    };
    match write_files(alloc, &asked, pool, tree) {
        Ok(()) => Ok(()),
        Err(fault) => Err(renamed(alloc, &file.entry.path, fault)?),
    }
}

// The control file is written, with bytes or without, and with its time.
fn stage<T: DataFolder, L: Link, U: Scheduler>(
    alloc: Global,
    file: &BackupFile<'_>,
    pool: &mut Pool<L, U>,
    tree: &mut T,
) -> Result<(), FillFault>
    requires few { vec_len pool.old.links < 2 ^ 32 }
    requires ready { AreReady (links_in L.link_state pool.old) }
    requires stanza { is_stanza file.now.stanza.now ≡ true }
    requires own { IsLabel file.now.own.now }
    requires entry { IsEntry (file_entry_of file.now.entry.now) }
    ensures waits { OnOk result (HasBackupFile file.now waiting_path L.link_state pool.old (T.state tree.new)) }
    ensures clean { OnOk result (StaysAway (temporary_path waiting_path) (T.state tree.old) (T.state tree.new)) }
    ensures others { SameBeside waiting_path (T.state tree.old).nodes (T.state tree.new).nodes }
    ensures proper { ProperAt control_path (T.state tree.old) (T.state tree.new) }
    ensures opened { (T.state tree.new).opened ≡ (T.state tree.old).opened }
    ensures later { (T.state tree.old).faults ≤ (T.state tree.new).faults }
    ensures fault { IfErr result (FailsToFetch file.now L.link_state pool.old pool.new T.state tree.old tree.new) }
{
    if file.entry.size == 0 {
        begin_timed(tree, WAITING, file.entry.time)?;
        return Ok(());
    }
    fetch(alloc, file, WAITING, pool, tree)
}

// Syncs all that was done, and then puts the control file in its place.
fn place_synced<T: DataFolder>(tree: &mut T) -> Result<(), DeviceError>
    ensures nodes { MovesControl result (T.state tree.old) (T.state tree.new) }
    ensures synced { OnOk result (AllSynced (T.state tree.new)) }
    ensures proper { MovesProperly waiting_path control_path (T.state tree.old) (T.state tree.new) }
    ensures opened { (T.state tree.new).opened ≡ (T.state tree.old).opened }
    ensures cause { HasCause (T.state tree.old).faults (T.state tree.new).faults result }
{
    tree.sync()?;
    tree.rename_synced(WAITING, CONTROL)
}

/// Writes the control file, and puts it in its place last of all.
pub(crate) fn put_control<T: DataFolder, L: Link, U: Scheduler>(
    alloc: Global,
    file: &BackupFile<'_>,
    pool: &mut Pool<L, U>,
    tree: &mut T,
) -> Result<(), FillFault>
    requires few { vec_len pool.old.links < 2 ^ 32 }
    requires ready { AreReady (links_in L.link_state pool.old) }
    requires stanza { is_stanza file.now.stanza.now ≡ true }
    requires own { IsLabel file.now.own.now }
    requires entry { IsEntry (file_entry_of file.now.entry.now) }
    ensures put { OnOk result (HasBackupFile file.now control_path L.link_state pool.old (T.state tree.new)) }
    ensures waiting { OnOk result (IsAway waiting_path (T.state tree.new).nodes) }
    ensures clean { OnOk result (StaysAway (temporary_path waiting_path) (T.state tree.old) (T.state tree.new)) }
    ensures others { ChangesControl (T.state tree.old) (T.state tree.new) }
    // A crash leaves all of it.
    ensures synced { OnOk result (AllSynced (T.state tree.new)) }
    // Where it isn't put there, none is there.
    ensures none { OnErr result (StaysNone control_path (T.state tree.old).nodes (T.state tree.new).nodes) }
    // Where the file's folder is there, no call is faulty.
    ensures proper { ProperAt control_path (T.state tree.old) (T.state tree.new) }
    ensures opened { (T.state tree.new).opened ≡ (T.state tree.old).opened }
    ensures later { (T.state tree.old).faults ≤ (T.state tree.new).faults }
    ensures fault { IfErr result (FailsToFetch file.now L.link_state pool.old pool.new T.state tree.old tree.new) }
{
    stage(alloc, file, pool, tree)?;
    place_synced(tree)?;
    Ok(())
}
