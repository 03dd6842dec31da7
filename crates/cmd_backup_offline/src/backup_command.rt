// backup of a stopped server, of any kind.
ghost use Rattle.std.specs.Prelude.{◌≡◌, ◌≤◌, ◌<◌, ◌^◌, map, vec_len, option_map, IfOk, IfErr, OnOk};
ghost use Rattle.base_devices.specs.States.{CallsProperly, OnlyReadsFolder};
ghost use Rattle.base_model.specs.Values.{file_entry_of, manifest_of};
ghost use Rattle.base_crash_lists.specs.Beside.{StaysBeside};
ghost use Rattle.worker_pool.specs.Pools.{links_in};
ghost use Rattle.worker_pool.specs.Run.{AreReady};
ghost use Rattle.cmd_types.specs.Plans.{backup_lock};
ghost use Rattle.cmd_setup.specs.Readies.{IsArchiveOf, IsBackupOf};
ghost use Rattle.cmd_backup_offline.specs.Basing.{old_files};
ghost use Rattle.cmd_backup_offline.specs.Held.{IsHeld};
ghost use Rattle.cmd_backup_offline.specs.Tasks.{DoesOffline, OfflineHalts, MakesIt};
ghost use Rattle.cmd_backup_offline.specs.Touching.{CopiesLast, TouchesOne};

use crate::base_manifest::load_base;
use crate::fault::{OfflineFault, of_backup};
use crate::offline_backup::make_offline;
use crate::order::{BackupBasis, OfflineTask};
use base_devices::{Clock, DataFolder, Disk, Link, Locks, Scheduler};
use base_model::{FileEntry, Manifest};
use cmd_backup_common::begin;
use cmd_types::{Halt, Outcome};
use std::alloc::Global;
use worker_pool::Pool;

/// The files of a manifest, and none without one.
pub fn files_of(manifest: &Option<Manifest>) -> &[FileEntry]
    ensures { map file_entry_of result.now ≡ old_files (option_map manifest_of manifest.now) }
{
    match manifest {
        Some(manifest) => &manifest.files,
        None => &[],
    }
}

/// Makes a backup of a stopped server's data folder, and lists it as the stanza's last. It is of the kind that is asked
/// for, and a full one where there is no backup on which it could be based. The first links read the folder, as many as
/// the order has workers; the others aren't used. As long as it has the locks nobody can release them.
pub fn back_up_offline<D: Disk, T: DataFolder, C: Clock, K: Locks, L: Link, U: Scheduler>(
    alloc: Global,
    repo: &mut D,
    tree: &mut T,
    clock: &mut C,
    _locks: &K,
    pool: &mut Pool<L, U>,
    task: OfflineTask<'_>,
) -> Result<Outcome, Halt<OfflineFault>>
    requires locked { IsHeld (backup_lock task.stanza.name.now) (K.state _locks.now).taken }
    requires few { vec_len pool.old.links < 2 ^ 32 }
    requires ready { AreReady (links_in L.link_state pool.old) }
    requires archive { IsArchiveOf task.stanza.name.now (D.state repo.old).view.now task.stanza.archive.now }
    requires backup { IsBackupOf task.stanza.name.now (D.state repo.old).view.now task.stanza.backup }
    // In the log it is a backup of what the used links read, and, unless it is a full one, of what its prior has.
    ensures does { DoesOffline task.entry L.link_state pool.old result D.state repo.old repo.new }
    ensures taken { IfOk result (MakesIt task.entry L.link_state pool.old T.state tree.old D.state repo.old repo.new
        C.state clock.old clock.new) }
    // Whatever the repository holds, nothing changes but names of this backup, and the pair of the list. At Ok no crash
    // takes one of the two members of its manifest, or of the list.
    ensures only { TouchesOne task.entry.stanza.name.now (D.state repo.old).view (D.state repo.new).view }
    ensures lasts { OnOk result (CopiesLast task.entry.stanza.name.now (D.state repo.old).view
        (D.state repo.new).view) }
    ensures beside { StaysBeside task.entry.stanza.name.now (D.state repo.old).view (D.state repo.new).view }
    ensures frame { CallsProperly (D.state repo.old) (D.state repo.new) }
    ensures looks { OnlyReadsFolder (T.state tree.old) (T.state tree.new) }
    ensures later { (C.state clock.old).faults ≤ (C.state clock.new).faults }
    ensures least { (C.state clock.old).least ≤ (C.state clock.new).least }
    ensures cause { IfErr result (OfflineHalts task.entry L.link_state pool.old D.state repo.old repo.new
        T.state tree.old tree.new C.state clock.old clock.new) }
{
    let OfflineTask {
        order,
        stanza: known,
    } = task;
    let stanza = known.name;
    let begun = match begin(alloc, tree, pool, &order.take, known) {
        Ok(begun) => begun,
        Err(halt) => return Err(of_backup(halt)),
    };
    let base = load_base(alloc, repo, stanza, order.kind, &begun.list)?;
    let old = files_of(&base);
    let basis = BackupBasis { stanza, order, old };
    match make_offline(alloc, repo, pool, clock, &basis, begun) {
        Ok(outcome) => Ok(outcome),
        Err(halt) => Err(of_backup(halt)),
    }
}
