// What comes before the server is asked.
ghost use Rattle.std.specs.Prelude.{◌≡◌, ◌≤◌, ◌<◌, ◌^◌, length, vec_len, IfOk, IfErr, OnOk};
ghost use Rattle.base_devices.specs.States.{OnlyReads, ShowsSecond};
ghost use Rattle.base_model.specs.InfoFiles.{IsArchiveInfo, IsBackupInfo};
ghost use Rattle.base_model.specs.Values.{archive_info_of, backup_info_of};
ghost use Rattle.repo_stanza.specs.Judging.{IsOf};
ghost use Rattle.worker_pool.specs.Pools.{links_in};
ghost use Rattle.worker_pool.specs.Run.{AreReady};
ghost use Rattle.cmd_backup_common.specs.Seconds.{IsNext};
ghost use Rattle.cmd_backup_common.specs.Beginning.{most_backups};
ghost use Rattle.cmd_backup_common.specs.Halting.{ValidatesTo};
ghost use Rattle.cmd_backup_common.specs.Used.{LeavesUsed};
ghost use Rattle.cmd_backup_online.specs.Halting.{PrepareHalts, ReadyHalts};
ghost use Rattle.cmd_backup_online.specs.Running.{PreparesBase};

use crate::order::NextBackup;
use base_devices::{Clock, Disk, Link};
use base_model::{BackupInfo, Manifest};
use cmd_backup_common::{
    BackupFault, KnownStanza, TakeOrder, check_room, fit, next_second, of_second, start_workers,
};
use cmd_backup_offline::{OfflineFault, OfflineOrder, load_base, of_backup};
use cmd_types::Halt;
use std::alloc::Global;
use worker_pool::Pool;

// Validates the stanza's list, and starts the workers.
fn ready<L: Link, U>(
    alloc: Global,
    pool: &mut Pool<L, U>,
    order: &TakeOrder<'_>,
    stanza: KnownStanza<'_>,
) -> Result<BackupInfo, Halt<BackupFault>>
    requires few { vec_len pool.old.links < 2 ^ 32 }
    requires ready { AreReady (links_in L.link_state pool.old) }
    requires archive { IsArchiveInfo (archive_info_of stanza.archive.now) }
    requires backup { IsBackupInfo (backup_info_of stanza.backup) }
    ensures settled { IfOk result (ValidatesTo stanza.entry.archive.now stanza.entry.backup) }
    ensures of { OnOk result (IsOf stanza.entry.control.now (archive_info_of stanza.entry.archive.now)) }
    ensures valid { IfOk result (λ w. IsBackupInfo (backup_info_of w)) }
    ensures room { IfOk result (λ w. length (backup_info_of w).backups < most_backups) }
    ensures left { OnOk result (LeavesUsed order.now L.link_state pool.old pool.new) }
    ensures few { OnOk result (vec_len pool.new.links < 2 ^ 32) }
    ensures ready { OnOk result (AreReady (links_in L.link_state pool.new)) }
    ensures cause { IfErr result (ReadyHalts order.now stanza.entry L.link_state pool.old) }
{
    let KnownStanza {
        name: _,
        control,
        archive,
        backup,
    } = stanza;
    let list = fit(archive, backup, control)?;
    check_room(&list)?;
    start_workers(alloc, pool, order)?;
    Ok(list)
}

/// What is known before the server is asked.
#[derive(Drop)]
pub(crate) struct Prepared {
    pub(crate) next: NextBackup,
    /// the manifest of the backup that this one is based on
    pub(crate) base: Option<Manifest>,
}

/// Validates the stanza's list, starts the workers, reads the manifest of the backup on which this one is based, and
/// returns the second by which it is named.
pub(crate) fn prepare<D: Disk, C: Clock, L: Link, U>(
    alloc: Global,
    repo: &mut D,
    clock: &mut C,
    pool: &mut Pool<L, U>,
    order: &OfflineOrder<'_>,
    stanza: KnownStanza<'_>,
) -> Result<Prepared, Halt<OfflineFault>>
    requires few { vec_len pool.old.links < 2 ^ 32 }
    requires ready { AreReady (links_in L.link_state pool.old) }
    requires archive { IsArchiveInfo (archive_info_of stanza.archive.now) }
    requires backup { IsBackupInfo (backup_info_of stanza.backup) }
    ensures settled { IfOk result (λ p. ValidatesTo stanza.entry.archive.now stanza.entry.backup p.next.list) }
    ensures of { OnOk result (IsOf stanza.entry.control.now (archive_info_of stanza.entry.archive.now)) }
    ensures valid { IfOk result (λ p. IsBackupInfo (backup_info_of p.next.list)) }
    ensures room { IfOk result (λ p. length (backup_info_of p.next.list).backups < most_backups) }
    ensures base { IfOk result (PreparesBase order.now stanza.entry (D.state repo.old)) }
    ensures next { IfOk result (λ p. IsNext p.next.second (backup_info_of p.next.list)) }
    ensures shows { IfOk result (λ p. ShowsSecond p.next.second (C.state clock.old) (C.state clock.new)) }
    ensures left { OnOk result (LeavesUsed order.now.take L.link_state pool.old pool.new) }
    ensures few { OnOk result (vec_len pool.new.links < 2 ^ 32) }
    ensures ready { OnOk result (AreReady (links_in L.link_state pool.new)) }
    ensures looks { OnlyReads (D.state repo.old) (D.state repo.new) }
    ensures least { (C.state clock.old).least ≤ (C.state clock.new).least }
    ensures later { (C.state clock.old).faults ≤ (C.state clock.new).faults }
    ensures cause { IfErr result (PrepareHalts order.now stanza.entry L.link_state pool.old D.state repo.old repo.new
        C.state clock.old clock.new) }
{
    let name = stanza.name;
    let list = match ready(alloc, pool, &order.take, stanza) {
        Ok(list) => list,
        Err(halt) => return Err(of_backup(halt)),
    };
    let base = load_base(alloc, repo, name, order.kind, &list)?;
    match next_second(alloc, repo, clock, name, &list) {
        Ok(second) => Ok(Prepared {
            next: NextBackup { list, second },
            base,
        }),
        Err(fault) => Err(of_backup(of_second(fault))),
    }
}
