// Looks at what is needed and starts the workers, before the repository is changed.
ghost use Rattle.std.specs.Prelude.{◌≡◌, ◌<◌, ◌^◌, length, vec_len, IfOk, IfErr, IfSome, OnOk};
ghost use Rattle.base_devices.specs.States.{OnlyReadsFolder};
ghost use Rattle.base_model.specs.InfoFiles.{IsArchiveInfo, IsBackupInfo};
ghost use Rattle.base_model.specs.Values.{archive_info_of, backup_info_of};
ghost use Rattle.repo_stanza.specs.Judging.{IsOf};
ghost use Rattle.worker_pool.specs.Pools.{links_in};
ghost use Rattle.worker_pool.specs.Run.{AreReady};
ghost use Rattle.cmd_backup_common.specs.Beginning.{most_backups, IsStopped};
ghost use Rattle.cmd_backup_common.specs.Halting.{BeginHalts, ListsAll, ValidatesTo};
ghost use Rattle.cmd_backup_common.specs.Used.{LeavesUsed};

use crate::parts::data_listing::look;
use crate::parts::fault::BackupFault;
use crate::parts::order::{KnownStanza, TakeOrder};
use crate::parts::room_check::{check_room, fit};
use crate::parts::worker_setup::start_workers;
use base_devices::{DataFolder, FolderEntry, Link};
use base_model::BackupInfo;
use cmd_types::Halt;
use std::alloc::Global;
use worker_pool::Pool;

/// What a backup begins with: the stanza's list, and all that the data folder has.
#[derive(Drop)]
pub struct Begun {
    pub list: BackupInfo,
    pub seen: Vec<FolderEntry>,
}

/// Validates the stanza's list, lists the data folder, and starts the workers.
pub fn begin<T: DataFolder, L: Link, U>(
    alloc: Global,
    tree: &mut T,
    pool: &mut Pool<L, U>,
    order: &TakeOrder<'_>,
    stanza: KnownStanza<'_>,
) -> Result<Begun, Halt<BackupFault>>
    requires few { vec_len pool.old.links < 2 ^ 32 }
    requires ready { AreReady (links_in L.link_state pool.old) }
    requires archive { IsArchiveInfo (archive_info_of stanza.archive.now) }
    requires backup { IsBackupInfo (backup_info_of stanza.backup) }
    ensures settled { IfOk result (λ g. ValidatesTo stanza.entry.archive.now stanza.entry.backup g.list) }
    ensures of { OnOk result (IsOf stanza.entry.control.now (archive_info_of stanza.entry.archive.now)) }
    ensures valid { IfOk result (λ g. IsBackupInfo (backup_info_of g.list)) }
    ensures room { IfOk result (λ g. length (backup_info_of g.list).backups < most_backups) }
    ensures listing { IfOk result (λ g. ListsAll (T.state tree.old) g.seen.items) }
    ensures stopped { OnOk result (IfSome (T.state tree.old).nodes IsStopped) }
    ensures left { OnOk result (LeavesUsed order.now L.link_state pool.old pool.new) }
    ensures few { OnOk result (vec_len pool.new.links < 2 ^ 32) }
    ensures ready { OnOk result (AreReady (links_in L.link_state pool.new)) }
    ensures looks { OnlyReadsFolder (T.state tree.old) (T.state tree.new) }
    ensures cause { IfErr result (BeginHalts order.now stanza.entry L.link_state pool.old T.state tree.old tree.new) }
{
    let KnownStanza {
        name: _,
        control,
        archive,
        backup,
    } = stanza;
    let list = fit(archive, backup, control)?;
    let seen = look(alloc, tree)?;
    check_room(&list)?;
    start_workers(alloc, pool, order)?;
    Ok(Begun { list, seen })
}
