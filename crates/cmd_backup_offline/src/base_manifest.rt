// The manifest of the backup that a further one is based on.
ghost use Rattle.std.specs.Prelude.{◌≡◌, IfOk, IfErr, IfSome};
ghost use Rattle.base_devices.specs.States.{OnlyReads};
ghost use Rattle.base_model.specs.InfoFiles.{IsBackupInfo, IsLabel};
ghost use Rattle.base_model.specs.Values.{backup_info_of};
ghost use Rattle.cmd_backup_offline.specs.Basing.{base_label};
ghost use Rattle.cmd_backup_offline.specs.Basis.{BaseHalts, LoadsBase};

use crate::fault::{OfflineFault, of_pair};
use base_devices::Disk;
use base_model::{BackupInfo, BackupKind, Label, Manifest};
use cmd_backup_common::{current_cluster, prior_of};
use cmd_types::Halt;
use repo_manifest::load_manifest;
use std::alloc::Global;

// The label of the listed backup that one of this kind is based on, where there is one.
fn base_label(kind: BackupKind, list: &BackupInfo) -> Option<Label>
    requires { IsBackupInfo (backup_info_of list.now) }
    ensures label { result ≡ base_label kind (backup_info_of list.now) }
    ensures rules { IfSome result IsLabel }
{
    let cluster = current_cluster(list);
    match prior_of(kind, cluster.id, &list.backups) {
        Some(entry) => Some(entry.label),
        None => None,
    }
}

/// The manifest of the listed backup that one of this kind is based on, where there is one.
pub fn load_base<D: Disk>(
    alloc: Global,
    repo: &mut D,
    stanza: &str,
    kind: BackupKind,
    list: &BackupInfo,
) -> Result<Option<Manifest>, Halt<OfflineFault>>
    requires { IsBackupInfo (backup_info_of list.now) }
    ensures reads { IfOk result (LoadsBase stanza.now kind list.now (D.state repo.old)) }
    ensures looks { OnlyReads (D.state repo.old) (D.state repo.new) }
    ensures cause { IfErr result (BaseHalts stanza.now kind list.now (D.state repo.old) (D.state repo.new)) }
{
    let Some(label) = base_label(kind, list) else {
        return Ok(None);
    };
    match load_manifest(alloc, repo, stanza, &label) {
        Ok(manifest) => Ok(Some(manifest)),
        Err(fault) => Err(of_pair(alloc, &label, fault)),
    }
}
