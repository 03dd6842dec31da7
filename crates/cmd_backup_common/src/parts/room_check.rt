// Whether the stanza may have one more backup.
ghost use Rattle.std.specs.Prelude.{◌≡◌, ◌<◌, ◌≤◌, IfOk, IfErr, OnOk, length};
ghost use Rattle.base_model.specs.InfoFiles.{IsArchiveInfo, IsBackupInfo};
ghost use Rattle.base_model.specs.Values.{archive_info_of, backup_info_of};
ghost use Rattle.repo_stanza.specs.Judging.{IsOf};
ghost use Rattle.cmd_types.specs.Halts.{HaltCause};
ghost use Rattle.cmd_backup_common.specs.Beginning.{most_backups, RoomCause};
ghost use Rattle.cmd_backup_common.specs.Halting.{FitHalts, ValidatesTo};

use crate::parts::fault::{BackupFault, of_stanza};
use base_model::{ArchiveInfo, BackupInfo};
use cmd_types::Halt;
use repo_stanza::{Control, fit_list};

/// This many backups are listed at most.
const MOST_BACKUPS: usize = 10_000;

/// The stanza's list without a cluster that is still to come, where the pairs' values are of the cluster that is given.
pub fn fit(
    archive: &ArchiveInfo,
    backup: BackupInfo,
    known: &Control,
) -> Result<BackupInfo, Halt<BackupFault>>
    requires archive { IsArchiveInfo (archive_info_of archive.now) }
    requires backup { IsBackupInfo (backup_info_of backup) }
    ensures settled { IfOk result (ValidatesTo archive.now backup) }
    ensures of { OnOk result (IsOf known.now (archive_info_of archive.now)) }
    ensures valid { IfOk result (λ w. IsBackupInfo (backup_info_of w)) }
    ensures cause { IfErr result (FitHalts known.now archive.now backup) }
{
    match fit_list(archive, backup, known) {
        Ok(list) => Ok(list),
        Err(fault) => Err(of_stanza(fault)),
    }
}

/// Refuses a list that is full.
pub fn check_room(list: &BackupInfo) -> Result<(), Halt<BackupFault>>
    ensures room { OnOk result (length (backup_info_of list.now).backups < most_backups) }
    ensures cause { IfErr result (HaltCause (RoomCause (backup_info_of list.now)) (λ _. ⊥)) }
{
    if list.backups.len() >= MOST_BACKUPS {
        return Err(Halt::Refused(BackupFault::TooMany {
            limit: MOST_BACKUPS as u64,
        }));
    }
    Ok(())
}
