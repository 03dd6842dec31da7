// Mends the pairs of a stanza.
ghost use Rattle.std.specs.Prelude.{OnOk, IsErrOf};
ghost use Rattle.base_devices.specs.States.{CallsProperly, DiskFailed};
ghost use Rattle.base_disk.specs.Store.{ChangesOnly};
ghost use Rattle.base_model.specs.Names.{archive_info, backup_info};
ghost use Rattle.base_model.specs.Values.{archive_info_of, backup_info_of};
ghost use Rattle.base_model.specs.InfoFiles.{IsArchiveInfo, IsBackupInfo};
ghost use Rattle.repo_pair.specs.Member.{IsOfPair};
ghost use Rattle.repo_stanza.specs.Owned.{IsOfPairs};
ghost use Rattle.repo_stanza.specs.Saved.{archive_write, backup_write, MendsPair, MendsPairNow, PairHasText, MendsPairs, MendsPairsNow, PairsHaveTexts};

use crate::names::{archive_info_name, backup_info_name};
use crate::pair_rules::PairValues;
use base_devices::Disk;
use base_model::{ArchiveInfo, BackupInfo};
use repo_pair::{SaveFault, heal_members};
use std::alloc::Global;

// Gives each member of the archive pair the value's text, where it doesn't have it.
fn keep_archive<D: Disk>(
    alloc: Global,
    d: &mut D,
    stanza: &str,
    value: &ArchiveInfo,
) -> Result<(), SaveFault>
    requires { IsArchiveInfo (archive_info_of value.now) }
    ensures crash { MendsPair (archive_write stanza.now value.now) (D.state d.old) (D.state d.new) }
    ensures now_part { MendsPairNow (archive_write stanza.now value.now) (D.state d.old) (D.state d.new) }
    ensures healed_pair { OnOk result (PairHasText (archive_write stanza.now value.now) (D.state d.new)) }
    ensures only { ChangesOnly (IsOfPair (archive_info stanza.now)) (D.state d.old).view (D.state d.new).view }
    ensures frame { CallsProperly (D.state d.old) (D.state d.new) }
    ensures cause { IsErrOf result SaveFault.Disk → DiskFailed (D.state d.old) (D.state d.new) }
{
    let name = archive_info_name(alloc, stanza)?;
    heal_members(alloc, d, name.as_str(), value)?;
    Ok(())
}

// The same for the backup pair.
fn keep_backup<D: Disk>(
    alloc: Global,
    d: &mut D,
    stanza: &str,
    value: &BackupInfo,
) -> Result<(), SaveFault>
    requires { IsBackupInfo (backup_info_of value.now) }
    ensures crash { MendsPair (backup_write stanza.now value.now) (D.state d.old) (D.state d.new) }
    ensures now_part { MendsPairNow (backup_write stanza.now value.now) (D.state d.old) (D.state d.new) }
    ensures healed_pair { OnOk result (PairHasText (backup_write stanza.now value.now) (D.state d.new)) }
    ensures only { ChangesOnly (IsOfPair (backup_info stanza.now)) (D.state d.old).view (D.state d.new).view }
    ensures frame { CallsProperly (D.state d.old) (D.state d.new) }
    ensures cause { IsErrOf result SaveFault.Disk → DiskFailed (D.state d.old) (D.state d.new) }
{
    let name = backup_info_name(alloc, stanza)?;
    heal_members(alloc, d, name.as_str(), value)?;
    Ok(())
}

/// Gives each member of the two pairs its value's text, where it doesn't have it, the archive pair's first.
pub(crate) fn keep_stanza<D: Disk>(
    alloc: Global,
    d: &mut D,
    stanza: &str,
    kept: &PairValues,
) -> Result<(), SaveFault>
    requires archive { IsArchiveInfo (archive_info_of kept.now.archive) }
    requires backup { IsBackupInfo (backup_info_of kept.now.backup) }
    ensures crash { MendsPairs stanza.now kept.now (D.state d.old) (D.state d.new) }
    ensures now_part { MendsPairsNow stanza.now kept.now (D.state d.old) (D.state d.new) }
    ensures healed_pair { OnOk result (PairsHaveTexts stanza.now kept.now (D.state d.old) (D.state d.new)) }
    ensures only { ChangesOnly (IsOfPairs stanza.now) (D.state d.old).view (D.state d.new).view }
    ensures frame { CallsProperly (D.state d.old) (D.state d.new) }
    ensures cause { IsErrOf result SaveFault.Disk → DiskFailed (D.state d.old) (D.state d.new) }
{
    keep_archive(alloc, d, stanza, &kept.archive)?;
    keep_backup(alloc, d, stanza, &kept.backup)?;
    Ok(())
}
