// Saves the backup pair without what is removed.
ghost use Rattle.std.specs.Prelude.{◌≤◌, OnOk, IsErrOf, length};
ghost use Rattle.base_devices.specs.States.{CallsProperly};
ghost use Rattle.base_disk.specs.Store.{ChangesOnly};
ghost use Rattle.repo_pair.specs.Member.{IsOfPair};
ghost use Rattle.base_devices.specs.Cause.{Rises};
ghost use Rattle.base_model.specs.Names.{backup_info};
ghost use Rattle.base_model.specs.Values.{backup_info_of};
ghost use Rattle.base_model.specs.InfoFiles.{IsBackupInfo, info_limit};
ghost use Rattle.expire_make.specs.Planning.{list_text, SavesByCrash, SavesByEnd, SavesPartNow, SavesAllNow};

use base_devices::Disk;
use base_model::BackupInfo;
use repo_pair::{SaveFault, save_pair};
use repo_stanza::backup_info_name;
use std::alloc::Global;

/// Saves the value at the backup pair's main member, then at its copy.
pub(crate) fn save_left<D: Disk>(
    alloc: Global,
    d: &mut D,
    stanza: &str,
    left: &BackupInfo,
) -> Result<(), SaveFault>
    requires valid { IsBackupInfo (backup_info_of left.now) }
    requires within { length (list_text (backup_info_of left.now)) ≤ info_limit }
    ensures crash { SavesByCrash stanza.now (backup_info_of left.now) (D.state d.old) (D.state d.new) }
    ensures whole { OnOk result
        (SavesByEnd stanza.now (backup_info_of left.now) (D.state d.old) (D.state d.new)) }
    ensures now_part { SavesPartNow stanza.now (backup_info_of left.now) (D.state d.old) (D.state d.new) }
    ensures now_whole { OnOk result
        (SavesAllNow stanza.now (backup_info_of left.now) (D.state d.old) (D.state d.new)) }
    ensures only { ChangesOnly (IsOfPair (backup_info stanza.now)) (D.state d.old).view (D.state d.new).view }
    ensures frame { CallsProperly (D.state d.old) (D.state d.new) }
    ensures cause { IsErrOf result SaveFault.Disk → Rises (D.state d.old).faults (D.state d.new).faults }
{
    let name = backup_info_name(alloc, stanza)?;
    save_pair(alloc, d, name.as_str(), left)?;
    Ok(())
}
