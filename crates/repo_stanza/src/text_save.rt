// Saves the texts of a stanza's two pairs.
ghost use Rattle.std.specs.Prelude.{◌≡◌, OnOk, IsErrOf};
ghost use Rattle.base_devices.specs.States.{CallsProperly, DiskFailed};
ghost use Rattle.base_disk.specs.Store.{ChangesOnly};
ghost use Rattle.base_model.specs.Names.{archive_info, backup_info};
ghost use Rattle.repo_pair.specs.Member.{IsOfPair};
ghost use Rattle.repo_stanza.specs.Owned.{IsOfPairs};
ghost use Rattle.repo_stanza.specs.Saved.{archive_of, backup_of, SavesPair, SavesPairNow, EndsPair, EndsPairNow, SavesTexts, SavesTextsNow, EndsTexts, EndsTextsNow};

use crate::names::{archive_info_name, backup_info_name};
use base_devices::Disk;
use repo_pair::{SaveFault, save_text};
use std::alloc::Global;

// Saves the text at the members of the backup pair.
fn save_backup_text<D: Disk>(
    alloc: Global,
    d: &mut D,
    stanza: &str,
    text: &[u8],
) -> Result<(), SaveFault>
    ensures crash { SavesPair (backup_of stanza.now text.now) (D.state d.old) (D.state d.new) }
    ensures whole { OnOk result (EndsPair (backup_of stanza.now text.now) (D.state d.old) (D.state d.new)) }
    ensures now_part { SavesPairNow (backup_of stanza.now text.now) (D.state d.old) (D.state d.new) }
    ensures now_whole { OnOk result (EndsPairNow (backup_of stanza.now text.now) (D.state d.old) (D.state d.new)) }
    ensures only { ChangesOnly (IsOfPair (backup_info stanza.now)) (D.state d.old).view (D.state d.new).view }
    ensures frame { CallsProperly (D.state d.old) (D.state d.new) }
    ensures cause { IsErrOf result SaveFault.Disk → DiskFailed (D.state d.old) (D.state d.new) }
{
    let name = backup_info_name(alloc, stanza)?;
    save_text(alloc, d, name.as_str(), text)?;
    Ok(())
}

// The same for the archive pair.
fn save_archive_text<D: Disk>(
    alloc: Global,
    d: &mut D,
    stanza: &str,
    text: &[u8],
) -> Result<(), SaveFault>
    ensures crash { SavesPair (archive_of stanza.now text.now) (D.state d.old) (D.state d.new) }
    ensures whole { OnOk result (EndsPair (archive_of stanza.now text.now) (D.state d.old) (D.state d.new)) }
    ensures now_part { SavesPairNow (archive_of stanza.now text.now) (D.state d.old) (D.state d.new) }
    ensures now_whole { OnOk result (EndsPairNow (archive_of stanza.now text.now) (D.state d.old) (D.state d.new)) }
    ensures only { ChangesOnly (IsOfPair (archive_info stanza.now)) (D.state d.old).view (D.state d.new).view }
    ensures frame { CallsProperly (D.state d.old) (D.state d.new) }
    ensures cause { IsErrOf result SaveFault.Disk → DiskFailed (D.state d.old) (D.state d.new) }
{
    let name = archive_info_name(alloc, stanza)?;
    save_text(alloc, d, name.as_str(), text)?;
    Ok(())
}

/// Saves the backup pair, then the archive pair, whose main member upgrades the stanza.
pub(crate) fn save_texts<D: Disk>(
    alloc: Global,
    d: &mut D,
    stanza: &str,
    backup: &[u8],
    archive: &[u8],
) -> Result<(), SaveFault>
    ensures crash { SavesTexts stanza.now backup.now archive.now (D.state d.old) (D.state d.new) }
    ensures whole { OnOk result (EndsTexts stanza.now backup.now archive.now (D.state d.old) (D.state d.new)) }
    ensures now_part { SavesTextsNow stanza.now backup.now archive.now (D.state d.old) (D.state d.new) }
    ensures now_whole { OnOk result (EndsTextsNow stanza.now backup.now archive.now (D.state d.old) (D.state d.new)) }
    ensures only { ChangesOnly (IsOfPairs stanza.now) (D.state d.old).view (D.state d.new).view }
    ensures frame { CallsProperly (D.state d.old) (D.state d.new) }
    ensures cause { IsErrOf result SaveFault.Disk → DiskFailed (D.state d.old) (D.state d.new) }
{
    save_backup_text(alloc, d, stanza, backup)?;
    save_archive_text(alloc, d, stanza, archive)?;
    Ok(())
}
