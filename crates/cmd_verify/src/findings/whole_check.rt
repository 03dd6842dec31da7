// Looks at a repository as a whole.
ghost use Rattle.std.specs.Prelude.{◌≡◌, IfOk, IfErr, IfSome, OnOk, IsErrOf, map};
ghost use Rattle.base_devices.specs.Cause.{Rises};
ghost use Rattle.base_model.specs.InfoFiles.{IsLabel, IsBackupInfo};
ghost use Rattle.base_model.specs.Values.{backup_info_of, entry_of, Entry as Listed};
ghost use Rattle.base_model.specs.Text.{In};
ghost use Rattle.archive_lookup.specs.Stored.{AreStored};
ghost use Rattle.cmd_verify.specs.Exact.{AreFindings};
ghost use Rattle.cmd_verify.specs.Faults.{VerifyFails};
ghost use Rattle.cmd_verify.specs.Looking.{AddsArchiveOf, AddsBackups, AddsPairs, HoldsBackupPair, NoneIfSound};
ghost use Rattle.cmd_verify.specs.PairsRead.{AddsContradictions, ArePairsValid, HoldsPairs};
ghost use Rattle.cmd_verify.specs.Sharing.{AreListed};
ghost use Rattle.base_devices.specs.States.{OnlyReads};

use crate::findings::archive::look_at_archive;
use crate::findings::backups::{StanzaLists, look_at_listed};
use crate::findings::contradictions::{tell_histories, tell_outside};
use crate::findings::finding::{Finding, LookFault, VerifyFault};
use crate::findings::order::put_in_order;
use crate::findings::pairs::look_at_pair;
use crate::findings::priors::tell_entries;
use archive_lookup::{Stored, all};
use base_devices::Disk;
use base_model::{ArchiveInfo, BackupInfo, Cluster, Entry, Label};
use base_text::NoMemory;
use std::alloc::Global;

// The labels that are listed.
fn labels_of(alloc: Global, listed: &[Entry]) -> Result<Vec<Label>, NoMemory>
    ensures { IfOk result (λ labels. labels.items ≡ map (λ (e : Listed). e.label) (map entry_of listed.now)) }
{
    let mut labels = Vec::new(alloc);
    for entry in listed {
        labels.push(entry.label)?;
    }
    Ok(labels)
}

// Each listed backup.
fn look_at_backups<D: Disk>(
    alloc: Global,
    d: &mut D,
    stanza: &str,
    history: &[Cluster],
    entries: &[Entry],
    lists: &StanzaLists<'_>,
    found: &mut Vec<Finding>,
) -> Result<(), LookFault>
    requires labels { (e : Listed) → In e (map entry_of entries.now) → IsLabel e.label }
    requires listed { IfSome (D.state d.old).view.now (λ f. AreListed stanza.now lists.now.labels.now f) }
    requires stored { IfSome (D.state d.old).view.now (λ f. AreStored stanza.now f lists.now.files.now) }
    ensures adds { OnOk result
        (AddsBackups stanza.now history.now entries.now (D.state d.old) found.old found.new) }
    ensures looks { OnlyReads (D.state d.old) (D.state d.new) }
    ensures cause { IsErrOf result LookFault.Disk → Rises (D.state d.old).faults (D.state d.new).faults }
{
    for entry in entries {
        look_at_listed(alloc, d, stanza, history, entry, lists, found)?;
    }
    Ok(())
}

/// The values of the two pairs, where they have one.
#[derive(Drop)]
pub(crate) struct PairsRead {
    pub archive: Option<ArchiveInfo>,
    pub backup: Option<BackupInfo>,
}

// The two pairs. The answer is their values.
fn look_at_pairs<D: Disk>(
    alloc: Global,
    d: &mut D,
    stanza: &str,
    found: &mut Vec<Finding>,
) -> Result<PairsRead, LookFault>
    ensures adds { OnOk result (AddsPairs stanza.now (D.state d.old) found.old found.new) }
    ensures values { IfOk result (HoldsPairs stanza.now (D.state d.old)) }
    ensures valid { IfOk result ArePairsValid }
    ensures looks { OnlyReads (D.state d.old) (D.state d.new) }
    ensures cause { IsErrOf result LookFault.Disk → Rises (D.state d.old).faults (D.state d.new).faults }
{
    let archive_name = format!(in alloc; "archive/{stanza}/archive.info")?;
    let backup_name = format!(in alloc; "backup/{stanza}/backup.info")?;
    let archive = look_at_pair(alloc, d, archive_name.as_str(), found)?;
    let backup = look_at_pair(alloc, d, backup_name.as_str(), found)?;
    Ok(PairsRead { archive, backup })
}

// What the values of the pairs, the names of the archive and the list contradict.
fn tell_contradictions(
    alloc: Global,
    stanza: &str,
    pairs: PairsRead,
    listed: &BackupInfo,
    files: &[Stored],
    found: &mut Vec<Finding>,
) -> Result<(), NoMemory>
    requires valid { ArePairsValid pairs }
    requires rules { IsBackupInfo (backup_info_of listed.now) }
    ensures { OnOk result (AddsContradictions stanza.now pairs listed.now files.now found.old found.new) }
{
    let PairsRead { archive, backup } = pairs;
    let name = format!(in alloc; "backup/{stanza}/backup.info")?;
    tell_outside(alloc, &archive, files, found)?;
    tell_histories(alloc, name.as_str(), &archive, backup, found)?;
    tell_entries(alloc, stanza, &listed.backups, found)?;
    Ok(())
}

// The stored segments. All archived files are reported.
fn look_at_files_of<D: Disk>(
    alloc: Global,
    d: &mut D,
    stanza: &str,
    found: &mut Vec<Finding>,
) -> Result<Vec<Stored>, VerifyFault>
    ensures adds { OnOk result (AddsArchiveOf stanza.now (D.state d.old) found.old found.new) }
    ensures stored { IfOk result
        (λ files. IfSome (D.state d.old).view.now (λ f. AreStored stanza.now f files.items)) }
    ensures looks { OnlyReads (D.state d.old) (D.state d.new) }
    ensures cause { IfErr result (VerifyFails stanza.now (D.state d.old) (D.state d.new)) }
{
    let files = all(alloc, d, stanza)?;
    look_at_archive(alloc, d, &files, found)?;
    Ok(files)
}

/// Each way in which the stanza's repository deviates, once, by name, then by kind, then by line (pgBackRest command
/// reference, "Verify Command"). The list is the one that the backup pair has.
pub fn verify<D: Disk>(
    alloc: Global,
    d: &mut D,
    stanza: &str,
    listed: &BackupInfo,
) -> Result<Vec<Finding>, VerifyFault>
    requires rules { IsBackupInfo (backup_info_of listed.now) }
    requires listed { HoldsBackupPair stanza.now (backup_info_of listed.now) (D.state d.old) }
    ensures exact { IfOk result
        (λ found. IfSome (D.state d.old).view.now (λ f. AreFindings stanza.now f found.items)) }
    ensures clean { IfOk result (NoneIfSound stanza.now (D.state d.old)) }
    ensures looks { OnlyReads (D.state d.old) (D.state d.new) }
    ensures cause { IfErr result (VerifyFails stanza.now (D.state d.old) (D.state d.new)) }
{
    let labels = labels_of(alloc, &listed.backups)?;
    let mut found = Vec::new(alloc);
    let pairs = look_at_pairs(alloc, d, stanza, &mut found)?;
    let files = look_at_files_of(alloc, d, stanza, &mut found)?;
    tell_contradictions(alloc, stanza, pairs, listed, &files, &mut found)?;
    look_at_backups(
        alloc,
        d,
        stanza,
        &listed.history,
        &listed.backups,
        &StanzaLists {
            labels: &labels,
            files: &files,
        },
        &mut found,
    )?;
    put_in_order(&mut found);
    Ok(found)
}
