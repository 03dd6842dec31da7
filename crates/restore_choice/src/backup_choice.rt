// Chooses the backup that is restored.
ghost use Rattle.std.specs.Prelude.{◌≡◌, ◌≢◌, true, false, map, option_map, IfOk, IfErr, IfSome};
ghost use Rattle.base_devices.specs.States.{OnlyReads};
ghost use Rattle.base_model.specs.InfoFiles.{IsLabel};
ghost use Rattle.base_model.specs.ManifestText.{IsManifest};
ghost use Rattle.base_model.specs.Text.{In};
ghost use Rattle.base_model.specs.Values.{Entry as SpecEntry, backup_info_of, entry_of, manifest_of};
ghost use Rattle.cmd_setup.specs.Readies.{IsArchiveOf, IsBackupOf};
ghost use Rattle.cmd_types.specs.Halts.{HaltCause};
ghost use Rattle.restore_choice.specs.Choices.{IsChoice};
ghost use Rattle.restore_choice.specs.Choosing.{Lists};
ghost use Rattle.restore_choice.specs.Judging.{of_load, JudgesLog, LogHalts, Judges, JudgeHalts, Searches, SearchHalts, Finds, FindHalts, ChoosesOn, ReadWith, ChoiceHalts, HaveLabels};
ghost use Rattle.restore_choice.specs.Views.{ancestry_of};

use crate::ancestry::{Ancestry, read_ancestry};
use crate::choice::{Bounds, Choice, Deadline};
use crate::fault::{ChoiceFault, DamagedManifest, missing};
use crate::manifest_load::load;
use crate::qualifying::{ended_before, log_fits, needs_log};
use base_devices::Disk;
use base_model::{ArchiveInfo, BackupInfo, Entry, Label, Manifest};
use cmd_types::Halt;
use std::alloc::Global;

/// The label of the chosen backup, and its manifest, where the choice has read it.
#[derive(Drop)]
pub struct Chosen {
    pub label: Label,
    pub manifest: Option<Manifest>,
}

// Whether one of these backups has the label.
fn has_label(backups: &[Entry], label: &Label) -> bool
    ensures some { result ≡ true → (e : SpecEntry) × In e (map entry_of backups.now) × (e.label ≡ label.now) }
    ensures none { result ≡ false → (e : SpecEntry) → In e (map entry_of backups.now) → e.label ≢ label.now }
{
    for entry in backups {
        if entry.label == *label {
            return true;
        }
    }
    false
}

// Which refusal of the choice it is that a manifest isn't read.
fn of_load(halt: Halt<DamagedManifest>) -> Halt<ChoiceFault>
    ensures { result ≡ of_load halt }
{
    match halt {
        Halt::Refused(fault) => Halt::Refused(ChoiceFault::ManifestDamaged(fault)),
        Halt::Failed(object) => Halt::Failed(object),
        Halt::NoMemory => Halt::NoMemory,
    }
}

// The backup with its manifest, where the part of the log fits that this states.
fn judge_log<D: Disk>(
    alloc: Global,
    repo: &mut D,
    stanza: &str,
    deadline: Option<Deadline>,
    ancestry: &Option<Ancestry>,
    label: &Label,
) -> Result<Option<Chosen>, Halt<ChoiceFault>>
    requires { IsLabel label.now }
    ensures judged { IfOk result (JudgesLog stanza.now (D.state repo.old) deadline ancestry.now label.now) }
    ensures looks { OnlyReads (D.state repo.old) (D.state repo.new) }
    ensures cause { IfErr result (LogHalts stanza.now label.now (D.state repo.old) (D.state repo.new)) }
{
    let manifest = match load(alloc, repo, stanza, label) {
        Ok(manifest) => manifest,
        Err(halt) => return Err(of_load(halt)),
    };
    if log_fits(deadline, ancestry, manifest.wal) {
        Ok(Some(Chosen {
            label: *label,
            manifest: Some(manifest),
        }))
    } else {
        Ok(None)
    }
}

// The backup, where it qualifies. Its manifest isn't read where its time excludes it, nor where its part of the log
// isn't asked for.
fn judge<D: Disk>(
    alloc: Global,
    repo: &mut D,
    stanza: &str,
    deadline: Option<Deadline>,
    ancestry: &Option<Ancestry>,
    entry: &Entry,
) -> Result<Option<Chosen>, Halt<ChoiceFault>>
    requires { IsLabel entry.now.label }
    ensures judged { IfOk result (Judges stanza.now (D.state repo.old) deadline ancestry.now entry.now) }
    ensures looks { OnlyReads (D.state repo.old) (D.state repo.new) }
    ensures cause { IfErr result (JudgeHalts stanza.now deadline (option_map ancestry_of ancestry.now)
        (entry_of entry.now) (D.state repo.old) (D.state repo.new)) }
{
    if !ended_before(deadline, entry.stop) {
        return Ok(None);
    }
    if !needs_log(deadline, ancestry) {
        return Ok(Some(Chosen {
            label: entry.label,
            manifest: None,
        }));
    }
    judge_log(alloc, repo, stanza, deadline, ancestry, &entry.label)
}

// The last of these backups that qualifies.
fn find<D: Disk>(
    alloc: Global,
    repo: &mut D,
    stanza: &str,
    deadline: Option<Deadline>,
    ancestry: &Option<Ancestry>,
    backups: &[Entry],
) -> Result<Option<Chosen>, Halt<ChoiceFault>>
    requires { HaveLabels backups.now }
    ensures found { IfOk result (Searches stanza.now (D.state repo.old) deadline ancestry.now backups.now) }
    ensures looks { OnlyReads (D.state repo.old) (D.state repo.new) }
    ensures cause { IfErr result (SearchHalts stanza.now deadline (option_map ancestry_of ancestry.now)
        (map entry_of backups.now) (D.state repo.old) (D.state repo.new)) }
{
    let mut rest = backups;
    while let Some((last, earlier)) = rest.split_last() {
        let judged = judge(alloc, repo, stanza, deadline, ancestry, last)?;
        if judged.is_some() {
            return Ok(judged);
        }
        rest = earlier;
    }
    Ok(None)
}

// The last of these backups that is within the bounds.
fn find_last<D: Disk>(
    alloc: Global,
    repo: &mut D,
    stanza: &str,
    archive: &ArchiveInfo,
    backups: &[Entry],
    bounds: &Bounds,
) -> Result<Chosen, Halt<ChoiceFault>>
    requires archive { IsArchiveOf stanza.now (D.state repo.old).view.now archive.now }
    requires labels { HaveLabels backups.now }
    ensures found { IfOk result (Finds stanza.now (D.state repo.old) bounds.now backups.now) }
    ensures looks { OnlyReads (D.state repo.old) (D.state repo.new) }
    ensures cause { IfErr result
        (FindHalts stanza.now bounds.now backups.now (D.state repo.old) (D.state repo.new)) }
{
    let ancestry = read_ancestry(alloc, repo, stanza, archive, bounds.timeline)?;
    match find(alloc, repo, stanza, bounds.deadline, &ancestry, backups)? {
        Some(chosen) => Ok(chosen),
        None => Err(Halt::Refused(ChoiceFault::TargetEarly)),
    }
}

/// The backup of the label that is asked for, or the last one that qualifies.
pub fn choose<D: Disk>(
    alloc: Global,
    repo: &mut D,
    stanza: &str,
    archive: &ArchiveInfo,
    list: &BackupInfo,
    choice: &Choice,
) -> Result<Chosen, Halt<ChoiceFault>>
    requires archive { IsArchiveOf stanza.now (D.state repo.old).view.now archive.now }
    requires list { IsBackupOf stanza.now (D.state repo.old).view.now list.now }
    requires choice { IsChoice choice.now }
    ensures chosen { IfOk result
        (ChoosesOn stanza.now choice.now (D.state repo.old).view.now (backup_info_of list.now)) }
    ensures rules { IfOk result (λ chosen. IsLabel chosen.label) }
    ensures read { IfOk result (ReadWith stanza.now (D.state repo.old).view.now) }
    ensures looks { OnlyReads (D.state repo.old) (D.state repo.new) }
    ensures cause { IfErr result
        (ChoiceHalts stanza.now choice.now (backup_info_of list.now) (D.state repo.old) (D.state repo.new)) }
{
    let backups = list.backups.as_slice();
    if backups.is_empty() {
        return Err(Halt::Refused(ChoiceFault::NoBackup));
    }
    match choice {
        Choice::Labelled(label) => {
            if !has_label(backups, label) {
                return Err(missing(alloc, label));
            }
            Ok(Chosen {
                label: *label,
                manifest: None,
            })
        }
        Choice::Last(bounds) => find_last(alloc, repo, stanza, archive, backups, bounds),
    }
}
