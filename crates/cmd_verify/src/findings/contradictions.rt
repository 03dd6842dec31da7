// What the two pairs and the archive's names contradict.
ghost use Rattle.std.specs.Prelude.{◌≡◌, false, IfOk, IfSome, IsTrue, OnOk, string_bytes};
ghost use Rattle.base_model.specs.InfoFiles.{IsArchiveInfo, IsBackupInfo};
ghost use Rattle.base_model.specs.Values.{archive_info_of, backup_info_of};
ghost use Rattle.repo_stanza.specs.Pairs.{AreTogether};
ghost use Rattle.cmd_verify.specs.Adding.{Adds, OfSome};
ghost use Rattle.cmd_verify.specs.Contradicting.{AddsApart, AddsHistories, AddsOutside, IsOutsideOf, ShowsLine};
ghost use Rattle.cmd_verify.specs.Contradictions.{HasId, IsIdOf};

use crate::findings::finding::{Finding, FindingKind};
use archive_lookup::Stored;
use base_model::{ArchiveId, ArchiveInfo, BackupInfo, ClusterId};
use base_text::NoMemory;
use repo_stanza::validate_list;
use std::alloc::Global;

/// A contradiction at a name.
pub(crate) fn contradiction(alloc: Global, name: &str, line: &str) -> Result<Finding, NoMemory>
    ensures { IfOk result (ShowsLine name.now line.now) }
{
    Ok(Finding {
        name: String::from_str(alloc, name)?,
        kind: FindingKind::Contradiction,
        line: String::from_str(alloc, line)?,
    })
}

// Whether the files of the cluster lie under this id.
fn is_id_of(cluster: &ClusterId, id: ArchiveId) -> bool
    ensures yes { IsTrue result → IsIdOf id cluster.now }
    ensures no { result ≡ false → ¬ IsIdOf id cluster.now }
{
    id.version == cluster.version && id.number == cluster.id
}

// Whether those of a cluster of the history do.
fn has_id(history: &[ClusterId], id: ArchiveId) -> bool
    ensures yes { IsTrue result → HasId history.now id }
    ensures no { result ≡ false → ¬ HasId history.now id }
{
    for cluster in history {
        if is_id_of(cluster, id) {
            return true;
        }
    }
    false
}

// An archived file, where it lies under an id of no cluster of the history.
fn tell_file(
    alloc: Global,
    history: &[ClusterId],
    file: &Stored,
    found: &mut Vec<Finding>,
) -> Result<(), NoMemory>
    ensures { OnOk result (Adds (IsOutsideOf history.now file.now) found.old.items found.new.items) }
{
    if !has_id(history, file.id) {
        found.push(contradiction(alloc, file.path.as_str(), "cluster not in the history")?)?;
    }
    Ok(())
}

// The archived files that do.
fn tell_files(
    alloc: Global,
    history: &[ClusterId],
    files: &[Stored],
    found: &mut Vec<Finding>,
) -> Result<(), NoMemory>
    ensures { OnOk result (Adds (OfSome (IsOutsideOf history.now) files.now) found.old.items found.new.items) }
{
    for file in files {
        tell_file(alloc, history, file, found)?;
    }
    Ok(())
}

/// Reports the archived files that lie under an id of no cluster of the archive pair's history.
pub(crate) fn tell_outside(
    alloc: Global,
    archive: &Option<ArchiveInfo>,
    files: &[Stored],
    found: &mut Vec<Finding>,
) -> Result<(), NoMemory>
    ensures { OnOk result (AddsOutside archive.now files.now found.old found.new) }
{
    let Some(archive) = archive else {
        return Ok(());
    };
    tell_files(alloc, &archive.history, files, found)?;
    Ok(())
}

// Whether the histories fit together.
fn are_together(archive: &ArchiveInfo, backup: BackupInfo) -> bool
    requires archive { IsArchiveInfo (archive_info_of archive.now) }
    requires backup { IsBackupInfo (backup_info_of backup) }
    ensures yes { IsTrue result → AreTogether (archive_info_of archive.now) (backup_info_of backup) }
    ensures no { result ≡ false → ¬ AreTogether (archive_info_of archive.now) (backup_info_of backup) }
{
    match validate_list(archive, backup) {
        Ok(_) => true,
        Err(_) => false,
    }
}

// That they don't.
fn tell_apart(
    alloc: Global,
    name: &str,
    archive: &ArchiveInfo,
    backup: BackupInfo,
    found: &mut Vec<Finding>,
) -> Result<(), NoMemory>
    requires archive { IsArchiveInfo (archive_info_of archive.now) }
    requires backup { IsBackupInfo (backup_info_of backup) }
    ensures { OnOk result (AddsApart name.now archive.now backup found.old found.new) }
{
    if !are_together(archive, backup) {
        found.push(contradiction(alloc, name, "history differs from archive.info")?)?;
    }
    Ok(())
}

/// Reports at the name of the backup pair that the histories of the two pairs don't fit together.
pub(crate) fn tell_histories(
    alloc: Global,
    name: &str,
    archive: &Option<ArchiveInfo>,
    backup: Option<BackupInfo>,
    found: &mut Vec<Finding>,
) -> Result<(), NoMemory>
    requires archive { IfSome archive.now (λ a. IsArchiveInfo (archive_info_of a)) }
    requires backup { IfSome backup (λ b. IsBackupInfo (backup_info_of b)) }
    ensures { OnOk result (AddsHistories name.now archive.now backup found.old found.new) }
{
    let Some(archive) = archive else {
        return Ok(());
    };
    let Some(backup) = backup else {
        return Ok(());
    };
    tell_apart(alloc, name, archive, backup, found)?;
    Ok(())
}
