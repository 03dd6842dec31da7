// Whether the values of a stanza's two pairs fit together, and are of a cluster.
ghost use Rattle.std.specs.Prelude.{◌≡◌, ◌≢◌, ◌⊎◌, ◌+◌, ◌<◌, ◌≤◌, ◌∷◌, ◌++◌, true, false, [], length, map, slice_get, IfOk, IfErr, IfSome, IfNone, OnOk};
ghost use Rattle.base_model.specs.declared.clusters.Cluster.{Cluster};
ghost use Rattle.base_model.specs.Text.{In};
ghost use Rattle.base_model.specs.Values.{archive_info_of, backup_info_of, entry_of, Entry as SpecEntry};
ghost use Rattle.base_model.specs.InfoFiles.{IsArchiveInfo, IsBackupInfo, IsLabel};
ghost use Rattle.base_model.specs.Repository.{identity_of};
ghost use Rattle.repo_stanza.specs.Pairs.{DifferFirst, HasPending};
ghost use Rattle.repo_stanza.specs.Judging.{IsValidated, IsNoLonger, IsOf, ListsNone, ShowsDifference, ShowsOther, ShowsLost, Unfit};
ghost use Rattle.repo_stanza.specs.Causes.{IfLost};

use crate::control::Control;
use crate::fault::{Identity, StanzaFault};
use base_model::{ArchiveInfo, BackupInfo, Cluster, ClusterId, Entry};

/// The values of a stanza's two pairs.
#[derive(Debug, Drop)]
pub(crate) struct PairValues {
    pub archive: ArchiveInfo,
    /// without a cluster that is still to come
    pub backup: BackupInfo,
}

pub(crate) fn identity_of(cluster: &Cluster) -> ClusterId
    ensures { result ≡ identity_of cluster.now }
{
    ClusterId {
        id: cluster.id,
        system: cluster.system,
        version: cluster.version,
    }
}

// Whether both histories have the same cluster at this place, or neither has one.
fn agree_at(archive: &[ClusterId], backup: &[Cluster], place: usize) -> bool
    ensures same { result ≡ true → slice_get archive.now place ≡ slice_get (map identity_of backup.now) place }
    ensures other { result ≡ false → slice_get archive.now place ≢ slice_get (map identity_of backup.now) place }
{
    match (archive.get(place), backup.get(place)) {
        (Some(kept), Some(cluster)) => *kept == identity_of(cluster),
        (None, None) => true,
        _ => false,
    }
}

// The first place at which the histories differ.
fn first_difference(archive: &[ClusterId], backup: &[Cluster]) -> Option<usize>
    ensures none { IfNone result (archive.now ≡ map identity_of backup.now) }
    ensures some { IfSome result (λ place. DifferFirst (place + 1) archive.now (map identity_of backup.now)) }
    ensures within { IfSome result (λ place. (place < length archive.now) ⊎ (place < length backup.now)) }
{
    let longest = archive.len().max(backup.len());
    for place in 0..longest {
        if !agree_at(archive, backup, place) {
            return Some(place);
        }
    }
    None
}

// Whether a listed backup is of this cluster.
fn lists_cluster(backups: &[Entry], id: u32) -> bool
    ensures some { result ≡ true → (e : SpecEntry) × In e (map entry_of backups.now) × (e.db ≡ id) }
    ensures none { result ≡ false → (e : SpecEntry) → In e (map entry_of backups.now) → e.db ≢ id }
{
    for entry in backups {
        if entry.db == id {
            return true;
        }
    }
    false
}

// Whether the backup pair states one cluster more than the archive pair, as its current one and no listed backup's.
fn has_pending(archive: &ArchiveInfo, backup: &BackupInfo) -> bool
    requires { IsBackupInfo (backup_info_of backup.now) }
    ensures one { result ≡ true → length backup.now.history.items ≡ length archive.now.history.items + 1 }
    ensures current { result ≡ true → backup.now.current ≡ length backup.now.history.items }
    ensures unused { result ≡ true → ListsNone (backup_info_of backup.now) backup.now.current }
    ensures other { result ≡ false → ¬ HasPending (archive_info_of archive.now) (backup_info_of backup.now) }
{
    if backup.history.len() != archive.history.len() + 1 {
        return false;
    }
    if backup.current as usize != backup.history.len() {
        return false;
    }
    !lists_cluster(&backup.backups, backup.current)
}

// The value without the last cluster of its history, of which no backup is listed.
fn without_last(mut backup: BackupInfo) -> BackupInfo
    requires valid { IsBackupInfo (backup_info_of backup) }
    requires some { 2 ≤ length backup.history.items }
    requires unused { ListsNone (backup_info_of backup) (length backup.history.items) }
    ensures history { (last : Cluster) × (backup.history.items ≡ result.history.items ++ last ∷ []) }
    ensures current { result.current ≡ length result.history.items }
    ensures backups { (backup_info_of result).backups ≡ (backup_info_of backup).backups }
    ensures valid { IsBackupInfo (backup_info_of result) }
    ensures shorter { IsNoLonger backup result }
{
    backup.history.pop();
    backup.current = backup.history.len() as u32;
    backup
}

/// The backup pair's value without a cluster that is still to come, where the two values fit together.
pub fn validate_list(archive: &ArchiveInfo, backup: BackupInfo) -> Result<BackupInfo, StanzaFault>
    requires archive { IsArchiveInfo (archive_info_of archive.now) }
    requires backup { IsBackupInfo (backup_info_of backup) }
    ensures settled { IfOk result (IsValidated archive.now backup) }
    ensures valid { IfOk result (λ w. IsBackupInfo (backup_info_of w)) }
    ensures shorter { IfOk result (IsNoLonger backup) }
    ensures differ { IfErr result (ShowsDifference (archive_info_of archive.now) (backup_info_of backup)) }
    ensures label { IfErr result (λ e. IfLost e IsLabel) }
{
    let Some(place) = first_difference(&archive.history, &backup.history) else {
        return Ok(backup);
    };
    if place == archive.history.len() && has_pending(archive, &backup) {
        return Ok(without_last(backup));
    }
    Err(StanzaFault::HistoryDiffers {
        at: place as u32 + 1,
    })
}

/// Whether the current cluster is of the system identifier and version that are given.
pub(crate) fn is_of(archive: &ArchiveInfo, known: &Control) -> bool
    requires { IsArchiveInfo (archive_info_of archive.now) }
    ensures same { result ≡ true → IsOf known.now (archive_info_of archive.now) }
    ensures other { result ≡ false → ¬ IsOf known.now (archive_info_of archive.now) }
{
    let current = &archive.history[archive.current as usize - 1];
    current.system == known.system && current.version == known.version
}

// Whether the current cluster is the one that is given.
fn check_current(archive: &ArchiveInfo, known: &Control) -> Result<(), StanzaFault>
    requires { IsArchiveInfo (archive_info_of archive.now) }
    ensures same { OnOk result (IsOf known.now (archive_info_of archive.now)) }
    ensures other { IfErr result (ShowsOther known.now (archive_info_of archive.now)) }
    ensures label { IfErr result (λ e. IfLost e IsLabel) }
{
    let current = &archive.history[archive.current as usize - 1];
    let kept = Identity {
        system: current.system,
        version: current.version,
    };
    let found = Identity {
        system: known.system,
        version: known.version,
    };
    if kept != found {
        return Err(StanzaFault::StanzaMismatch { kept, found });
    }
    Ok(())
}

/// The stanza's list without a cluster that is still to come, where the two values fit together and are of the cluster
/// that is given.
pub fn fit_list(
    archive: &ArchiveInfo,
    backup: BackupInfo,
    known: &Control,
) -> Result<BackupInfo, StanzaFault>
    requires archive { IsArchiveInfo (archive_info_of archive.now) }
    requires backup { IsBackupInfo (backup_info_of backup) }
    ensures settled { IfOk result (IsValidated archive.now backup) }
    ensures of { OnOk result (IsOf known.now (archive_info_of archive.now)) }
    ensures valid { IfOk result (λ w. IsBackupInfo (backup_info_of w)) }
    ensures unfit { IfErr result (Unfit known.now (archive_info_of archive.now) (backup_info_of backup)) }
    ensures label { IfErr result (λ e. IfLost e IsLabel) }
{
    let backup = validate_list(archive, backup)?;
    check_current(archive, known)?;
    Ok(backup)
}

/// What is kept of two values that fit together and are of the cluster that is given.
pub(crate) fn fit(
    archive: ArchiveInfo,
    backup: BackupInfo,
    known: &Control,
) -> Result<PairValues, StanzaFault>
    requires archive { IsArchiveInfo (archive_info_of archive) }
    requires backup { IsBackupInfo (backup_info_of backup) }
    ensures archive { IfOk result (λ k. k.archive ≡ archive) }
    ensures settled { IfOk result (λ k. IsValidated archive backup k.backup) }
    ensures of { IfOk result (λ k. IsOf known.now (archive_info_of archive)) }
    ensures valid { IfOk result (λ k. IsBackupInfo (backup_info_of k.backup)) }
    ensures unfit { IfErr result (Unfit known.now (archive_info_of archive) (backup_info_of backup)) }
    ensures label { IfErr result (λ e. IfLost e IsLabel) }
{
    let backup = fit_list(&archive, backup, known)?;
    Ok(PairValues { archive, backup })
}

/// Refuses a value that lists a backup.
pub(crate) fn lists_nothing(backup: &BackupInfo) -> Result<(), StanzaFault>
    requires { IsBackupInfo (backup_info_of backup.now) }
    ensures nothing { OnOk result ((backup_info_of backup.now).backups ≡ []) }
    ensures lost { IfErr result (ShowsLost (backup_info_of backup.now)) }
    ensures label { IfErr result (λ e. IfLost e IsLabel) }
{
    match backup.backups.first() {
        None => Ok(()),
        Some(first) => Err(StanzaFault::ArchiveLost { label: first.label }),
    }
}
