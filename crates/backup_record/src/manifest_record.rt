// The record of a backup.
ghost use Rattle.std.specs.Prelude.{◌≡◌, ◌<◌, ◌^◌, true, map, string_bytes, IfOk, IfErr, IfSome, OnOk};
ghost use Rattle.base_devices.specs.Order.{are_in_order};
ghost use Rattle.base_model.specs.InfoFiles.{IsBackupInfo, label_kind};
ghost use Rattle.base_model.specs.ManifestText.{IsManifest};
ghost use Rattle.base_model.specs.Values.{backup_info_of, entry_of, file_entry_of, manifest_of};
ghost use Rattle.backup_plan.specs.Filter.{IsListing};
ghost use Rattle.backup_plan.specs.Views.{taken_files, taken_folders};
ghost use Rattle.backup_record.specs.Bounds.{KeepsBounds, MayFollow};
ghost use Rattle.backup_record.specs.Faults.{HasControl, RecordFails};
ghost use Rattle.backup_record.specs.Making as making;
ghost use Rattle.backup_record.specs.Making.{size_of, IsListWith};
ghost use Rattle.backup_record.specs.Recorded.{ExtendsList, IsManifestWith, MayBeAddedTo, RecordsListing};
ghost use Rattle.backup_record.specs.Views.{entries_in, went_of};

use crate::entries::entries_of;
use crate::further_file::add_further;
use crate::ran::Ran;
use crate::references::{labels_in, references_of};
use crate::sizes;
use backup_plan::{Choice, Listing, find_entry};
use base_model::{
    BackupInfo, BackupKind, Choices, Cluster, Entry, FileEntry, Label, Manifest, WalPart,
};
use std::alloc::{AllocError, Global};

/// What a manifest states besides its files and folders. Times are in seconds since 1970.
#[derive(Clone, Copy, Debug, PartialEq, Eq)]
pub struct Head {
    pub label: Label,
    pub prior: Option<Label>,
    pub start: u64,
    pub stop: u64,
    pub cluster: Cluster,
    /// the part of the log, of an online backup
    pub wal: Option<WalPart>,
    pub choices: Choices,
}

/// The two values that a backup is listed by: its manifest, and the stanza's list with it.
#[derive(Debug, Drop)]
pub struct Record {
    pub manifest: Manifest,
    pub info: BackupInfo,
}

/// Why no record is made of what was received.
#[derive(Clone, Copy, Debug, PartialEq, Eq)]
pub enum RecordFault {
    /// A file without which there is no backup vanished.
    ControlMissing { path: &'static str },
    NoMemory,
}

impl From<AllocError> for RecordFault {
    ghost use Rattle.std.specs.Prelude.{◌≡◌};
    ghost use Rattle.backup_record.specs.declared.manifest_record.RecordFault.TheVariants.{NoMemory};

    ghost from_gives = { λ _ e. e ≡ NoMemory };

    fn from(_: AllocError) -> Self {
        RecordFault::NoMemory
    }
}

// Refuses files without which there is no backup.
fn check_control(files: &[FileEntry]) -> Result<(), RecordFault>
    requires { are_in_order (map (λ e. e.path) (map file_entry_of files.now)) ≡ true }
    ensures there { OnOk result (HasControl (map file_entry_of files.now)) }
    ensures fault { IfErr result (RecordFails (map file_entry_of files.now)) }
{
    let version = "PG_VERSION";
    if find_entry(files, version).is_none() {
        return Err(RecordFault::ControlMissing { path: version });
    }
    let control = "global/pg_control";
    if find_entry(files, control).is_none() {
        return Err(RecordFault::ControlMissing { path: control });
    }
    Ok(())
}

// The kind that a label states.
fn kind_of(label: &Label) -> BackupKind
    ensures { result ≡ label_kind label.now }
{
    match label.later {
        Some(later) => later.kind,
        None => BackupKind::Full,
    }
}

// The manifest of these files and folders.
fn manifest_with(head: &Head, files: Vec<FileEntry>, folders: Vec<String>) -> Manifest
    ensures { IsManifestWith head.now (map file_entry_of files.items) (map string_bytes folders.items) result }
{
    Manifest {
        label: head.label,
        kind: kind_of(&head.label),
        prior: head.prior,
        start: head.start,
        stop: head.stop,
        cluster: head.cluster,
        wal: head.wal,
        choices: head.choices,
        files,
        folders,
    }
}

// The manifest's backup, as the list has it.
fn entry_with(manifest: &Manifest, references: Vec<Label>) -> Entry
    requires { size_of (manifest_of manifest.now).files < 2 ^ 64 }
    ensures { entry_of result ≡ making.entry_with (manifest_of manifest.now) references.items }
{
    Entry {
        label: manifest.label,
        kind: manifest.kind,
        prior: manifest.prior,
        references,
        db: manifest.cluster.id,
        span: manifest.wal.map(|part| part.span),
        start: manifest.start,
        stop: manifest.stop,
        size: sizes::size_of(&manifest.files),
        stored: sizes::own_size_of(&manifest.files),
    }
}

// The list with the manifest's backup.
fn list_with(
    alloc: Global,
    manifest: &Manifest,
    before: BackupInfo,
) -> Result<BackupInfo, AllocError>
    requires { size_of (manifest_of manifest.now).files < 2 ^ 64 }
    ensures { IfOk result (λ v. IsListWith (backup_info_of before) (manifest_of manifest.now) (backup_info_of v)) }
{
    let labels = labels_in(alloc, &manifest.files)?;
    let references = references_of(alloc, &before.backups, &labels)?;
    let entry = entry_with(manifest, references);
    let BackupInfo {
        current,
        history,
        mut backups,
    } = before;
    backups.push(entry)?;
    Ok(BackupInfo {
        current,
        history,
        backups,
    })
}

/// The manifest of the result of a listing, with a further file where there is one, and the stanza's list with its
/// backup.
pub fn record_of(
    alloc: Global,
    head: &Head,
    ran: &Ran<'_>,
    listing: Listing,
    choices: &[Choice],
    further: Option<FileEntry>,
    before: BackupInfo,
) -> Result<Record, RecordFault>
    requires listing { IsListing (taken_files listing) (taken_folders listing) }
    requires came { KeepsBounds (went_of ran.now) (taken_files listing) choices.now }
    requires further { IfSome further (MayBeAddedTo listing) }
    requires list { IsBackupInfo (backup_info_of before) }
    requires follows { MayFollow head.now (backup_info_of before) }

    // The manifest has what was received, and is within the rules of its text.
    ensures manifest { IfOk result (RecordsListing head.now ran.now listing choices.now further) }
    ensures manifest_rules { IfOk result (λ r. IsManifest (manifest_of r.manifest)) }

    // So is the list, which has its backup as the last.
    ensures info { IfOk result (ExtendsList (backup_info_of before)) }
    ensures info_rules { IfOk result (λ r. IsBackupInfo (backup_info_of r.info)) }

    // A file without which there is no backup vanished, or memory ran out.
    ensures control { IfOk result (λ r. HasControl (manifest_of r.manifest).files) }
    ensures fault { IfErr result (RecordFails (entries_in ran.now listing.files.items choices.now)) }
{
    let Listing { files, folders } = listing;
    let mut entries = entries_of(alloc, ran, &files, choices)?;
    check_control(&entries)?;
    add_further(&mut entries, further)?;
    let manifest = manifest_with(head, entries, folders);
    let info = list_with(alloc, &manifest, before)?;
    Ok(Record { manifest, info })
}
