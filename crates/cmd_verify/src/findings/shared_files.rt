// Files of a backup that lie in the folder of another one. What that one has as its own is looked at in its turn.
ghost use Rattle.std.specs.Prelude.{◌≡◌, ◌≢◌, false, Some, IfOk, IfSome, IsTrue, OnOk, IsErrOf, map};
ghost use Rattle.base_devices.specs.Cause.{Rises};
ghost use Rattle.base_devices.specs.States.{OnlyReads};
ghost use Rattle.base_model.specs.declared.labels.Label.{Label as LabelOf};
ghost use Rattle.base_model.specs.InfoFiles.{IsLabel};
ghost use Rattle.base_model.specs.Text.{In};
ghost use Rattle.base_model.specs.Values.{FileEntry as Entered, file_entry_of};
ghost use Rattle.cmd_verify.specs.Looking.{HoldsFilesOf, AddsShared, AddsLabel, AddsLabels, AddsFiles};
ghost use Rattle.cmd_verify.specs.Sharing.{AreListed, IsOwn, HasAsOwn};

use crate::findings::files::{look_at_file, look_at_own_files};
use crate::findings::finding::{Finding, LookFault};
use crate::findings::pairs::{look_at_manifest, manifest_name};
use crate::findings::references::{is_among, labels_of};
use base_devices::Disk;
use base_model::{Bundled, FileEntry, Label};
use std::alloc::Global;
use std::cmp::Ordering;

/// A backup's label, and its files.
#[derive(Clone, Copy)]
pub(crate) struct BackupFiles<'a> {
    pub label: &'a Label,
    pub files: &'a [FileEntry],
}

// Whether a file lies in the folder of this label.
fn lies_with(file: &FileEntry, label: &Label) -> bool
    ensures yes { IsTrue result → file.now.reference ≡ Some label.now }
    ensures no { result ≡ false → file.now.reference ≢ Some label.now }
{
    file.reference == Some(*label)
}

fn is_same_bundle(a: &Option<Bundled>, b: &Option<Bundled>) -> bool
    ensures { IsTrue result → a.now ≡ b.now }
{
    a == b
}

// Whether the other file is this one, as the backup of the label has it.
fn is_own(label: &Label, file: &FileEntry, other: &FileEntry) -> bool
    ensures { IsTrue result → IsOwn label.now (file_entry_of file.now) (file_entry_of other.now) }
{
    lies_with(file, label)
        && other.reference.is_none()
        && other.path == file.path
        && other.size == file.size
        && other.sum == file.sum
        && is_same_bundle(&other.bundle, &file.bundle)
}

// Whether one of these is it. They are in order of their paths.
fn has_own(label: &Label, file: &FileEntry, others: &[FileEntry]) -> bool
    ensures { IsTrue result → HasAsOwn label.now file.now others.now }
{
    let mut low = 0usize;
    let mut high = others.len();
    while low < high {
        let middle = low + (high - low) / 2;
        let other = &others[middle];
        match other.path.as_str().cmp(file.path.as_str()) {
            Ordering::Less => low = middle + 1,
            Ordering::Equal => return is_own(label, file, other),
            Ordering::Greater => high = middle,
        }
    }
    false
}

// A file, where it lies in the folder of the other backup and that one doesn't have it as its own.
fn look_at_referring<D: Disk>(
    alloc: Global,
    d: &mut D,
    stanza: &str,
    own: &Label,
    other: &BackupFiles<'_>,
    file: &FileEntry,
    found: &mut Vec<Finding>,
) -> Result<(), LookFault>
    requires own { IsLabel own.now }
    requires reference { IfSome file.now.reference IsLabel }
    requires others { HoldsFilesOf stanza.now other.now.label.now other.now.files.now (D.state d.old) }
    ensures adds { OnOk result
        (AddsShared stanza.now own.now other.now file.now (D.state d.old) found.old found.new) }
    ensures looks { OnlyReads (D.state d.old) (D.state d.new) }
    ensures cause { IsErrOf result LookFault.Disk → Rises (D.state d.old).faults (D.state d.new).faults }
{
    if !lies_with(file, other.label) {
        return Ok(());
    }
    if has_own(other.label, file, other.files) {
        return Ok(());
    }
    look_at_file(alloc, d, stanza, own, file, found)?;
    Ok(())
}

// The files of the manifest of this label, where it is listed and has one.
fn files_of<D: Disk>(
    alloc: Global,
    d: &mut D,
    stanza: &str,
    label: &Label,
    listed: &[Label],
) -> Result<Vec<FileEntry>, LookFault>
    requires label { IsLabel label.now }
    requires listed { IfSome (D.state d.old).view.now (λ f. AreListed stanza.now listed.now f) }
    ensures files { IfOk result (λ files. HoldsFilesOf stanza.now label.now files.items (D.state d.old)) }
    ensures looks { OnlyReads (D.state d.old) (D.state d.new) }
    ensures cause { IsErrOf result LookFault.Disk → Rises (D.state d.old).faults (D.state d.new).faults }
{
    if !is_among(listed, label) {
        return Ok(Vec::new(alloc));
    }
    let name = manifest_name(alloc, stanza, label)?;
    // What deviates in its members is reported in its own turn.
    let mut known = Vec::new(alloc);
    match look_at_manifest(alloc, d, name.as_str(), &mut known)? {
        Some(manifest) => Ok(manifest.files),
        None => Ok(Vec::new(alloc)),
    }
}

// The files of a backup that lie in the folder of the other one.
fn look_at_label<D: Disk>(
    alloc: Global,
    d: &mut D,
    stanza: &str,
    backup: &BackupFiles<'_>,
    other: &BackupFiles<'_>,
    found: &mut Vec<Finding>,
) -> Result<(), LookFault>
    requires own { IsLabel backup.now.label.now }
    requires references { (e : Entered) → In e (map file_entry_of backup.now.files.now)
        → IfSome e.reference IsLabel }
    requires others { HoldsFilesOf stanza.now other.now.label.now other.now.files.now (D.state d.old) }
    ensures adds { OnOk result (AddsLabel stanza.now backup.now other.now (D.state d.old) found.old found.new) }
    ensures looks { OnlyReads (D.state d.old) (D.state d.new) }
    ensures cause { IsErrOf result LookFault.Disk → Rises (D.state d.old).faults (D.state d.new).faults }
{
    for file in backup.files {
        look_at_referring(alloc, d, stanza, backup.label, other, file, found)?;
    }
    Ok(())
}

// The files of a backup that lie in the folders of these labels. Of each the manifest is read.
fn look_at_labels<D: Disk>(
    alloc: Global,
    d: &mut D,
    stanza: &str,
    backup: &BackupFiles<'_>,
    labels: &[Label],
    listed: &[Label],
    found: &mut Vec<Finding>,
) -> Result<(), LookFault>
    requires own { IsLabel backup.now.label.now }
    requires labels { (l : LabelOf) → In l labels.now → IsLabel l }
    requires references { (e : Entered) → In e (map file_entry_of backup.now.files.now)
        → IfSome e.reference IsLabel }
    requires listed { IfSome (D.state d.old).view.now (λ f. AreListed stanza.now listed.now f) }
    ensures adds { OnOk result (AddsLabels stanza.now backup.now labels.now (D.state d.old) found.old found.new) }
    ensures looks { OnlyReads (D.state d.old) (D.state d.new) }
    ensures cause { IsErrOf result LookFault.Disk → Rises (D.state d.old).faults (D.state d.new).faults }
{
    for label in labels {
        let others = files_of(alloc, d, stanza, label, listed)?;
        let other = BackupFiles {
            label,
            files: &others,
        };
        look_at_label(alloc, d, stanza, backup, &other, found)?;
    }
    Ok(())
}

/// Looks at the files of the backup with this label. One that another listed backup has as its own is left to the turn
/// of that one, so that each byte is read once.
pub(crate) fn look_at_files<D: Disk>(
    alloc: Global,
    d: &mut D,
    stanza: &str,
    own: &Label,
    files: &[FileEntry],
    listed: &[Label],
    found: &mut Vec<Finding>,
) -> Result<(), LookFault>
    requires own { IsLabel own.now }
    requires references { (e : Entered) → In e (map file_entry_of files.now) → IfSome e.reference IsLabel }
    requires listed { IfSome (D.state d.old).view.now (λ f. AreListed stanza.now listed.now f) }
    ensures adds { OnOk result (AddsFiles stanza.now own.now files.now (D.state d.old) found.old found.new) }
    ensures looks { OnlyReads (D.state d.old) (D.state d.new) }
    ensures cause { IsErrOf result LookFault.Disk → Rises (D.state d.old).faults (D.state d.new).faults }
{
    look_at_own_files(alloc, d, stanza, own, files, found)?;
    let labels = labels_of(alloc, files)?;
    let backup = BackupFiles { label: own, files };
    look_at_labels(alloc, d, stanza, &backup, &labels, listed, found)?;
    Ok(())
}
