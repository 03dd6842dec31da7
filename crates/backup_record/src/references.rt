// The labels that a backup refers to.
ghost use Rattle.std.specs.Prelude.{◌≡◌, ◌↔◌, ◌⊎◌, map, IsTrue, IfOk, OnOk};
ghost use Rattle.base_model.specs.declared.labels.Label as spec_label;
ghost use Rattle.base_model.specs.Text.{In};
ghost use Rattle.base_model.specs.Values.{entry_of, file_entry_of};
ghost use Rattle.backup_record.specs.Making.{AreThoseListed, GainsReference, KeepListOrder, RefersTo};

use base_model::{BackupKind, Entry, FileEntry, Label, Later};
use std::alloc::{AllocError, Global};

fn is_same_kind(a: BackupKind, b: BackupKind) -> bool
    ensures { IsTrue result ↔ (a ≡ b) }
{
    match a {
        BackupKind::Full => matches!(b, BackupKind::Full),
        BackupKind::Diff => matches!(b, BackupKind::Diff),
        BackupKind::Incr => matches!(b, BackupKind::Incr),
    }
}

// Whether these are the second parts of one label.
fn is_same_part(a: Option<Later>, b: Option<Later>) -> bool
    ensures { IsTrue result ↔ (a ≡ b) }
{
    match a {
        None => b.is_none(),
        Some(x) => match b {
            None => false,
            Some(y) => x.time == y.time && is_same_kind(x.kind, y.kind),
        },
    }
}

fn is_same(a: Label, b: Label) -> bool
    ensures { IsTrue result ↔ (a ≡ b) }
{
    a.full == b.full && is_same_part(a.later, b.later)
}

fn is_among(label: Label, labels: &[Label]) -> bool
    ensures { IsTrue result ↔ In label labels.now }
{
    for other in labels {
        if is_same(label, *other) {
            return true;
        }
    }
    false
}

// Adds the label, where it isn't there.
fn note(labels: &mut Vec<Label>, label: Label) -> Result<(), AllocError>
    ensures { OnOk result ((l : spec_label.Label)
        → In l labels.new.items ↔ (In l labels.old.items ⊎ (l ≡ label))) }
{
    if !is_among(label, labels.as_slice()) {
        labels.push(label)?;
    }
    Ok(())
}

// Adds the label to which the file refers.
fn note_of(labels: &mut Vec<Label>, file: &FileEntry) -> Result<(), AllocError>
    ensures { OnOk result (GainsReference file.now.reference labels.old.items labels.new.items) }
{
    match file.reference {
        Some(label) => note(labels, label),
        None => Ok(()),
    }
}

/// The labels to which files refer.
pub(crate) fn labels_in(alloc: Global, files: &[FileEntry]) -> Result<Vec<Label>, AllocError>
    ensures { IfOk result (λ v. (l : spec_label.Label) → In l v.items ↔ RefersTo (map file_entry_of files.now) l) }
{
    let mut labels = Vec::new(alloc);
    for file in files {
        note_of(&mut labels, file)?;
    }
    Ok(labels)
}

/// Those of the labels that are listed, in the order of the list.
pub(crate) fn references_of(
    alloc: Global,
    listed: &[Entry],
    labels: &[Label],
) -> Result<Vec<Label>, AllocError>
    ensures each { IfOk result (λ v. AreThoseListed (map entry_of listed.now) labels.now v.items) }
    ensures order { IfOk result (λ v. KeepListOrder (map entry_of listed.now) v.items) }
{
    let mut references = Vec::new(alloc);
    for backup in listed {
        if is_among(backup.label, labels) {
            references.push(backup.label)?;
        }
    }
    Ok(references)
}
