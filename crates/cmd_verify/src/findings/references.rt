// The labels that a backup refers to.
ghost use Rattle.std.specs.Prelude.{◌≡◌, ◌≢◌, ◌↔◌, ◌⊎◌, false, IfOk, IsTrue, OnOk, map};
ghost use Rattle.base_model.specs.declared.labels.Label.{Label as LabelOf};
ghost use Rattle.base_model.specs.InfoFiles.{IsLabel};
ghost use Rattle.base_model.specs.Text.{In};
ghost use Rattle.base_model.specs.Values.{file_entry_of};
ghost use Rattle.cmd_verify.specs.Adding.{Adds, OfSome};
ghost use Rattle.cmd_verify.specs.References.{AddsReference, RefersTo, IsUnlisted};
ghost use Rattle.cmd_verify.specs.Looking.{AddsUnlisted};
ghost use Rattle.cmd_verify.specs.What.{Reference, Shows};

use crate::findings::finding::{Finding, FindingKind};
use base_model::{FileEntry, Label};
use base_text::NoMemory;
use repo_names::label_text;
use std::alloc::Global;

pub(crate) fn is_same(a: &Label, b: &Label) -> bool
    ensures yes { IsTrue result → a.now ≡ b.now }
    ensures no { result ≡ false → a.now ≢ b.now }
{
    a == b
}

/// Whether the label is among these.
pub(crate) fn is_among(labels: &[Label], label: &Label) -> bool
    ensures yes { IsTrue result → In label.now labels.now }
    ensures no { result ≡ false → ¬ In label.now labels.now }
{
    for other in labels {
        if is_same(label, other) {
            return true;
        }
    }
    false
}

// Adds a label that isn't there yet.
fn add_label(labels: &mut Vec<Label>, label: Label) -> Result<(), NoMemory>
    ensures { OnOk result ((l : LabelOf) → In l labels.new.items ↔ (In l labels.old.items ⊎ (l ≡ label))) }
{
    if !is_among(labels, &label) {
        labels.push(label)?;
    }
    Ok(())
}

// Adds the label that a file refers to.
fn add_reference(labels: &mut Vec<Label>, file: &FileEntry) -> Result<(), NoMemory>
    ensures { OnOk result (AddsReference file.now.reference labels.old.items labels.new.items) }
{
    if let Some(label) = file.reference {
        add_label(labels, label)?;
    }
    Ok(())
}

/// The labels that files refer to, each once.
pub(crate) fn labels_of(alloc: Global, files: &[FileEntry]) -> Result<Vec<Label>, NoMemory>
    ensures { IfOk result (λ labels. (l : LabelOf) → In l labels.items
        ↔ RefersTo (map file_entry_of files.now) l) }
{
    let mut labels = Vec::new(alloc);
    for file in files {
        add_reference(&mut labels, file)?;
    }
    Ok(labels)
}

fn unlisted(alloc: Global, name: &str, label: &Label) -> Result<Finding, NoMemory>
    requires { IsLabel label.now }
    ensures { IfOk result (λ x. Shows x name.now (Reference label.now)) }
{
    let name = String::from_str(alloc, name)?;
    let label = label_text(alloc, label)?;
    Ok(Finding {
        name,
        kind: FindingKind::Reference,
        line: format!(in alloc; "refers to {label}, not listed")?,
    })
}

// The label, where it isn't listed.
fn tell_label(
    alloc: Global,
    name: &str,
    label: &Label,
    listed: &[Label],
    found: &mut Vec<Finding>,
) -> Result<(), NoMemory>
    requires { IsLabel label.now }
    ensures { OnOk result (Adds (IsUnlisted name.now listed.now label.now) found.old.items found.new.items) }
{
    if !is_among(listed, label) {
        found.push(unlisted(alloc, name, label)?)?;
    }
    Ok(())
}

// Those of the labels that aren't listed.
fn tell_unlisted(
    alloc: Global,
    name: &str,
    labels: &[Label],
    listed: &[Label],
    found: &mut Vec<Finding>,
) -> Result<(), NoMemory>
    requires { (l : LabelOf) → In l labels.now → IsLabel l }
    ensures { OnOk result (Adds (OfSome (IsUnlisted name.now listed.now) labels.now) found.old.items found.new.items) }
{
    for label in labels {
        tell_label(alloc, name, label, listed, found)?;
    }
    Ok(())
}

/// Looks for the labels that files refer to and that aren't listed.
pub(crate) fn look_for_references(
    alloc: Global,
    name: &str,
    files: &[FileEntry],
    listed: &[Label],
    found: &mut Vec<Finding>,
) -> Result<(), NoMemory>
    requires { (l : LabelOf) → RefersTo (map file_entry_of files.now) l → IsLabel l }
    ensures { OnOk result (AddsUnlisted name.now files.now listed.now found.old found.new) }
{
    let labels = labels_of(alloc, files)?;
    tell_unlisted(alloc, name, &labels, listed, found)?;
    Ok(())
}
