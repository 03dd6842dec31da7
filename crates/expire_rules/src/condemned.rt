// Which backups a retention expires.
ghost use Rattle.std.specs.Prelude.{◌≡◌, ◌∷◌, ◌++◌, [], List, IfOk, OnOk, map, filter};
ghost use Rattle.base_model.specs.Values.{entry_of};
ghost use Rattle.expire_rules.specs.Labels.{has_label, labels_of};
ghost use Rattle.expire_rules.specs.Condemned.{condemned_labels};
ghost use Rattle.expire_rules.specs.Descent.{DescendWhereListed};

use crate::counting_rules::{diff_labels, full_labels};
use crate::dependents::with_dependents;
use crate::labels::has_label;
use crate::rules::Rules;
use base_model::{Entry, Label};
use base_text::NoMemory;
use std::alloc::Global;

// Both lists.
fn joined(labels: Vec<Label>, more: &[Label]) -> Result<Vec<Label>, NoMemory>
    ensures { IfOk result (λ r. r.items ≡ labels.items ++ more.now) }
{
    let mut labels = labels;
    labels.extend_from_slice(more)?;
    Ok(labels)
}

// Adds the label, where it is among these.
fn push_among(out: &mut Vec<Label>, labels: &[Label], label: Label) -> Result<(), NoMemory>
    ensures { OnOk result (out.new.items ≡ out.old.items ++ filter (has_label labels.now) (label ∷ [])) }
{
    if has_label(labels, &label) {
        out.push(label)?;
        return Ok(());
    }
    Ok(())
}

// The labels of the backups that are among these, in the order of the list.
fn listed_among(alloc: Global, entries: &[Entry], labels: &[Label]) -> Result<Vec<Label>, NoMemory>
    ensures { IfOk result (λ r. r.items ≡ filter (has_label labels.now) (labels_of (map entry_of entries.now))) }
{
    let mut out = Vec::new(alloc);
    for entry in entries {
        push_among(&mut out, labels, entry.label)?;
    }
    Ok(out)
}

/// The labels of the backups that the rules expire at a moment, in the order of the list. The moment is in seconds
/// since 1970, and counts only where the rule on full backups is one of days (`repo-retention-full`,
/// `repo-retention-diff`).
pub fn expired(
    alloc: Global,
    entries: &[Entry],
    rules: &Rules,
    moment: u64,
) -> Result<Vec<Label>, NoMemory>
    ensures condemned { IfOk result
        (λ r. r.items ≡ condemned_labels rules.now moment (map entry_of entries.now)) }
    ensures descends { IfOk result
        (λ r. DescendWhereListed rules.now moment (map entry_of entries.now) r.items) }
{
    let known = full_labels(alloc, entries, rules.full, moment)?;
    let full = with_dependents(entries, known)?;
    let diffs = diff_labels(alloc, entries, &full, rules.diff)?;
    let both = joined(full, &diffs)?;
    let gone = with_dependents(entries, both)?;
    listed_among(alloc, entries, &gone)
}
