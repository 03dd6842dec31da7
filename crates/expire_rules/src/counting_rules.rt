// Which backups the two counting rules condemn.
ghost use Rattle.std.specs.Prelude.{◌≡◌, ◌++◌, ◌∷◌, [], Option, IfOk, OnOk, map, filter, length};
ghost use Rattle.base_model.specs.Values.{entry_of};
ghost use Rattle.expire_rules.specs.Condemned.{is_full, is_old, before_last, full_gone, labels_of_full, full_labels_gone, diff_labels_gone, without_labels};
ghost use Rattle.expire_rules.specs.Known.{counted_marks, diffs_marked};

use crate::labels::has_label;
use crate::rules::FullRule;
use base_model::{BackupKind, Entry, Label};
use base_text::NoMemory;
use std::alloc::Global;

const DAY: u64 = 86400;

// A backup's label and kind.
#[derive(Clone, Copy)]
pub(crate) struct Mark {
    label: Label,
    kind: BackupKind,
}

// ---- full backups

fn is_full(entry: &Entry) -> bool
    ensures { result ≡ is_full (entry_of entry.now) }
{
    entry.kind == BackupKind::Full
}

fn push_full(labels: &mut Vec<Label>, entry: &Entry) -> Result<(), NoMemory>
    ensures { OnOk result (labels.new.items ≡ labels.old.items ++ labels_of_full (entry_of entry.now ∷ [])) }
{
    if is_full(entry) {
        labels.push(entry.label)?;
        return Ok(());
    }
    Ok(())
}

// The labels of the full backups.
fn labels_of_full(alloc: Global, entries: &[Entry]) -> Result<Vec<Label>, NoMemory>
    ensures { IfOk result (λ labels. labels.items ≡ labels_of_full (map entry_of entries.now)) }
{
    let mut labels = Vec::new(alloc);
    for entry in entries {
        push_full(&mut labels, entry)?;
    }
    Ok(labels)
}

// Whether a backup ended at least this number of days before the moment, which is in seconds since 1970.
fn is_old(entry: &Entry, days: u32, moment: u64) -> bool
    ensures { result ≡ is_old moment days (entry_of entry.now) }
{
    let age = u64::from(days) * DAY;
    age <= moment && entry.stop <= moment - age
}

// How many full backups come before the last old one.
fn before_last_old(entries: &[Entry], days: u32, moment: u64) -> usize
    ensures { result ≡ length (before_last (is_old moment days) (filter is_full (map entry_of entries.now))) }
{
    let mut fulls = 0;
    let mut before = 0;
    for entry in entries {
        if is_full(entry) {
            if is_old(entry, days, moment) {
                before = fulls;
            }
            fulls += 1;
        }
    }
    before
}

// How many of the full backups the rule expires, where there are `fulls` of them: they come before all others.
fn count_gone(entries: &[Entry], fulls: usize, rule: FullRule, moment: u64) -> usize
    requires { fulls ≡ length (filter is_full (map entry_of entries.now)) }
    ensures { result ≡ length (full_gone rule moment (filter is_full (map entry_of entries.now))) }
{
    match rule {
        FullRule::Unset => 0,
        FullRule::Count(n) => fulls.saturating_sub(n as usize),
        FullRule::Days(days) => before_last_old(entries, days, moment),
    }
}

/// The labels of the full backups that the rule expires.
pub(crate) fn full_labels(
    alloc: Global,
    entries: &[Entry],
    rule: FullRule,
    moment: u64,
) -> Result<Vec<Label>, NoMemory>
    ensures { IfOk result (λ labels. labels.items ≡ full_labels_gone rule moment (map entry_of entries.now)) }
{
    let mut labels = labels_of_full(alloc, entries)?;
    let gone = count_gone(entries, labels.len(), rule, moment);
    labels.truncate(gone);
    Ok(labels)
}

// ---- differentials

// Adds a full or a differential backup whose label isn't among those that expire.
fn push_counted(marks: &mut Vec<Mark>, gone: &[Label], entry: &Entry) -> Result<(), NoMemory>
    ensures { OnOk result (marks.new.items ≡ marks.old.items ++ counted_marks gone.now (entry_of entry.now ∷ [])) }
{
    if entry.kind != BackupKind::Incr && !has_label(gone, &entry.label) {
        marks.push(Mark {
            label: entry.label,
            kind: entry.kind,
        })?;
        return Ok(());
    }
    Ok(())
}

// The full and differential backups whose labels aren't among those that expire.
fn counted(alloc: Global, entries: &[Entry], gone: &[Label]) -> Result<Vec<Mark>, NoMemory>
    ensures { IfOk result (λ marks. marks.items ≡ counted_marks gone.now (map entry_of entries.now)) }
{
    let mut marks = Vec::new(alloc);
    for entry in entries {
        push_counted(&mut marks, gone, entry)?;
    }
    Ok(marks)
}

fn push_diff(labels: &mut Vec<Label>, mark: Mark) -> Result<(), NoMemory>
    ensures { OnOk result (labels.new.items ≡ labels.old.items ++ diffs_marked (mark ∷ [])) }
{
    if mark.kind == BackupKind::Diff {
        labels.push(mark.label)?;
        return Ok(());
    }
    Ok(())
}

// The labels of the differentials.
fn diffs_of(alloc: Global, marks: &[Mark]) -> Result<Vec<Label>, NoMemory>
    ensures { IfOk result (λ labels. labels.items ≡ diffs_marked marks.now) }
{
    let mut labels = Vec::new(alloc);
    for mark in marks {
        push_diff(&mut labels, *mark)?;
    }
    Ok(labels)
}

/// The labels of the differentials that aren't among the last n full and differential backups, where those that expire
/// by these labels aren't counted.
pub(crate) fn diff_labels(
    alloc: Global,
    entries: &[Entry],
    gone: &[Label],
    rule: Option<u32>,
) -> Result<Vec<Label>, NoMemory>
    ensures { IfOk result
        (λ r. r.items ≡ diff_labels_gone rule (without_labels gone.now (map entry_of entries.now))) }
{
    let Some(n) = rule else {
        return Ok(Vec::new(alloc));
    };
    let mut marks = counted(alloc, entries, gone)?;
    let count = marks.len();
    marks.truncate(count.saturating_sub(n as usize));
    diffs_of(alloc, &marks)
}
