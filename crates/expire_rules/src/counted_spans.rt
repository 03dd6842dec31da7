// The spans of backups that count.
ghost use Rattle.std.specs.Prelude.{◌≡◌, ◌∷◌, ◌++◌, [], IfOk, OnOk, map};
ghost use Rattle.base_model.specs.Values.{entry_of};
ghost use Rattle.expire_rules.specs.Needed.{counts, counted_spans, span_list};

use base_model::{BackupKind, Entry, Span};
use base_text::NoMemory;
use std::alloc::Global;

// Whether a backup counts for an archive kind.
fn counts(kind: BackupKind, entry: &Entry) -> bool
    ensures { result ≡ counts kind (entry_of entry.now) }
{
    match kind {
        BackupKind::Full => entry.kind == BackupKind::Full,
        BackupKind::Diff => entry.kind == BackupKind::Full || entry.kind == BackupKind::Diff,
        BackupKind::Incr => true,
    }
}

// The span of a backup, where it is of the cluster and counts.
fn span_of(entry: &Entry, number: u32, kind: BackupKind) -> Option<Span>
    ensures { span_list result ≡ counted_spans kind number (entry_of entry.now ∷ []) }
{
    if entry.db == number && counts(kind, entry) {
        entry.span
    } else {
        None
    }
}

fn push_some(spans: &mut Vec<Span>, span: Option<Span>) -> Result<(), NoMemory>
    ensures { OnOk result (spans.new.items ≡ spans.old.items ++ span_list span) }
{
    match span {
        Some(span) => {
            spans.push(span)?;
            Ok(())
        }
        None => Ok(()),
    }
}

/// The spans of the cluster's backups that count for an archive kind.
pub(crate) fn spans_that(
    alloc: Global,
    entries: &[Entry],
    number: u32,
    kind: BackupKind,
) -> Result<Vec<Span>, NoMemory>
    ensures { IfOk result (λ r. r.items ≡ counted_spans kind number (map entry_of entries.now)) }
{
    let mut spans = Vec::new(alloc);
    for entry in entries {
        push_some(&mut spans, span_of(entry, number, kind))?;
    }
    Ok(spans)
}
