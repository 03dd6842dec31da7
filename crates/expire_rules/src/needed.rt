// Which files of the archive a retention keeps.
ghost use Rattle.std.specs.Prelude.{◌≡◌, IfOk, map};
ghost use Rattle.base_model.specs.Values.{entry_of};
ghost use Rattle.expire_rules.specs.Condemned.{has_some};
ghost use Rattle.expire_rules.specs.Needed.{keeps_file, keeps_segment, is_at_or_after, is_within, archive_number, keeps_all, start_from};
ghost use Rattle.expire_rules.specs.Known.{keeping_known, IsKeeping};

use crate::counted_spans::spans_that;
use crate::rules::{FullRule, KeptFiles, Rules};
use base_model::{ArchiveId, ArchiveName, BackupKind, Entry, Segment, Span};
use base_text::NoMemory;
use repo_names::compare;
use std::alloc::Global;
use std::cmp::Ordering;

/// What the backups of a cluster keep of the files under its id.
pub fn spans(
    alloc: Global,
    entries: &[Entry],
    id: &ArchiveId,
    current: bool,
    rules: &Rules,
) -> Result<KeptFiles, NoMemory>
    ensures id { IfOk result (λ kept. kept.id ≡ id.now) }
    ensures keeping { IfOk result
        (λ kept. IsKeeping rules.now current id.now.number (map entry_of entries.now) kept) }
{
    let all = spans_that(alloc, entries, id.number, BackupKind::Incr)?;
    let counted = spans_that(alloc, entries, id.number, rules.archive_kind)?;
    let number = archive_number(rules, counted.len() as u64);
    Ok(KeptFiles {
        id: *id,
        all: keeps_all(current, number, counted.len() as u64),
        from: start_from(number, &counted),
        spans: all,
    })
}

// How many backups with a span keep the log, where there are `count` of them.
fn archive_number(rules: &Rules, count: u64) -> Option<u64>
    ensures { result ≡ archive_number rules.now count }
{
    match rules.archive {
        Some(n) => Some(n as u64),
        None => match rules.archive_kind {
            BackupKind::Full => match rules.full {
                FullRule::Unset => None,
                FullRule::Count(n) => Some(n as u64),
                FullRule::Days(_) => Some(count),
            },
            BackupKind::Diff => match rules.diff {
                Some(n) => Some(n as u64),
                None => None,
            },
            BackupKind::Incr => None,
        },
    }
}

// Whether all of a cluster's files are kept.
fn keeps_all(current: bool, number: Option<u64>, count: u64) -> bool
    ensures { result ≡ keeps_all current number count }
{
    match number {
        None => true,
        Some(n) => current && (count < n || count == 0 && n == 0),
    }
}

// The start of the span with this place from the end, or of the first where there are fewer.
fn start_from(number: Option<u64>, spans: &[Span]) -> Option<Segment>
    ensures { result ≡ start_from number spans.now }
{
    let number = number?;
    let count = spans.len() as u64;
    let back = if number < count { number } else { count };
    match spans.get((count - back) as usize) {
        Some(span) => Some(span.start),
        None => None,
    }
}

// Whether the second segment isn't before the first.
fn is_at_or_after(from: &Segment, segment: &Segment) -> bool
    ensures { result ≡ is_at_or_after from.now segment.now }
{
    compare(segment, from) != Ordering::Less
}

// Whether the segment lies within the span.
fn is_within(segment: &Segment, span: &Span) -> bool
    ensures { result ≡ is_within segment.now span.now }
{
    is_at_or_after(&span.start, segment) && is_at_or_after(segment, &span.stop)
}

// Whether it lies within one of them.
fn has_span(spans: &[Span], segment: &Segment) -> bool
    ensures { result ≡ has_some (is_within segment.now) spans.now }
{
    for span in spans {
        if is_within(segment, span) {
            return true;
        }
    }
    false
}

fn keeps_segment(segment: &Segment, kept: &KeptFiles) -> bool
    ensures { result ≡ keeps_segment (keeping_known kept.now) segment.now }
{
    if kept.all {
        return true;
    }
    match &kept.from {
        Some(from) => is_at_or_after(from, segment) || has_span(&kept.spans, segment),
        None => has_span(&kept.spans, segment),
    }
}

/// Whether a file of this name is kept.
pub fn keeps(name: &ArchiveName, kept: &KeptFiles) -> bool
    ensures { result ≡ keeps_file (keeping_known kept.now) name.now }
{
    match name {
        ArchiveName::Segment(segment) => keeps_segment(segment, kept),
        ArchiveName::Partial(segment) => keeps_segment(segment, kept),
        ArchiveName::Backup(segment, _) => keeps_segment(segment, kept),
        ArchiveName::History(_) => true,
    }
}
