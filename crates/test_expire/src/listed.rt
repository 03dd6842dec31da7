// Backups as `backup.info` lists them.
use base_model::{BackupKind, Entry, Label, Segment, Span};
use repo_names::read_label;
use std::alloc::{AllocError, Global};
use std::process::Abort;

/// A backup's label, its prior, its cluster, its segments, and the second at which it ended.
pub(crate) type Listed = (
    &'static str,
    Option<&'static str>,
    u32,
    Option<(u32, u32)>,
    u64,
);

pub(crate) fn segment(number: u32) -> Segment {
    Segment {
        timeline: 1,
        log: 0,
        seg: number,
    }
}

pub(crate) fn label_of(rt: &impl Abort, text: &str) -> Label {
    read_label(text.as_bytes()).expect(rt, "it is a label")
}

fn entry_of(rt: &impl Abort, alloc: Global, listed: &Listed) -> Entry {
    let (text, prior, cluster, span, stop) = *listed;
    let label = label_of(rt, text);
    let kind = match label.later {
        None => BackupKind::Full,
        Some(later) => later.kind,
    };
    let prior = match prior {
        None => None,
        Some(text) => Some(label_of(rt, text)),
    };
    let span = match span {
        None => None,
        Some((start, stop)) => Some(Span {
            start: segment(start),
            stop: segment(stop),
        }),
    };
    Entry {
        label,
        kind,
        prior,
        references: Vec::new(alloc),
        db: cluster,
        span,
        start: 0,
        stop,
        size: 0,
        stored: 0,
    }
}

pub(crate) fn entries_of(
    rt: &impl Abort,
    alloc: Global,
    backups: &[Listed],
) -> Result<Vec<Entry>, AllocError> {
    let mut entries = Vec::new(alloc);
    for listed in backups {
        entries.push(entry_of(rt, alloc, listed))?;
    }
    Ok(entries)
}

/// The labels of these texts.
pub(crate) fn labels_of(
    rt: &impl Abort,
    alloc: Global,
    texts: &[&str],
) -> Result<Vec<Label>, AllocError> {
    let mut labels = Vec::new(alloc);
    for text in texts {
        labels.push(label_of(rt, text))?;
    }
    Ok(labels)
}
