// What is to be kept (pgBackRest configuration reference, "Repository Options").
use base_model::{ArchiveId, BackupKind, Segment, Span};

/// How long full backups are kept (`repo-retention-full`, `repo-retention-full-type`): for ever; the last `Count`; or
/// all from the last one on that ended at least `Days` days ago.
#[derive(Clone, Copy, Debug, PartialEq, Eq)]
pub enum FullRule {
    Unset,
    Count(u32),
    Days(u32),
}

/// The rules of a retention.
#[derive(Clone, Copy, Debug, PartialEq, Eq)]
pub struct Rules {
    pub full: FullRule,
    /// how many full and differential backups are kept (`repo-retention-diff`)
    pub diff: Option<u32>,
    /// from how many backups on the write-ahead log is kept (`repo-retention-archive`)
    pub archive: Option<u32>,
    /// which backups count for that: full, full and differential, all (`repo-retention-archive-type`)
    pub archive_kind: BackupKind,
}

/// What is kept of the files under an id: all; or what isn't before `from`, where there is one, and what lies within
/// the spans. Histories of timelines are always kept.
#[derive(Debug, Drop)]
pub struct KeptFiles {
    pub id: ArchiveId,
    pub all: bool,
    pub from: Option<Segment>,
    pub spans: Vec<Span>,
}
