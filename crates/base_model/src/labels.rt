// Backups and their labels (pgBackRest user guide, "Backup").
use crate::wal::Span;

#[derive(Clone, Copy, Debug, PartialEq, Eq)]
pub enum BackupKind {
    Full,
    Diff,
    Incr,
}

/// The second part of the label of a differential or an incremental backup.
#[derive(Clone, Copy, Debug, PartialEq, Eq)]
pub struct Later {
    /// in seconds since 1970, UTC
    pub time: u64,
    pub kind: BackupKind,
}

/// The name of a backup: the time of the full backup, in seconds since 1970, UTC, and its own.
#[derive(Clone, Copy, Debug, PartialEq, Eq)]
pub struct Label {
    pub full: u64,
    pub later: Option<Later>,
}

/// A backup as `backup.info` lists it. Times are in seconds since 1970, sizes in bytes.
#[derive(Debug, Drop)]
pub struct Entry {
    pub label: Label,
    pub kind: BackupKind,
    pub prior: Option<Label>,
    /// the labels in whose folders bytes of this backup lie
    pub references: Vec<Label>,
    /// the history number of its cluster
    pub db: u32,
    pub span: Option<Span>,
    pub start: u64,
    pub stop: u64,
    pub size: u64,
    /// bytes that were stored for this label
    pub stored: u64,
}

/// How a backup was made.
#[derive(Clone, Copy, Debug, PartialEq, Eq)]
pub struct Choices {
    pub bundle: bool,
    pub delta: bool,
}
