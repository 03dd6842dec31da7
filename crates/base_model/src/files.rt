// The value of a backup's manifest (pgBackRest user guide, "Backup").
use crate::clusters::Cluster;
use crate::labels::{BackupKind, Choices, Label};
use crate::wal::WalPart;
use base_text::Sum;

/// Where a file lies in a bundle: the bundle's number, and the byte at which the file begins.
#[derive(Clone, Copy, Debug, PartialEq, Eq)]
pub struct Bundled {
    pub number: u32,
    pub at: u64,
}

/// A file of a backup. Its size is in bytes, its time in seconds since 1970.
#[derive(Debug, Drop)]
pub struct FileEntry {
    pub path: String,
    pub size: u64,
    pub time: u64,
    pub sum: Sum,
    /// the label in whose folder its bytes lie, where that is another's
    pub reference: Option<Label>,
    pub bundle: Option<Bundled>,
}

/// What a backup consists of. Files and folders are in byte order of their paths.
#[derive(Debug, Drop)]
pub struct Manifest {
    pub label: Label,
    pub kind: BackupKind,
    pub prior: Option<Label>,
    pub start: u64,
    pub stop: u64,
    pub cluster: Cluster,
    pub wal: Option<WalPart>,
    pub choices: Choices,
    pub files: Vec<FileEntry>,
    pub folders: Vec<String>,
}
