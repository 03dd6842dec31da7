//! The values that a repository's texts and names are of; besides them, in `specs`, what a repository is.
//!
//! No function: lemmas that the crates above use.
#![tactic(auto)]

mod clusters;
mod files;
mod labels;
mod wal;

pub use base_text::Sum;
pub use clusters::{ArchiveInfo, BackupInfo, Cluster, ClusterId};
pub use files::{Bundled, FileEntry, Manifest};
pub use labels::{BackupKind, Choices, Entry, Label, Later};
pub use wal::{ArchiveId, ArchiveName, Lsn, SegSize, Segment, Span, WalPart};
