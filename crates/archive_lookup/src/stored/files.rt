// A file of the archive that is stored, and where.
use base_model::{ArchiveId, ArchiveName};
use base_text::Sum;

/// A file that is stored below the stanza's folder of the archive.
#[derive(Debug, Drop)]
pub struct Stored {
    pub id: ArchiveId,
    pub name: ArchiveName,
    /// The SHA-1 that a segment's name states; none of a history or backup history file.
    pub sum: Option<Sum>,
    /// In bytes.
    pub size: u64,
    /// Its name on the disk, as `archive/main/16-1/00000002.history`.
    pub path: String,
}
