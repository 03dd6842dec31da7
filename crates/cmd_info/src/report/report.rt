// What a report describes.
use base_model::{ArchiveId, ArchiveInfo, ArchiveName, BackupInfo};

/// A file of the archive: the folder of its cluster, and its name.
#[derive(Clone, Copy, Debug, PartialEq, Eq)]
pub struct ArchivedName {
    pub id: ArchiveId,
    pub name: ArchiveName,
}

/// A stanza: its name, the values of its two info files, and its archived files in any order.
#[derive(Clone, Copy)]
pub struct Report<'a> {
    pub stanza: &'a str,
    pub archive: &'a ArchiveInfo,
    pub info: &'a BackupInfo,
    pub archived: &'a [ArchivedName],
}
