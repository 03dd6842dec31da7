// Clusters, and the values of the two info files (pgBackRest user guide, "Create the Stanza").
use crate::labels::Entry;

/// A cluster as the archive states it: its history number, system identifier and major version.
#[derive(Clone, Copy, Debug, PartialEq, Eq)]
pub struct ClusterId {
    pub id: u32,
    pub system: u64,
    pub version: u32,
}

/// A cluster with its control and catalog versions.
#[derive(Clone, Copy, Debug, PartialEq, Eq)]
pub struct Cluster {
    pub id: u32,
    pub system: u64,
    pub version: u32,
    pub control: u32,
    pub catalog: u32,
}

/// The value of `archive.info`.
#[derive(Debug, Drop)]
pub struct ArchiveInfo {
    /// the current history number
    pub current: u32,
    pub history: Vec<ClusterId>,
}

/// The value of `backup.info`.
#[derive(Debug, Drop)]
pub struct BackupInfo {
    /// the current history number
    pub current: u32,
    pub history: Vec<Cluster>,
    pub backups: Vec<Entry>,
}
