// What a backup is to be made of.
use backup_plan::{BackupPlan, Listing};
use base_model::{BackupInfo, Choices, Cluster, FileEntry, Label};

/// What a backup is to be made of, besides what its workers read. Times are in seconds since 1970.
#[derive(Drop)]
pub struct Draft<'a> {
    pub stanza: &'a str,
    pub label: Label,
    pub prior: Option<Label>,
    /// the files of the prior backup
    pub old: &'a [FileEntry],
    pub start: u64,
    pub cluster: Cluster,
    pub choices: Choices,
    pub listing: Listing,
    pub plan: BackupPlan,
    /// the stanza's list
    pub before: BackupInfo,
}
