// What is to be backed up, and how.
use backup_plan::PlanSettings;
use base_model::{BackupKind, FileEntry};
use cmd_backup_common::{KnownStanza, TakeOrder};

/// Which data folder is backed up, and which backup is asked for.
#[derive(Clone, Copy)]
pub struct OfflineOrder<'a> {
    pub take: TakeOrder<'a>,
    /// pgBackRest's option `type`
    pub kind: BackupKind,
    pub settings: PlanSettings,
}

/// Which backup of a stopped server is to be made, and what is known of its stanza.
#[derive(Drop)]
pub struct OfflineTask<'a> {
    pub order: OfflineOrder<'a>,
    pub stanza: KnownStanza<'a>,
}

/// Which backup of a stanza is to be made, and on what it is based.
#[derive(Clone, Copy)]
pub struct BackupBasis<'a> {
    pub stanza: &'a str,
    pub order: OfflineOrder<'a>,
    /// the files of the manifest of the backup that it is based on, and none without one
    pub old: &'a [FileEntry],
}
