// What the section `backup` states.
use base_model::{BackupKind, Label, WalPart};

/// What a manifest states of its backup.
#[derive(Clone, Copy)]
pub(crate) struct Head {
    pub label: Label,
    pub kind: BackupKind,
    pub prior: Option<Label>,
    pub start: u64,
    pub stop: u64,
    pub wal: Option<WalPart>,
}
