// What the stages hand to a command.

use base_model::{ArchiveInfo, BackupInfo};
use repo_stanza::Control;

/// What was read before the command's own part, as far as its plan says so.
#[derive(Debug, Drop)]
pub struct Ready {
    pub control: Option<Control>,
    pub archive: Option<ArchiveInfo>,
    pub backup: Option<BackupInfo>,
}
