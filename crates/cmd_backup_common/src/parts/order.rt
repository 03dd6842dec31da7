// What is to be backed up.
ghost use Rattle.std.specs.Prelude.{◌<◌, ◌^◌, length};

use base_model::{ArchiveInfo, BackupInfo};
use repo_stanza::Control;

/// Which data folder is backed up into which repository, and how many workers read it at most.
#[derive(Clone, Copy)]
pub struct TakeOrder<'a> {
    pub data_folder: &'a str,
    pub repository: &'a str,
    pub workers: u32,
    // Each worker is given both folders, with lengths of 16 bits.
    ghost short: { length data_folder.now < 2 ^ 16 },
    ghost repository_short: { length repository.now < 2 ^ 16 },
}

/// What is known of a stanza as its backup begins.
#[derive(Drop)]
pub struct KnownStanza<'a> {
    pub name: &'a str,
    /// the data folder's cluster
    pub control: &'a Control,
    /// the value of its archive pair, and that of its backup pair
    pub archive: &'a ArchiveInfo,
    pub backup: BackupInfo,
}
