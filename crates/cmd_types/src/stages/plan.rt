// What a command needs of the stages before its own part.

/// What is done with a stanza's info pairs.
#[derive(Clone, Copy, Debug, PartialEq, Eq)]
pub enum Pairs {
    Unread,
    ReadArchive,
    HealArchive,
    ReadBoth,
}

/// Which names a crash can no longer take back as a command's own part begins.
#[derive(Clone, Copy, Debug, PartialEq, Eq)]
pub enum SyncScope {
    /// Those of all the stanza's folders, so that all that is left represents one repository.
    Whole,
    /// Those that are looked at, each folder before the look.
    Looked,
}

/// What a command needs: the data folder opened, locks taken, names synced, the control file read, the pairs read or
/// healed.
#[derive(Clone, Copy, Debug, PartialEq, Eq)]
pub struct Plan {
    pub sync_scope: SyncScope,
    pub folder: bool,
    pub backup_lock: bool,
    pub archive_lock: bool,
    pub control: bool,
    pub pairs: Pairs,
}
