// What was done to a disk in memory.
#[derive(Drop)]
pub(crate) enum Change {
    Begun(String),
    Appended(String, Vec<u8>),
    Unsynced(String),
    Synced(String),
    Renamed(String, String),
    Removed(String),
    Swept(Sweep, String),
}

/// What is done to many names of a folder at once.
#[derive(Clone, Copy)]
pub(crate) enum Sweep {
    /// Each name below it is synced.
    SyncFolders,
    /// Each name directly in it is synced.
    SyncFolder,
    /// Each name below it is synced.
    Sync,
}
