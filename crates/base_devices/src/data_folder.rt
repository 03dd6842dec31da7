// A data folder: nodes below a root.
ghost use Rattle.std.specs.Prelude.{◌≡◌, ◌≤◌, Option, None, IfOk, OnOk, IfSome, length};
ghost use Rattle.base_devices.specs.DataFolder.{IsPlaced, IsFileAt, IsBare, with_node, moved_node, ChangesTree, RemovesSynced, BeginsNew, AppendsFile, BeginsEmpty, with_folder, timed_file};
ghost use Rattle.base_devices.specs.States.{DataFolderState, Opens, OnlyReadsFolder, HasFileSize, ListsTree, MovesProperly, ProperInFolder, ReadsFile, ListsWithin, IsSyncedAt, AllSynced, StaySynced, StaySyncedBut, StaySyncedButTwo};
ghost use Rattle.base_devices.specs.Cause.{HasCause};

use crate::DeviceError;
use std::alloc::Global;

/// What is at a path. A size is in bytes; a time is in seconds since 1970, and 0 where it is earlier.
#[derive(Clone, Copy, Debug, PartialEq, Eq)]
pub enum Node {
    File { size: u64, time: u64 },
    Folder,
    Link,
    Other,
}

/// A node of a listing. The path is relative to the root, with `/` between its elements.
#[derive(Drop)]
pub struct FolderEntry {
    pub path: String,
    pub node: Node,
}

/// The files of a data folder that may be read here; all others are read by workers alone.
#[derive(Drop)]
pub enum ReadableFile {
    /// `global/pg_control`
    Control,
    /// `PG_VERSION`
    Version,
    /// the file of that name in `pg_wal`
    Wal(String),
}

/// A data folder. Paths are relative to the place that was opened last.
pub trait DataFolder {
    /// What it holds and what of it is synced, the places that were opened, and its counts.
    ghost state: { Self → DataFolderState };

    /// Opens a folder as the root, and makes it where it is absent.
    fn open(&mut self, path: &str) -> Result<(), DeviceError>
        ensures opens { Opens result path.now (state self.old).opened (state self.new).opened }
        ensures nodes { (state self.new).nodes ≡ (state self.old).nodes }
        ensures proper { ProperInFolder (state self.old) (state self.new) }
        ensures synced { StaySynced (state self.old) (state self.new) }
        ensures cause { HasCause (state self.old).faults (state self.new).faults result };

    /// Every node below the root. Links aren't followed.
    fn list(&mut self, alloc: Global) -> Result<Vec<FolderEntry>, DeviceError>
        ensures listing { IfOk result (λ seen. ListsTree (state self.old) seen.items) }
        ensures looks { OnlyReadsFolder (state self.old) (state self.new) }
        ensures synced { StaySynced (state self.old) (state self.new) }
        ensures cause { HasCause (state self.old).faults (state self.new).faults result };

    /// The nodes right within a folder, with their paths below the root; none where the folder isn't there. Links aren't
    /// followed.
    fn list_folder(&mut self, alloc: Global, folder: &str) -> Result<Vec<FolderEntry>, DeviceError>
        ensures listing { IfOk result (λ seen. ListsWithin folder.now (state self.old) seen.items) }
        ensures looks { OnlyReadsFolder (state self.old) (state self.new) }
        ensures synced { StaySynced (state self.old) (state self.new) }
        ensures cause { HasCause (state self.old).faults (state self.new).faults result };

    /// Bytes of a known file from a place on: None where it isn't a file that is there, 0 at its end.
    fn read(
        &mut self,
        what: &ReadableFile,
        at: u64,
        buf: &mut [u8],
    ) -> Result<Option<usize>, DeviceError>
        ensures bytes { IfOk result (λ n. ReadsFile (state self.old) what.now at buf.old buf.new n) }
        ensures room { IfOk result (λ n. IfSome n (λ n. n ≤ length buf.old)) }
        ensures looks { OnlyReadsFolder (state self.old) (state self.new) }
        ensures synced { StaySynced (state self.old) (state self.new) }
        ensures cause { HasCause (state self.old).faults (state self.new).faults result };

    /// How many bytes a known file has: None where it isn't a file that is there.
    fn size(&mut self, what: &ReadableFile) -> Result<Option<u64>, DeviceError>
        ensures size { IfOk result (λ n. HasFileSize (state self.old) what.now n) }
        ensures looks { OnlyReadsFolder (state self.old) (state self.new) }
        ensures synced { StaySynced (state self.old) (state self.new) }
        ensures cause { HasCause (state self.old).faults (state self.new).faults result };

    /// Makes a folder.
    fn make(&mut self, folder: &str) -> Result<(), DeviceError>
        ensures nodes { ChangesTree result (with_folder folder.now) (state self.old).nodes (state self.new).nodes }
        ensures proper { IsPlaced (state self.old).nodes folder.now → ProperInFolder (state self.old) (state self.new) }
        ensures opened { (state self.new).opened ≡ (state self.old).opened }
        ensures synced { StaySyncedBut folder.now (state self.old) (state self.new) }
        ensures cause { HasCause (state self.old).faults (state self.new).faults result };

    /// Makes the path a file of no bytes.
    fn begin(&mut self, path: &str) -> Result<(), DeviceError>
        ensures nodes { BeginsEmpty result path.now (state self.old).nodes (state self.new).nodes }
        ensures proper { IsPlaced (state self.old).nodes path.now → ProperInFolder (state self.old) (state self.new) }
        ensures opened { (state self.new).opened ≡ (state self.old).opened }
        ensures synced { StaySyncedBut path.now (state self.old) (state self.new) }
        ensures cause { HasCause (state self.old).faults (state self.new).faults result };

    /// Makes the path a file of no bytes where nothing is there, and returns whether it did.
    fn begin_new(&mut self, path: &str) -> Result<bool, DeviceError>
        ensures nodes { BeginsNew result path.now (state self.old).nodes (state self.new).nodes }
        ensures proper { IsPlaced (state self.old).nodes path.now → ProperInFolder (state self.old) (state self.new) }
        ensures opened { (state self.new).opened ≡ (state self.old).opened }
        ensures synced { StaySyncedBut path.now (state self.old) (state self.new) }
        ensures cause { HasCause (state self.old).faults (state self.new).faults result };

    /// Adds bytes at the end of a file.
    fn append(&mut self, path: &str, bytes: &[u8]) -> Result<(), DeviceError>
        ensures nodes { AppendsFile result path.now bytes.now (state self.old).nodes (state self.new).nodes }
        ensures there { OnOk result (IsFileAt (state self.old).nodes path.now) }
        ensures proper { IsFileAt (state self.old).nodes path.now → ProperInFolder (state self.old) (state self.new) }
        ensures opened { (state self.new).opened ≡ (state self.old).opened }
        ensures synced { StaySyncedBut path.now (state self.old) (state self.new) }
        ensures cause { HasCause (state self.old).faults (state self.new).faults result };

    /// Gives a file this time.
    fn set_time(&mut self, path: &str, time: u64) -> Result<(), DeviceError>
        ensures nodes { ChangesTree result (timed_file path.now time) (state self.old).nodes (state self.new).nodes }
        ensures there { OnOk result (IsFileAt (state self.old).nodes path.now) }
        ensures proper { IsFileAt (state self.old).nodes path.now → ProperInFolder (state self.old) (state self.new) }
        ensures opened { (state self.new).opened ≡ (state self.old).opened }
        ensures synced { StaySyncedBut path.now (state self.old) (state self.new) }
        ensures cause { HasCause (state self.old).faults (state self.new).faults result };

    /// Moves a file to another path; its time goes along.
    fn rename(&mut self, from: &str, to: &str) -> Result<(), DeviceError>
        ensures nodes { ChangesTree result (moved_node from.now to.now) (state self.old).nodes (state self.new).nodes }
        ensures there { OnOk result (IsFileAt (state self.old).nodes from.now) }
        ensures proper { MovesProperly from.now to.now (state self.old) (state self.new) }
        ensures opened { (state self.new).opened ≡ (state self.old).opened }
        ensures synced { StaySyncedButTwo from.now to.now (state self.old) (state self.new) }
        ensures cause { HasCause (state self.old).faults (state self.new).faults result };

    /// Removes a node, but no folder that holds something.
    fn remove(&mut self, path: &str) -> Result<(), DeviceError>
        ensures nodes { ChangesTree result (with_node path.now None) (state self.old).nodes (state self.new).nodes }
        ensures bare { OnOk result (IsBare (state self.old).nodes path.now) }
        ensures proper { IsBare (state self.old).nodes path.now → ProperInFolder (state self.old) (state self.new) }
        ensures opened { (state self.new).opened ≡ (state self.old).opened }
        ensures synced { StaySyncedBut path.now (state self.old) (state self.new) }
        ensures cause { HasCause (state self.old).faults (state self.new).faults result };

    /// Syncs all that was done.
    fn sync(&mut self) -> Result<(), DeviceError>
        ensures all { OnOk result (AllSynced (state self.new)) }
        ensures nodes { (state self.new).nodes ≡ (state self.old).nodes }
        ensures proper { ProperInFolder (state self.old) (state self.new) }
        ensures opened { (state self.new).opened ≡ (state self.old).opened }
        ensures synced { StaySynced (state self.old) (state self.new) }
        ensures cause { HasCause (state self.old).faults (state self.new).faults result };

    /// Moves a file to another path, and syncs both names; its time goes along.
    fn rename_synced(&mut self, from: &str, to: &str) -> Result<(), DeviceError>
        ensures nodes { ChangesTree result (moved_node from.now to.now) (state self.old).nodes (state self.new).nodes }
        ensures there { OnOk result (IsFileAt (state self.old).nodes from.now) }
        ensures source { OnOk result (IsSyncedAt (state self.new) from.now) }
        ensures target { OnOk result (IsSyncedAt (state self.new) to.now) }
        ensures proper { MovesProperly from.now to.now (state self.old) (state self.new) }
        ensures opened { (state self.new).opened ≡ (state self.old).opened }
        ensures synced { StaySyncedButTwo from.now to.now (state self.old) (state self.new) }
        ensures cause { HasCause (state self.old).faults (state self.new).faults result };

    /// Removes a node, but no folder that holds something, and syncs its name. Where that fails it may be removed.
    fn remove_synced(&mut self, path: &str) -> Result<(), DeviceError>
        ensures nodes { RemovesSynced result path.now (state self.old).nodes (state self.new).nodes }
        ensures bare { OnOk result (IsBare (state self.old).nodes path.now) }
        ensures gone { OnOk result (IsSyncedAt (state self.new) path.now) }
        ensures proper { IsBare (state self.old).nodes path.now → ProperInFolder (state self.old) (state self.new) }
        ensures opened { (state self.new).opened ≡ (state self.old).opened }
        ensures synced { StaySyncedBut path.now (state self.old) (state self.new) }
        ensures cause { HasCause (state self.old).faults (state self.new).faults result };
}
