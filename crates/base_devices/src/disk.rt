// A disk: names with bytes, and what a crash may leave of them (POSIX `write`, `fsync` and `rename`).
ghost use Rattle.std.specs.Prelude.{◌≡◌, ◌⊎◌, ◌≤◌, [], Option, Some, None, false, true, IfOk, OnOk, IfSome, length};
ghost use Rattle.base_devices.specs.Content.{Name, Value, put, moved, LiesDirectlyIn, Holds, IsThere, Changes, Appends, IsBelow, ReadsFrom};
ghost use Rattle.base_devices.specs.Moments.{GrowsBy, LeavesNoMore, MayKeep, is_unsynced, GrowsByMove, GrowsBySync};
ghost use Rattle.base_devices.specs.States.{DiskState, Opens, OnlyReads, Works, ListsBelow, ListsFolders, MakesDurable, ProperOnDisk, SyncsBytes, WorksBySync};
ghost use Rattle.base_devices.specs.Cause.{HasCause};

use crate::DeviceError;
use std::alloc::Global;

/// A name below a folder, whole, with the length of its bytes.
#[derive(Drop)]
pub struct Found {
    pub name: String,
    pub size: u64,
}

/// A store of names with bytes. Folders are there by their names alone. Names are relative to the place that was opened
/// last, with `/` between their elements.
pub trait Disk {
    /// What it holds, what a crash may leave, the places that were opened, and its counts.
    ghost state: { Self → DiskState };

    /// Opens a folder as the root, and makes it where it is absent.
    fn open(&mut self, path: &str) -> Result<(), DeviceError>
        ensures opens { Opens result path.now (state self.old).opened (state self.new).opened }
        ensures now { (state self.new).view.now ≡ (state self.old).view.now }
        ensures time { LeavesNoMore (state self.old).view (state self.new).view }
        ensures proper { ProperOnDisk (state self.old) (state self.new) }
        ensures cause { HasCause (state self.old).faults (state self.new).faults result };

    /// Every name at any depth below the folder; an absent folder has none.
    fn names(&mut self, alloc: Global, folder: &str) -> Result<Vec<Found>, DeviceError>
        ensures listing { IfOk result (λ found. ListsBelow folder.now (state self.old) found.items) }
        ensures looks { OnlyReads (state self.old) (state self.new) }
        ensures cause { HasCause (state self.old).faults (state self.new).faults result };

    /// The own names of the folders that are directly in the folder, in any order; one may come twice, and one may
    /// hold nothing. An absent folder has none.
    fn folders(&mut self, alloc: Global, folder: &str) -> Result<Vec<String>, DeviceError>
        ensures folders { IfOk result (λ known. ListsFolders folder.now (state self.old) known.items) }
        ensures looks { OnlyReads (state self.old) (state self.new) }
        ensures cause { HasCause (state self.old).faults (state self.new).faults result };

    /// Bytes of a name from a place on: None where it is absent, 0 at its end.
    fn read(&mut self, name: &str, at: u64, buf: &mut [u8]) -> Result<Option<usize>, DeviceError>
        ensures bytes { IfOk result (λ n. ReadsFrom (state self.old).view.now name.now at buf.old buf.new n) }
        ensures room { IfOk result (λ n. IfSome n (λ n. n ≤ length buf.old)) }
        ensures looks { OnlyReads (state self.old) (state self.new) }
        ensures cause { HasCause (state self.old).faults (state self.new).faults result };

    /// Makes the name hold no bytes.
    fn begin(&mut self, name: &str) -> Result<(), DeviceError>
        ensures now { Changes result (put name.now (Some [])) (state self.old).view.now (state self.new).view.now }
        ensures works { Works (λ _ _. ⊥) (λ n. n ≡ name.now) (state self.old) (state self.new) }
        ensures cause { HasCause (state self.old).faults (state self.new).faults result };

    /// Adds bytes at the end.
    fn append(&mut self, name: &str, bytes: &[u8]) -> Result<(), DeviceError>
        ensures now { Appends result name.now bytes.now (state self.old).view.now (state self.new).view.now }
        ensures time { GrowsBy (λ _ _. ⊥) (λ n. n ≡ name.now) (state self.old).view (state self.new).view }
        ensures there { OnOk result (IsThere (state self.old).view.now name.now) }
        ensures proper { IsThere (state self.old).view.now name.now → ProperOnDisk (state self.old) (state self.new) }
        ensures opened { (state self.new).opened ≡ (state self.old).opened }
        ensures cause { HasCause (state self.old).faults (state self.new).faults result };

    /// After it a crash leaves the bytes or what was kept before.
    fn sync(&mut self, name: &str) -> Result<(), DeviceError>
        ensures now { (state self.new).view.now ≡ (state self.old).view.now }
        ensures time { GrowsBySync (λ n. n ≡ name.now) (state self.old).view (state self.new).view }
        ensures synced { OnOk result (is_unsynced (state self.new).view name.now ≡ false) }
        ensures there { OnOk result (IsThere (state self.old).view.now name.now) }
        ensures proper { IsThere (state self.old).view.now name.now → ProperOnDisk (state self.old) (state self.new) }
        ensures opened { (state self.new).opened ≡ (state self.old).opened }
        ensures cause { HasCause (state self.old).faults (state self.new).faults result };

    /// Moves the value of a name to another.
    fn rename(&mut self, from: &str, to: &str) -> Result<(), DeviceError>
        ensures now { Changes result (moved from.now to.now) (state self.old).view.now (state self.new).view.now }
        ensures time { GrowsByMove from.now to.now (state self.old).view (state self.new).view }
        ensures there { OnOk result (IsThere (state self.old).view.now from.now) }
        ensures proper { IsThere (state self.old).view.now from.now → ProperOnDisk (state self.old) (state self.new) }
        ensures opened { (state self.new).opened ≡ (state self.old).opened }
        ensures cause { HasCause (state self.old).faults (state self.new).faults result };

    /// Removes a name.
    fn remove(&mut self, name: &str) -> Result<(), DeviceError>
        ensures now { Changes result (put name.now None) (state self.old).view.now (state self.new).view.now }
        ensures works { Works (λ n v. (n ≡ name.now) × (v ≡ None)) (λ _. ⊥) (state self.old) (state self.new) }
        ensures cause { HasCause (state self.old).faults (state self.new).faults result };

    /// After it a crash leaves each name below the folder its bytes or what was kept before.
    fn sync_below(&mut self, folder: &str) -> Result<(), DeviceError>
        ensures now { (state self.new).view.now ≡ (state self.old).view.now }
        ensures works { WorksBySync (IsBelow folder.now) (state self.old) (state self.new) }
        ensures synced { OnOk result (SyncsBytes (IsBelow folder.now) (state self.old) (state self.new)) }
        ensures cause { HasCause (state self.old).faults (state self.new).faults result };

    /// After it a crash leaves at each name below the folder that isn't unsynced what it holds.
    fn sync_directories(&mut self, folder: &str) -> Result<(), DeviceError>
        ensures looks { OnlyReads (state self.old) (state self.new) }
        ensures settled { OnOk result (MakesDurable (IsBelow folder.now) (state self.old) (state self.new)) }
        ensures cause { HasCause (state self.old).faults (state self.new).faults result };

    /// The same for the names directly in the folder alone.
    fn sync_directory(&mut self, folder: &str) -> Result<(), DeviceError>
        ensures looks { OnlyReads (state self.old) (state self.new) }
        ensures settled { OnOk result (MakesDurable (LiesDirectlyIn folder.now) (state self.old) (state self.new)) }
        ensures cause { HasCause (state self.old).faults (state self.new).faults result };

    /// A crash may leave what it holds.
    ghost now_may_be_left: { (d : Self) (n : Name) (v : Value) → Holds (state d).view.now n v
        → MayKeep (state d).view n v ⊎ (is_unsynced (state d).view n ≡ true) };
}
