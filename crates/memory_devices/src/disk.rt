// A disk in memory, with the record of what was done to it.
ghost use Rattle.std.specs.Prelude.{true, Option, ◌≡◌, ◌≤◌, [], map, length, string_bytes, is_some, option_map, IfOk, IfSome, OnOk, OnErr, IsErrOf};
ghost use Rattle.base_devices.specs.Cause.{HasCause};
ghost use Rattle.base_devices.specs.States.{Opens, last_opened};
ghost use Rattle.base_devices.specs.Content.{Holds, Reads};
ghost use Rattle.base_devices.specs.declared.device_error.DeviceError.TheVariants.{Failed, NoMemory};
ghost use Rattle.base_devices.specs.Moments.{IsImage};
ghost use Rattle.memory_devices.specs.Replay.{value_of};
ghost use Rattle.memory_devices.specs.Locks.{names_in};
ghost use Rattle.memory_devices.specs.Image.{states_then, are_unsynced, are_kept};
ghost use Rattle.memory_devices.specs.Counts.{is_to_fail, counted, tried, FailsWhere, FailsUnless, uncounted};
ghost use Rattle.memory_devices.specs.State.{first_state, given_at, begun, appended, after_sync, renamed, removed, swept};
ghost use Rattle.memory_devices.specs.declared.change.Sweep.TheVariants.{SyncFolders, SyncFolder, Sync};
ghost use Rattle.memory_devices.specs.Held.{StartsWith, state_of, view_of, Notes, IsAsBefore, FailsAtName};
ghost use Rattle.memory_devices.specs.Fair.{may_be_left, fair_first};
ghost use Rattle.memory_devices.specs.Listed.{HoldsFolders, ListsContent, ListsKept, ListsUnsynced};
ghost use Rattle.memory_devices.specs.Chosen.{LeavesChosen, NotKeptAt, NotUnsyncedAt};

use crate::change::Sweep;
use crate::failing::Failing;
use crate::held::Held;
use crate::image::{ImageFault, image_in, kept_in, unsynced_in};
use base_devices::{DeviceError, Disk, Found};
use std::alloc::{AllocError, Global};

/// A disk whose contents are known and what a crash may leave, at each moment since it was made.
#[derive(Drop)]
pub struct MemDisk {
    alloc: Global,
    held: Held,
    failing: Failing,
    // the last one first
    opened: Vec<String>,
}

impl MemDisk {
    /// A disk with these names, each of which keeps its bytes alone; of a name that is given twice the last one counts.
    /// `fail` has the numbers of the calls that are to fail, the first being 0.
    pub fn new(
        alloc: Global,
        names: Vec<(String, Vec<u8>)>,
        fail: Vec<u64>,
    ) -> Result<Self, AllocError>
        ensures view { IfOk result (λ d. StartsWith (given_at names.items) (⟦<MemDisk as Disk>⟧.state d).view) }
        ensures counts { IfOk result (λ d. d.failing ≡ uncounted fail) }
        ensures opened { IfOk result (λ d. (⟦<MemDisk as Disk>⟧.state d).opened ≡ []) }
    {
        Ok(MemDisk {
            alloc,
            held: Held::new(alloc, names)?,
            failing: Failing::new(fail),
            opened: Vec::new(alloc),
        })
    }

    /// The bytes that a name holds, where it is there.
    pub fn bytes(&self, name: &str) -> Option<&[u8]>
        ensures { Holds (⟦<MemDisk as Disk>⟧.state self.now).view.now name.now (option_map (λ b. b.now) result) }
    {
        self.held.bytes(name)
    }

    /// The moment, which is the number of its changes so far.
    pub fn moment(&self) -> u64
        ensures { result ≡ (⟦<MemDisk as Disk>⟧.state self.now).view.moment }
    {
        self.held.moment()
    }

    /// The names at which a crash at that moment may leave any bytes.
    pub fn unsynced(&self, alloc: Global, moment: u64) -> Result<Vec<String>, AllocError>
        ensures { IfOk result (λ names. ListsUnsynced (⟦<MemDisk as Disk>⟧.state self.now).view moment names.items) }
    {
        let traces = self.held.traces(alloc, moment)?;
        unsynced_in(alloc, &traces)
    }

    /// The values of which a crash at that moment leaves one at a name that isn't unsynced, the first of them first.
    pub fn kept(
        &self,
        alloc: Global,
        moment: u64,
        name: &str,
    ) -> Result<Vec<Option<Vec<u8>>>, AllocError>
        ensures values { IfOk result
            (λ v. map value_of v.items ≡ (states_then self.now.held moment name.now).kept) }
        ensures kept { IfOk result
            (λ v. ListsKept (⟦<MemDisk as Disk>⟧.state self.now).view moment name.now v.items) }
    {
        let traces = self.held.traces(alloc, moment)?;
        kept_in(alloc, &traces, name)
    }

    /// The names with bytes that a crash at that moment leaves: a name in `unsynced` has the bytes given there, any
    /// other has the kept value at its position in `choice`, or its last one. Of a name that is given twice the last
    /// one counts.
    pub fn image(
        &self,
        alloc: Global,
        moment: u64,
        choice: &[(String, u32)],
        unsynced: &[(String, Vec<u8>)],
    ) -> Result<Vec<(String, Vec<u8>)>, ImageFault>
        ensures image { IfOk result
            (λ x. IsImage (⟦<MemDisk as Disk>⟧.state self.now).view moment (given_at x.items)) }
        ensures content { IfOk result
            (λ x. LeavesChosen self.now.held moment choice.now unsynced.now x.items) }
        ensures unsynced { OnOk result (are_unsynced (states_then self.now.held moment) unsynced.now ≡ true) }
        ensures kept { OnOk result (are_kept (states_then self.now.held moment) choice.now ≡ true) }
        ensures not_unsynced { IsErrOf result ImageFault.NotUnsynced
            → NotUnsyncedAt self.now.held moment unsynced.now }
        ensures position { IsErrOf result ImageFault.Position → NotKeptAt self.now.held moment choice.now }
    {
        let traces = self.held.traces(alloc, moment)?;
        image_in(alloc, &traces, choice, unsynced)
    }

    /// How often a call failed.
    pub fn faults(&self) -> u64
        ensures { result ≡ (⟦<MemDisk as Disk>⟧.state self.now).faults }
    {
        self.failing.faults()
    }

    /// How many calls were faulty: an append, a sync or a rename of an absent name.
    pub fn faulty_calls(&self) -> u64
        ensures { result ≡ (⟦<MemDisk as Disk>⟧.state self.now).faulty_calls }
    {
        self.failing.faulty_calls()
    }

    /// The place that was opened last, and nothing before the first.
    pub fn place(&self) -> &str
        ensures { result.now ≡ last_opened (⟦<MemDisk as Disk>⟧.state self.now).opened }
    {
        match self.opened.first() {
            Some(place) => place.as_str(),
            None => "",
        }
    }

    /// The places that were opened, the last one first.
    pub fn opened(&self) -> &[String]
        ensures { map string_bytes result.now ≡ (⟦<MemDisk as Disk>⟧.state self.now).opened }
    {
        &self.opened
    }
}

impl Disk for MemDisk {
    ghost state = { λ d. record {
      view = view_of d.held;
      opened = map string_bytes d.opened.items;
      faulty_calls = d.failing.faulty_calls;
      faults = d.failing.faults;
    } };

    ghost now_may_be_left = { λ d n v holds. may_be_left (first_state d.held.given.items)
        (fair_first d.held.given.items) d.held.changes.items n v holds };

    fn open(&mut self, path: &str) -> Result<(), DeviceError>
        ensures opens { Opens result path.now (names_in self.old.opened.items) (names_in self.new.opened.items) }
        ensures same { IsAsBefore self.old.held self.new.held }
        ensures fails { FailsWhere (is_to_fail self.old.failing) result }
        ensures counts { self.new.failing ≡ counted self.old.failing }
        ensures cause { HasCause self.old.failing.faults self.new.failing.faults result }
    {
        if self.failing.fails() {
            return Err(DeviceError::Failed);
        }
        let place = String::from_str(self.alloc, path)?;
        self.opened.insert(0, place)?;
        Ok(())
    }

    fn names(&mut self, alloc: Global, folder: &str) -> Result<Vec<Found>, DeviceError>
        ensures listing { IfOk result
            (λ found. ListsContent folder.now (state_of self.old.held).now found.items) }
        ensures same { IsAsBefore self.old.held self.new.held }
        ensures fails { FailsWhere (is_to_fail self.old.failing) result }
        ensures counts { self.new.failing ≡ counted self.old.failing }
        ensures opened { self.new.opened.items ≡ self.old.opened.items }
        ensures cause { HasCause self.old.failing.faults self.new.failing.faults result }
    {
        if self.failing.fails() {
            return Err(DeviceError::Failed);
        }
        Ok(self.held.below(alloc, folder)?)
    }

    fn folders(&mut self, alloc: Global, folder: &str) -> Result<Vec<String>, DeviceError>
        ensures folders { IfOk result
            (λ known. HoldsFolders folder.now (state_of self.old.held).now known.items) }
        ensures same { IsAsBefore self.old.held self.new.held }
        ensures fails { FailsWhere (is_to_fail self.old.failing) result }
        ensures counts { self.new.failing ≡ counted self.old.failing }
        ensures opened { self.new.opened.items ≡ self.old.opened.items }
        ensures cause { HasCause self.old.failing.faults self.new.failing.faults result }
    {
        if self.failing.fails() {
            return Err(DeviceError::Failed);
        }
        Ok(self.held.folders(alloc, folder)?)
    }

    fn read(&mut self, name: &str, at: u64, buf: &mut [u8]) -> Result<Option<usize>, DeviceError>
        ensures bytes { IfOk result
            (λ n. Reads ((state_of self.old.held).now name.now) at (length buf.old) buf.new n) }
        ensures room { IfOk result (λ n. IfSome n (λ n. n ≤ length buf.old)) }
        ensures same { IsAsBefore self.old.held self.new.held }
        ensures fails { FailsWhere (is_to_fail self.old.failing) result }
        ensures counts { self.new.failing ≡ counted self.old.failing }
        ensures opened { self.new.opened.items ≡ self.old.opened.items }
        ensures cause { HasCause self.old.failing.faults self.new.failing.faults result }
    {
        if self.failing.fails() {
            return Err(DeviceError::Failed);
        }
        Ok(self.held.read(name, at, buf))
    }

    fn begin(&mut self, name: &str) -> Result<(), DeviceError>
        ensures ok { OnOk result (Notes (begun name.now) self.old.held self.new.held) }
        ensures failed { IsErrOf result Failed → FailsAtName name.now self.old self.new }
        ensures memory { IsErrOf result NoMemory → IsAsBefore self.old.held self.new.held }
        ensures fails { FailsWhere (is_to_fail self.old.failing) result }
        ensures counts { self.new.failing ≡ counted self.old.failing }
        ensures opened { self.new.opened.items ≡ self.old.opened.items }
        ensures cause { HasCause self.old.failing.faults self.new.failing.faults result }
    {
        if self.failing.fails() {
            self.held.unsync(name)?;
            return Err(DeviceError::Failed);
        }
        self.held.begin(name)?;
        Ok(())
    }

    fn append(&mut self, name: &str, bytes: &[u8]) -> Result<(), DeviceError>
        ensures ok { OnOk result (Notes (appended name.now bytes.now) self.old.held self.new.held) }
        ensures failed { IsErrOf result Failed → FailsAtName name.now self.old self.new }
        ensures memory { IsErrOf result NoMemory → IsAsBefore self.old.held self.new.held }
        ensures fails { FailsUnless (is_some ((state_of self.old.held).now name.now)) self.old.failing result }
        ensures counts { self.new.failing ≡ tried (is_some ((state_of self.old.held).now name.now)) self.old.failing }
        ensures opened { self.new.opened.items ≡ self.old.opened.items }
        ensures cause { HasCause self.old.failing.faults self.new.failing.faults result }
    {
        if self.failing.fails() {
            self.held.unsync(name)?;
            return Err(DeviceError::Failed);
        }
        if !self.held.has(name) {
            return Err(self.failing.faulty_call());
        }
        self.held.append(name, bytes)?;
        Ok(())
    }

    fn sync(&mut self, name: &str) -> Result<(), DeviceError>
        ensures ok { OnOk result (Notes (after_sync name.now) self.old.held self.new.held) }
        ensures failed { IsErrOf result Failed → FailsAtName name.now self.old self.new }
        ensures memory { IsErrOf result NoMemory → IsAsBefore self.old.held self.new.held }
        ensures fails { FailsUnless (is_some ((state_of self.old.held).now name.now)) self.old.failing result }
        ensures counts { self.new.failing ≡ tried (is_some ((state_of self.old.held).now name.now)) self.old.failing }
        ensures opened { self.new.opened.items ≡ self.old.opened.items }
        ensures cause { HasCause self.old.failing.faults self.new.failing.faults result }
    {
        if self.failing.fails() {
            self.held.unsync(name)?;
            return Err(DeviceError::Failed);
        }
        if !self.held.has(name) {
            return Err(self.failing.faulty_call());
        }
        self.held.sync(name)?;
        Ok(())
    }

    fn rename(&mut self, from: &str, to: &str) -> Result<(), DeviceError>
        ensures ok { OnOk result (Notes (renamed from.now to.now) self.old.held self.new.held) }
        ensures err { OnErr result (IsAsBefore self.old.held self.new.held) }
        ensures fails { FailsUnless (is_some ((state_of self.old.held).now from.now)) self.old.failing result }
        ensures counts { self.new.failing ≡ tried (is_some ((state_of self.old.held).now from.now)) self.old.failing }
        ensures opened { self.new.opened.items ≡ self.old.opened.items }
        ensures cause { HasCause self.old.failing.faults self.new.failing.faults result }
    {
        if self.failing.fails() {
            return Err(DeviceError::Failed);
        }
        if !self.held.has(from) {
            return Err(self.failing.faulty_call());
        }
        self.held.rename(from, to)?;
        Ok(())
    }

    fn remove(&mut self, name: &str) -> Result<(), DeviceError>
        ensures ok { OnOk result (Notes (removed name.now) self.old.held self.new.held) }
        ensures err { OnErr result (IsAsBefore self.old.held self.new.held) }
        ensures fails { FailsWhere (is_to_fail self.old.failing) result }
        ensures counts { self.new.failing ≡ counted self.old.failing }
        ensures opened { self.new.opened.items ≡ self.old.opened.items }
        ensures cause { HasCause self.old.failing.faults self.new.failing.faults result }
    {
        if self.failing.fails() {
            return Err(DeviceError::Failed);
        }
        self.held.remove(name)?;
        Ok(())
    }

    fn sync_below(&mut self, folder: &str) -> Result<(), DeviceError>
        ensures ok { OnOk result (Notes (swept Sync folder.now) self.old.held self.new.held) }
        ensures err { OnErr result (IsAsBefore self.old.held self.new.held) }
        ensures fails { FailsWhere (is_to_fail self.old.failing) result }
        ensures counts { self.new.failing ≡ counted self.old.failing }
        ensures opened { self.new.opened.items ≡ self.old.opened.items }
        ensures cause { HasCause self.old.failing.faults self.new.failing.faults result }
    {
        if self.failing.fails() {
            return Err(DeviceError::Failed);
        }
        self.held.sweep(Sweep::Sync, folder)?;
        Ok(())
    }

    fn sync_directories(&mut self, folder: &str) -> Result<(), DeviceError>
        ensures ok { OnOk result (Notes (swept SyncFolders folder.now) self.old.held self.new.held) }
        ensures err { OnErr result (IsAsBefore self.old.held self.new.held) }
        ensures fails { FailsWhere (is_to_fail self.old.failing) result }
        ensures counts { self.new.failing ≡ counted self.old.failing }
        ensures opened { self.new.opened.items ≡ self.old.opened.items }
        ensures cause { HasCause self.old.failing.faults self.new.failing.faults result }
    {
        if self.failing.fails() {
            return Err(DeviceError::Failed);
        }
        self.held.sweep(Sweep::SyncFolders, folder)?;
        Ok(())
    }

    fn sync_directory(&mut self, folder: &str) -> Result<(), DeviceError>
        ensures ok { OnOk result (Notes (swept SyncFolder folder.now) self.old.held self.new.held) }
        ensures err { OnErr result (IsAsBefore self.old.held self.new.held) }
        ensures fails { FailsWhere (is_to_fail self.old.failing) result }
        ensures counts { self.new.failing ≡ counted self.old.failing }
        ensures opened { self.new.opened.items ≡ self.old.opened.items }
        ensures cause { HasCause self.old.failing.faults self.new.failing.faults result }
    {
        if self.failing.fails() {
            return Err(DeviceError::Failed);
        }
        self.held.sweep(Sweep::SyncFolder, folder)?;
        Ok(())
    }
}
