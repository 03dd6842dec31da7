// What a disk in memory holds, besides the record of the changes that made it.
ghost use Rattle.std.specs.Prelude.{◌≡◌, ◌≤◌, [], length, IfSome, IfOk, OnOk, OnErr, IsSome, Some, None, is_some, option_map, map, string_bytes};
ghost use Rattle.base_devices.specs.Content.{AreFolders, Reads, put, lengthened, moved};
ghost use Rattle.memory_devices.specs.Agrees.{Agrees, bytes_at};
ghost use Rattle.memory_devices.specs.State.{given_at};
ghost use Rattle.memory_devices.specs.Listed.{FoldersAmong, ListsContent};
ghost use Rattle.memory_devices.specs.Replay.{unless_same};

use crate::below::{folder_within, lies_below};
use crate::change::{Change, Sweep};
use crate::copy::copy_part;
use crate::replay::{Traces, traces_after};
use base_devices::Found;
use std::alloc::{AllocError, Global};
use std::collections::BTreeMap;

pub(crate) type Names = BTreeMap<String, Vec<u8>>;

/// The bytes of each name, and how they came about.
#[derive(Drop)]
pub(crate) struct Held {
    alloc: Global,
    given: Vec<(String, Vec<u8>)>,
    names: BTreeMap<String, Vec<u8>>,
    changes: Vec<Change>,
    ghost agrees: { Agrees given.items names changes.items },
}

impl Held {
    ghost use Rattle.memory_devices.specs.State.{begun, appended, newly_unsynced, after_sync, renamed, removed, swept};
    ghost use Rattle.memory_devices.specs.Held.{state_of, Notes, IsAsBefore};
    ghost use Rattle.memory_devices.specs.Replay.{states_in};
    ghost use Rattle.memory_devices.specs.Image.{states_then};

    pub(crate) fn new(alloc: Global, given: Vec<(String, Vec<u8>)>) -> Result<Self, AllocError>
        ensures given { IfOk result (λ h. h.given.items ≡ given.items) }
        ensures changes { IfOk result (λ h. h.changes.items ≡ []) }
    {
        let names = names_of(alloc, &given)?;
        Ok(Held {
            alloc,
            given,
            names,
            changes: Vec::new(alloc),
        })
    }

    /// The bytes of a name, where it is there.
    pub(crate) fn bytes(&self, name: &str) -> Option<&[u8]>
        ensures { option_map (λ b. b.now) result ≡ (state_of self.now).now name.now }
    {
        match self.names.get(name) {
            Some(bytes) => Some(bytes),
            None => None,
        }
    }

    pub(crate) fn has(&self, name: &str) -> bool
        ensures { result ≡ is_some ((state_of self.now).now name.now) }
    {
        self.names.contains_key(name)
    }

    /// Reads bytes of a name from a place on.
    pub(crate) fn read(&self, name: &str, at: u64, buf: &mut [u8]) -> Option<usize>
        ensures reads { Reads ((state_of self.now).now name.now) at (length buf.old) buf.new result }
        ensures room { IfSome result (λ n. n ≤ length buf.old) }
    {
        match self.names.get(name) {
            Some(bytes) => Some(copy_part(bytes, at, buf)),
            None => None,
        }
    }

    /// Every name at any depth below the folder, with the length of its bytes, in byte order.
    pub(crate) fn below(&self, alloc: Global, folder: &str) -> Result<Vec<Found>, AllocError>
        ensures { IfOk result (λ found. ListsContent folder.now (state_of self.now).now found.items) }
    {
        names_below(alloc, &self.names, folder)
    }

    /// The names of the folders directly in the folder, one for each name that leads through it.
    pub(crate) fn folders(&self, alloc: Global, folder: &str) -> Result<Vec<String>, AllocError>
        ensures { IfOk result (λ known. AreFolders folder.now (state_of self.now).now (map string_bytes known.items)) }
    {
        let found = names_below(alloc, &self.names, folder)?;
        folders_among(alloc, &found, folder)
    }

    /// The moment, each change being one.
    pub(crate) fn moment(&self) -> u64
        ensures { result ≡ length self.now.changes.items }
    {
        self.changes.len() as u64
    }

    /// What the changes up to a moment left at each name.
    pub(crate) fn traces(&self, alloc: Global, moment: u64) -> Result<Traces, AllocError>
        ensures { IfOk result (λ t. states_in t ≡ states_then self.now moment) }
    {
        let count = moment.min(self.changes.len() as u64) as usize;
        traces_after(alloc, &self.given, &self.changes[..count])
    }

    /// Makes the name hold no bytes.
    pub(crate) fn begin(&mut self, name: &str) -> Result<(), AllocError>
        ensures ok { OnOk result (Notes (begun name.now) self.old self.new) }
        ensures err { OnErr result (IsAsBefore self.old self.new) }
    {
        let noted = String::from_str(self.alloc, name)?;
        self.changes.push(Change::Begun(noted))?;
        if set(self.alloc, &mut self.names, name, Vec::new(self.alloc)).is_err() {
            let _ = self.changes.pop();
            return Err(AllocError);
        }
        Ok(())
    }

    /// Adds bytes at the end of a name that is there.
    pub(crate) fn append(&mut self, name: &str, bytes: &[u8]) -> Result<(), AllocError>
        ensures ok { OnOk result (Notes (appended name.now bytes.now) self.old self.new) }
        ensures err { OnErr result (IsAsBefore self.old self.new) }
    {
        let noted = String::from_str(self.alloc, name)?;
        let added = Vec::from_slice(self.alloc, bytes)?;
        self.changes.push(Change::Appended(noted, added))?;
        if extend(&mut self.names, name, bytes).is_err() {
            let _ = self.changes.pop();
            return Err(AllocError);
        }
        Ok(())
    }

    /// Notes that the name was synced.
    pub(crate) fn sync(&mut self, name: &str) -> Result<(), AllocError>
        ensures ok { OnOk result (Notes (after_sync name.now) self.old self.new) }
        ensures err { OnErr result (IsAsBefore self.old self.new) }
    {
        let noted = String::from_str(self.alloc, name)?;
        self.changes.push(Change::Synced(noted))?;
        Ok(())
    }

    /// Moves the value of a name that is there to another.
    pub(crate) fn rename(&mut self, from: &str, to: &str) -> Result<(), AllocError>
        requires { IsSome ((state_of self.old).now from.now) }
        ensures ok { OnOk result (Notes (renamed from.now to.now) self.old self.new) }
        ensures err { OnErr result (IsAsBefore self.old self.new) }
    {
        let noted_from = String::from_str(self.alloc, from)?;
        let noted_to = String::from_str(self.alloc, to)?;
        self.changes.push(Change::Renamed(noted_from, noted_to))?;
        if move_value(self.alloc, &mut self.names, from, to).is_err() {
            let _ = self.changes.pop();
            return Err(AllocError);
        }
        Ok(())
    }

    /// Removes the name.
    pub(crate) fn remove(&mut self, name: &str) -> Result<(), AllocError>
        ensures ok { OnOk result (Notes (removed name.now) self.old self.new) }
        ensures err { OnErr result (IsAsBefore self.old self.new) }
    {
        let noted = String::from_str(self.alloc, name)?;
        self.changes.push(Change::Removed(noted))?;
        let _ = self.names.remove(name);
        Ok(())
    }

    /// Notes a sweep of the folder.
    pub(crate) fn sweep(&mut self, sweep: Sweep, folder: &str) -> Result<(), AllocError>
        ensures ok { OnOk result (Notes (swept sweep folder.now) self.old self.new) }
        ensures err { OnErr result (IsAsBefore self.old self.new) }
    {
        let noted = String::from_str(self.alloc, folder)?;
        self.changes.push(Change::Swept(sweep, noted))?;
        Ok(())
    }

    /// Notes that the name may be left with any bytes.
    pub(crate) fn unsync(&mut self, name: &str) -> Result<(), AllocError>
        ensures ok { OnOk result (Notes (newly_unsynced name.now) self.old self.new) }
        ensures err { OnErr result (IsAsBefore self.old self.new) }
    {
        let noted = String::from_str(self.alloc, name)?;
        self.changes.push(Change::Unsynced(noted))?;
        Ok(())
    }
}

/// A map of names with their bytes, the last of each counting.
pub(crate) fn names_of(alloc: Global, given: &[(String, Vec<u8>)]) -> Result<Names, AllocError>
    ensures { IfOk result (λ m. bytes_at m ≡ given_at given.now) }
{
    let mut names = BTreeMap::new(alloc);
    for (name, bytes) in given {
        set(alloc, &mut names, name, bytes.to_vec(alloc)?)?;
    }
    Ok(names)
}

// The names of a map that lie below the folder.
fn names_below(alloc: Global, names: &Names, folder: &str) -> Result<Vec<Found>, AllocError>
    ensures { IfOk result (λ found. ListsContent folder.now (bytes_at names.now) found.items) }
{
    let mut found = Vec::new(alloc);
    for (name, bytes) in names {
        if lies_below(name, folder) {
            found.push(Found {
                name: name.clone()?,
                size: bytes.len() as u64,
            })?;
        }
    }
    Ok(found)
}

// The folders directly in the folder through which the names that were found below it lead.
fn folders_among(alloc: Global, found: &[Found], folder: &str) -> Result<Vec<String>, AllocError>
    ensures { IfOk result (λ known. FoldersAmong folder.now found.now known.items) }
{
    let mut known = Vec::new(alloc);
    for Found { name, .. } in found {
        if let Some(within) = folder_within(name.as_str(), folder) {
            known.push(String::from_str(alloc, within)?)?;
        }
    }
    Ok(known)
}

// Gives the name this value.
fn set(alloc: Global, names: &mut Names, name: &str, value: Vec<u8>) -> Result<(), AllocError>
    ensures ok { OnOk result (bytes_at names.new ≡ put name.now (Some value.items) (bytes_at names.old)) }
    ensures err { OnErr result (bytes_at names.new ≡ bytes_at names.old) }
{
    let key = String::from_str(alloc, name)?;
    match names.insert(key, value) {
        Ok(_) => Ok(()),
        Err(_) => Err(AllocError),
    }
}

// Adds bytes at the end of a name that is there.
fn extend(names: &mut Names, name: &str, bytes: &[u8]) -> Result<(), AllocError>
    ensures ok { OnOk result (bytes_at names.new ≡ lengthened name.now bytes.now (bytes_at names.old)) }
    ensures err { OnErr result (bytes_at names.new ≡ bytes_at names.old) }
{
    match names.get_mut(name) {
        Some(value) => {
            value.extend_from_slice(bytes)?;
            Ok(())
        }
        None => Ok(()),
    }
}

// The bytes of a name that is there.
fn copy_of(alloc: Global, names: &Names, name: &str) -> Result<Vec<u8>, AllocError>
    requires { IsSome (bytes_at names.now name.now) }
    ensures { IfOk result (λ v. bytes_at names.now name.now ≡ Some v.items) }
{
    match names.get(name) {
        Some(bytes) => Ok(bytes.to_vec(alloc)?),
        None => Ok(Vec::new(alloc)),
    }
}

// Removes a name, but not where it is the other one.
fn drop_other(names: &mut Names, from: &str, to: &str)
    ensures { bytes_at names.new ≡ unless_same from.now to.now (put from.now None) (bytes_at names.old) }
{
    if from != to {
        let _ = names.remove(from);
    }
}

// Moves the value of a name that is there to another.
fn move_value(alloc: Global, names: &mut Names, from: &str, to: &str) -> Result<(), AllocError>
    requires { IsSome (bytes_at names.old from.now) }
    ensures ok { OnOk result (bytes_at names.new ≡ moved from.now to.now (bytes_at names.old)) }
    ensures err { OnErr result (bytes_at names.new ≡ bytes_at names.old) }
{
    let value = copy_of(alloc, names, from)?;
    set(alloc, names, to, value)?;
    drop_other(names, from, to);
    Ok(())
}
