// What the changes of a disk in memory leave at one name.
ghost use Rattle.std.specs.Prelude.{◌≡◌, IfOk, map};
ghost use Rattle.memory_devices.specs.Replay.{value_of, arrived};

use crate::change::Sweep;
use std::alloc::{AllocError, Global};

/// A name as the changes so far left it.
#[derive(Drop)]
pub(crate) struct Trace {
    bytes: Option<Vec<u8>>,
    kept: Vec<Option<Vec<u8>>>,
    unsynced: bool,
}

impl Trace {
    ghost use Rattle.std.specs.Prelude.{OnOk, length};
    ghost use Rattle.memory_devices.specs.Image.{picked};
    ghost use Rattle.memory_devices.specs.Replay.{state_of_trace, first_at, begun_at, appended_at, unsynced_at, synced_at, removed_at, settled_at, all_synced_at, swept_at};

    /// A name that keeps this value alone.
    pub(crate) fn new(alloc: Global, bytes: Option<Vec<u8>>) -> Result<Self, AllocError>
        ensures { IfOk result (λ t. state_of_trace t ≡ first_at (value_of bytes)) }
    {
        let mut kept = Vec::new(alloc);
        kept.push(copy_of(alloc, &bytes)?)?;
        Ok(Trace {
            bytes,
            kept,
            unsynced: false,
        })
    }

    pub(crate) fn begin(&mut self, alloc: Global)
        ensures { state_of_trace self.new ≡ begun_at (state_of_trace self.old) }
    {
        self.bytes = Some(Vec::new(alloc));
        self.unsynced = true;
    }

    pub(crate) fn append(&mut self, bytes: &[u8]) -> Result<(), AllocError>
        ensures { OnOk result (state_of_trace self.new ≡ appended_at bytes.now (state_of_trace self.old)) }
    {
        if let Some(value) = &mut self.bytes {
            value.extend_from_slice(bytes)?;
        }
        self.unsynced = true;
        Ok(())
    }

    pub(crate) fn unsync(&mut self)
        ensures { state_of_trace self.new ≡ unsynced_at (state_of_trace self.old) }
    {
        self.unsynced = true;
    }

    pub(crate) fn sync(&mut self, alloc: Global) -> Result<(), AllocError>
        ensures { OnOk result (state_of_trace self.new ≡ synced_at (state_of_trace self.old)) }
    {
        let value = copy_of(alloc, &self.bytes)?;
        self.kept.push(value)?;
        self.unsynced = false;
        Ok(())
    }

    pub(crate) fn remove(&mut self) -> Result<(), AllocError>
        ensures { OnOk result (state_of_trace self.new ≡ removed_at (state_of_trace self.old)) }
    {
        self.kept.push(None)?;
        self.bytes = None;
        Ok(())
    }

    /// Takes the value of another name, which is unsynced or not.
    pub(crate) fn arrive(
        &mut self,
        alloc: Global,
        value: Option<Vec<u8>>,
        unsynced: bool,
    ) -> Result<(), AllocError>
        ensures { OnOk result (state_of_trace self.new ≡ arrived value unsynced (state_of_trace self.old)) }
    {
        self.kept.push(copy_of(alloc, &value)?)?;
        self.bytes = value;
        self.unsynced = self.unsynced || unsynced;
        Ok(())
    }

    fn sync_directories(&mut self, alloc: Global) -> Result<(), AllocError>
        ensures { OnOk result (state_of_trace self.new ≡ settled_at (state_of_trace self.old)) }
    {
        if self.unsynced {
            return Ok(());
        }
        let mut kept = Vec::new(alloc);
        kept.push(copy_of(alloc, &self.bytes)?)?;
        self.kept = kept;
        Ok(())
    }

    // Syncs a name that is unsynced and has bytes.
    fn sync_unsynced(&mut self, alloc: Global) -> Result<(), AllocError>
        ensures { OnOk result (state_of_trace self.new ≡ all_synced_at (state_of_trace self.old)) }
    {
        if self.unsynced && self.bytes.is_some() {
            self.sync(alloc)?;
        }
        Ok(())
    }

    pub(crate) fn sweep(&mut self, alloc: Global, sweep: Sweep) -> Result<(), AllocError>
        ensures { OnOk result (state_of_trace self.new ≡ swept_at sweep (state_of_trace self.old)) }
    {
        match sweep {
            Sweep::SyncFolders | Sweep::SyncFolder => self.sync_directories(alloc),
            Sweep::Sync => self.sync_unsynced(alloc),
        }
    }

    pub(crate) fn is_unsynced(&self) -> bool
        ensures { result ≡ (state_of_trace self.now).unsynced }
    {
        self.unsynced
    }

    /// The values that are kept, the first of them first.
    pub(crate) fn kept(&self, alloc: Global) -> Result<Vec<Option<Vec<u8>>>, AllocError>
        ensures { IfOk result (λ v. map value_of v.items ≡ (state_of_trace self.now).kept) }
    {
        copies_of(alloc, &self.kept)
    }

    /// How many values are kept.
    pub(crate) fn kept_count(&self) -> usize
        ensures { result ≡ length (state_of_trace self.now).kept }
    {
        self.kept.len()
    }

    /// The kept value at a position, or the last one.
    pub(crate) fn pick(
        &self,
        alloc: Global,
        position: Option<u32>,
    ) -> Result<Option<Vec<u8>>, AllocError>
        ensures { IfOk result (λ v. value_of v ≡ picked (state_of_trace self.now).kept position) }
    {
        let at = match position {
            Some(position) => position as usize,
            None => self.kept.len().saturating_sub(1),
        };
        match self.kept.get(at) {
            Some(value) => copy_of(alloc, value),
            None => Ok(None),
        }
    }

    /// The value that it holds.
    pub(crate) fn value(&self, alloc: Global) -> Result<Option<Vec<u8>>, AllocError>
        ensures { IfOk result (λ v. value_of v ≡ (state_of_trace self.now).now) }
    {
        copy_of(alloc, &self.bytes)
    }
}

// Another copy of each value.
fn copies_of(alloc: Global, values: &[Option<Vec<u8>>]) -> Result<Vec<Option<Vec<u8>>>, AllocError>
    ensures { IfOk result (λ v. map value_of v.items ≡ map value_of values.now) }
{
    let mut copies = Vec::new(alloc);
    for value in values {
        copies.push(copy_of(alloc, value)?)?;
    }
    Ok(copies)
}

// Another copy of a value.
fn copy_of(alloc: Global, value: &Option<Vec<u8>>) -> Result<Option<Vec<u8>>, AllocError>
    ensures { IfOk result (λ v. value_of v ≡ value_of value.now) }
{
    match value {
        Some(bytes) => Ok(Some(bytes.to_vec(alloc)?)),
        None => Ok(None),
    }
}
