// The locks, as files of the system.
ghost use Rattle.std.specs.Prelude.{◌≡◌, ◌≤◌, ◌∷◌, [], None, IfOk, OnErr, map, string_bytes};
ghost use Rattle.base_devices.specs.Cause.{Rises};
ghost use Rattle.base_devices.specs.Locking.{without};
ghost use Rattle.base_devices.specs.declared.locks.LockAnswer.TheVariants.{Busy};
ghost use Rattle.adapters_files.specs.Reported.{AddsLock};

use crate::lock_files::{Hold, hold_file, hold_folder};
use crate::place::no_memory;
use adapters_process::{Call, Faults};
use base_devices::{DeviceError, LockAnswer, Locks};
use std::alloc::AllocError;
use std::fs::File;
use std::io;

/// A lock that was taken. It ends as its files are closed, at the latest with the process, and no child inherits it.
#[derive(Drop)]
struct Lock {
    name: String,
    file: File,
    // what it guards in the repository
    folder: Option<File>,
}

/// Locks by the files of their names. A file is never removed: a process that opened it before would hold another lock
/// than one that makes it anew.
#[derive(Drop)]
pub struct RealLocks {
    rt: HostRuntime,
    guarded: Option<String>,
    // the last one first
    taken: Vec<Lock>,
    refusals: u64,
    faults: Faults,
}

impl RealLocks {
    pub fn new(rt: HostRuntime) -> Self
        ensures taken { (⟦<RealLocks as Locks>⟧.state result).taken ≡ [] }
        ensures faults { result.faults.count ≡ 0 }
    {
        RealLocks {
            taken: Vec::new(rt.alloc()),
            rt,
            guarded: None,
            refusals: 0,
            faults: Faults::new(),
        }
    }

    /// From now on a stanza's lock is also one of its folder in this repository. So two programs exclude each other
    /// that have other places for their locks, as another folder for temporary files.
    pub fn guard(&mut self, repo_root: &str) -> Result<(), AllocError>
        ensures { ⟦<RealLocks as Locks>⟧.state self.new ≡ ⟦<RealLocks as Locks>⟧.state self.old }
    {
        self.guarded = Some(String::from_str(self.rt.alloc(), repo_root)?);
        Ok(())
    }

    /// How often a lock was held by others.
    pub fn refusals(&self) -> u64
        ensures { result ≡ (⟦<RealLocks as Locks>⟧.state self.now).refusals }
    {
        self.refusals
    }

    /// What failed last, for a person to read.
    pub fn last_failure(&self) -> Option<&str> {
        self.faults.last()
    }

    /// How often a take failed.
    pub fn faults(&self) -> u64
        ensures { result ≡ (⟦<RealLocks as Locks>⟧.state self.now).faults }
    {
        self.faults.count
    }

    // The files of a lock: None where others hold one of them.
    fn hold(&self, folder: &str, name: &str) -> io::Result<Option<(File, Option<File>)>> {
        let Some(file) = hold_file(&self.rt, folder, name)? else {
            return Ok(None);
        };
        let Some(root) = &self.guarded else {
            return Ok(Some((file, None)));
        };
        match hold_folder(&self.rt, root, name)? {
            Hold::Others => Ok(None),
            Hold::Ours(folder) => Ok(Some((file, folder))),
        }
    }

    fn take_file(&mut self, folder: &str, name: &str) -> io::Result<LockAnswer>
        ensures taken { IfOk result (AddsLock name.now self.old.taken.items self.new.taken.items) }
        ensures err { OnErr result (self.new.taken.items ≡ self.old.taken.items) }
        ensures held { IfOk result (λ t. t ≡ Busy → Rises self.old.refusals self.new.refusals) }
        ensures later { self.old.refusals ≤ self.new.refusals }
        ensures faults { self.new.faults ≡ self.old.faults }
    {
        match self.hold(folder, name)? {
            Some((file, folder)) => {
                let name = String::from_str(self.rt.alloc(), name)?;
                let lock = Lock { name, file, folder };
                self.taken.insert(0, lock).map_err(no_memory)?;
                Ok(LockAnswer::Acquired)
            }
            None => {
                let refusals = self.refusals;
                self.refusals = refusals.saturating_add(1);
                Ok(LockAnswer::Busy)
            }
        }
    }
}

impl Locks for RealLocks {
    ghost state = { λ l. record {
      taken = map (λ x. string_bytes x.name) l.taken.items;
      ever_taken = None;
      others = None;
      refusals = l.refusals;
      faults = l.faults.count;
    } };

    fn take(&mut self, folder: &str, name: &str) -> Result<LockAnswer, DeviceError> {
        let done = self.take_file(folder, name);
        let call = call_in(&self.rt, folder, name);
        self.faults.counted(&call, done)
    }

    fn release(&mut self, name: &str) {
        self.taken.retain(|lock| lock.name.as_str() != name);
    }
}

fn call_in<'a>(rt: &HostRuntime, folder: &'a str, name: &'a str) -> Call<'a> {
    Call {
        alloc: rt.alloc(),
        act: "locking of",
        root: folder,
        name,
        to: None,
    }
}
