// An object that isn't there: each call that can fail does, and raises its count.
ghost use Rattle.std.specs.Prelude.{None, false, []};

use crate::{
    Clock, DeviceError, Disk, Files, Found, InputFiles, Link, LockAnswer, Locks, ServerConnection,
};
use std::alloc::Global;

/// Takes the place of an object that no command calls.
#[derive(Drop)]
pub struct NotThere {
    faults: u64,
}

impl NotThere {
    ghost use Rattle.std.specs.Prelude.{◌≡◌, ◌≤◌};
    ghost use Rattle.base_devices.specs.Cause.{Rises};

    pub fn new() -> Self
        ensures { result.faults ≡ 0 }
    {
        NotThere { faults: 0 }
    }

    /// Fails.
    pub fn fail<T>(&mut self) -> Result<T, DeviceError>
        ensures later { self.old.faults ≤ self.new.faults }
        ensures rises { Rises self.old.faults self.new.faults }
        ensures failed { result ≡ Err DeviceError.Failed }
    {
        self.faults = self.faults.saturating_add(1);
        Err(DeviceError::Failed)
    }
}

impl Disk for NotThere {
    ghost state = { λ it. record {
      view = record { now = None; moment = 0; kept = λ _ _ _. ⊥; unsynced = λ _ _. false };
      opened = [];
      faulty_calls = 0;
      faults = it.faults;
    } };

    ghost now_may_be_left = { λ d n v h. absurd h };

    fn open(&mut self, _path: &str) -> Result<(), DeviceError> {
        self.fail()
    }

    fn names(&mut self, _alloc: Global, _folder: &str) -> Result<Vec<Found>, DeviceError> {
        self.fail()
    }

    fn folders(&mut self, _alloc: Global, _folder: &str) -> Result<Vec<String>, DeviceError> {
        self.fail()
    }

    fn read(
        &mut self,
        _name: &str,
        _at: u64,
        _buf: &mut [u8],
    ) -> Result<Option<usize>, DeviceError> {
        self.fail()
    }

    fn begin(&mut self, _name: &str) -> Result<(), DeviceError> {
        self.fail()
    }

    fn append(&mut self, _name: &str, _bytes: &[u8]) -> Result<(), DeviceError> {
        self.fail()
    }

    fn sync(&mut self, _name: &str) -> Result<(), DeviceError> {
        self.fail()
    }

    fn rename(&mut self, _from: &str, _to: &str) -> Result<(), DeviceError> {
        self.fail()
    }

    fn remove(&mut self, _name: &str) -> Result<(), DeviceError> {
        self.fail()
    }

    fn sync_below(&mut self, _folder: &str) -> Result<(), DeviceError> {
        self.fail()
    }

    fn sync_directories(&mut self, _folder: &str) -> Result<(), DeviceError> {
        self.fail()
    }

    fn sync_directory(&mut self, _folder: &str) -> Result<(), DeviceError> {
        self.fail()
    }
}

impl ServerConnection for NotThere {
    ghost state = { λ it. record { pending = None; sent = None; place = []; faults = it.faults } };

    fn open(&mut self, _path: &str) -> Result<(), DeviceError> {
        self.fail()
    }

    fn send(&mut self, _bytes: &[u8]) -> Result<(), DeviceError> {
        self.fail()
    }

    fn receive(&mut self, _buf: &mut [u8]) -> Result<usize, DeviceError> {
        self.fail()
    }
}

impl Link for NotThere {
    ghost link_state = { λ it. record { faults = it.faults; jobs = 0; reads = 0; given = []; known = None } };

    fn send(&mut self, _bytes: &[u8]) -> Result<(), DeviceError> {
        self.fail()
    }

    fn receive(&mut self, _buf: &mut [u8]) -> Result<usize, DeviceError> {
        self.fail()
    }
}

impl Clock for NotThere {
    ghost state = { λ it. record { least = 0; faults = it.faults } };

    fn now(&mut self) -> Result<u64, DeviceError> {
        self.fail()
    }

    fn wait_past(&mut self, _second: u64) -> Result<(), DeviceError> {
        self.fail()
    }
}

impl Locks for NotThere {
    ghost state = { λ it. record { taken = []; ever_taken = None; others = None; refusals = 0; faults = it.faults } };

    fn take(&mut self, _folder: &str, _name: &str) -> Result<LockAnswer, DeviceError> {
        self.fail()
    }

    fn release(&mut self, _name: &str) {}
}

impl InputFiles for NotThere {
    ghost state = { λ it. record { files = None; left = None; place = []; faults = it.faults } };

    fn open(&mut self, _path: &str) -> Result<bool, DeviceError> {
        self.fail()
    }

    fn read(&mut self, _buf: &mut [u8]) -> Result<usize, DeviceError> {
        self.fail()
    }
}

impl Files for NotThere {
    ghost files = { λ _. None };

    ghost place = { λ _. [] };

    ghost faults = { λ it. it.faults };

    fn open(&mut self, _root: &str) -> Result<(), DeviceError> {
        self.fail()
    }

    fn read(
        &mut self,
        _name: &str,
        _at: u64,
        _buf: &mut [u8],
    ) -> Result<Option<usize>, DeviceError> {
        self.fail()
    }
}
