// Other processes that store a segment in one of their steps.
ghost use Rattle.std.specs.Prelude.{◌≡◌, None};

use archive_lookup::{OtherProcesses, TurnError};
use base_devices::{DeviceError, Disk};

/// They look at the spool, make a file of this name in the step with this number, the first being 1, and nothing is
/// known of it.
#[derive(Drop)]
pub(crate) struct Storing {
    name: &'static str,
    at: u64,
    turns: u64,
    faults: u64,
}

impl Storing {
    pub(crate) fn new(name: &'static str, at: u64) -> Self {
        Storing {
            name,
            at,
            turns: 0,
            faults: 0,
        }
    }
}

impl<D: Disk, S: Disk> OtherProcesses<D, S> for Storing {
    ghost state = { λ it. record { account = None; turns = it.turns; started = None; faults = it.faults } };

    fn turn(&mut self, repo: &mut D, spool: &mut S) -> Result<(), TurnError> {
        match spool.sync_directories("archive") {
            Ok(()) => {}
            Err(DeviceError::Failed) => return Err(TurnError::Spool),
            Err(DeviceError::NoMemory) => return Err(TurnError::NoMemory),
        }
        if self.turns.saturating_add(1) == self.at {
            match repo.begin(self.name) {
                Ok(()) => {}
                Err(DeviceError::Failed) => return Err(TurnError::Repo),
                Err(DeviceError::NoMemory) => return Err(TurnError::NoMemory),
            }
        }
        self.turns = self.turns.saturating_add(1);
        Ok(())
    }

    fn start(&mut self, _arguments: &[String]) -> Result<(), DeviceError> {
        self.faults = self.faults.saturating_add(1);
        Err(DeviceError::Failed)
    }
}
