// Other processes in memory: a drain, where it was started, after some steps in which nothing is done.
ghost use Rattle.std.specs.Prelude.{◌≡◌, None};
ghost use Rattle.cmd_types.specs.declared.stages.halt.Halt.TheVariants.{Failed as HasFailed};
ghost use Rattle.cmd_types.specs.declared.stages.object.Object.TheVariants.{Repo as TheRepo, Spool as TheSpool};

use crate::spool::devices::{ID, SYSTEM};
use archive_lookup::{OtherProcesses, TurnError};
use base_devices::DeviceError;
use cmd_archive_push::PushFault;
use cmd_archive_push_async::drain;
use cmd_types::{Halt, Object};
use memory_devices::{MemDataFolder, MemDisk};
use std::alloc::Global;

/// A drain that other processes make of this data folder once this program has started them.
#[derive(Drop)]
pub(crate) struct Drains {
    pub(crate) alloc: Global,
    pub(crate) tree: MemDataFolder,
    /// How many steps come before it.
    pub(crate) idle: u64,
    /// Whether a start works.
    pub(crate) works: bool,
    pub(crate) starts: u64,
    pub(crate) turns: u64,
    pub(crate) faults: u64,
}

// Which device's failure ended a drain.
fn stop_of(halt: Halt<PushFault>) -> TurnError
    ensures repo { result ≡ TurnError.Repo → halt ≡ HasFailed TheRepo }
    ensures spool { result ≡ TurnError.Spool → halt ≡ HasFailed TheSpool }
{
    match halt {
        Halt::Failed(Object::Repo) => TurnError::Repo,
        Halt::Failed(Object::Spool) => TurnError::Spool,
        Halt::Failed(_) | Halt::Refused(_) | Halt::NoMemory => TurnError::NoMemory,
    }
}

impl OtherProcesses<MemDisk, MemDisk> for Drains {
    ghost state = { λ it. record { account = None; turns = it.turns; started = None; faults = it.faults } };

    fn turn(&mut self, repo: &mut MemDisk, spool: &mut MemDisk) -> Result<(), TurnError> {
        if self.starts == 0 || self.idle > 0 {
            self.idle = self.idle.saturating_sub(1);
            self.turns = self.turns.saturating_add(1);
            return Ok(());
        }
        match drain(self.alloc, repo, spool, &mut self.tree, "main", ID, SYSTEM) {
            Ok(_) => {
                self.turns = self.turns.saturating_add(1);
                Ok(())
            }
            Err(halt) => Err(stop_of(halt)),
        }
    }

    fn start(&mut self, _arguments: &[String]) -> Result<(), DeviceError> {
        if !self.works {
            self.faults = self.faults.saturating_add(1);
            return Err(DeviceError::Failed);
        }
        self.starts = self.starts.saturating_add(1);
        Ok(())
    }
}
