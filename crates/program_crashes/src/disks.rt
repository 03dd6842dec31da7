// The two disks on which acts are played.
ghost use Rattle.std.specs.Prelude.{[], None, IfOk};
ghost use Rattle.memory_devices.specs.State.{given_at};
ghost use Rattle.program_crashes.specs.Kept.{KeepsCalls};
ghost use Rattle.program_crashes.specs.Lists.{views, KeepsHeld};

use memory_devices::MemDisk;
use std::alloc::{AllocError, Global};

/// The two disks of the program.
#[derive(Drop)]
pub struct Disks {
    pub repo: MemDisk,
    pub spool: MemDisk,
}

impl Disks {
    /// Disks that hold these names, each with its bytes alone. They keep each list of calls of which what they hold is.
    pub fn holding(
        alloc: Global,
        repo: Vec<(String, Vec<u8>)>,
        spool: Vec<(String, Vec<u8>)>,
    ) -> Result<Self, AllocError>
        ensures { IfOk result (KeepsHeld (given_at repo.items) (given_at spool.items)) }
    {
        let repo = MemDisk::new(alloc, repo, Vec::new(alloc))?;
        let spool = MemDisk::new(alloc, spool, Vec::new(alloc))?;
        Ok(Disks { repo, spool })
    }

    /// Disks that hold nothing. No call was made on them.
    pub fn empty(alloc: Global) -> Result<Self, AllocError>
        ensures { IfOk result (λ d. KeepsCalls (λ _. None) [] [] (views d)) }
    {
        Disks::holding(alloc, Vec::new(alloc), Vec::new(alloc))
    }
}
