// Workers in memory, for a call.
ghost use Rattle.std.specs.Prelude.{◌≡◌, [], map};
ghost use Rattle.memory_workers.specs.Workers.{state_of};
ghost use Rattle.cmd_trait.specs.Code.{AreWorkers};
ghost use Rattle.program_crashes.specs.Props.{AreWorkers-prop};

use memory_workers::MemLink;
use std::alloc::{AllocError, Global};

/// Workers in memory: not too many, and none has bytes of an earlier answer to give.
#[derive(Drop)]
pub struct Workers {
    pub links: Vec<MemLink>,
    ghost are: { AreWorkers (map state_of links.items) } by { AreWorkers-prop (map state_of links.items) },
}

impl Workers {
    /// No workers.
    pub fn none(alloc: Global) -> Self
        ensures { result.links.items ≡ [] }
    {
        Workers {
            links: Vec::new(alloc),
        }
    }

    /// One worker, whose data folder has these files and whose repository these names, and of whose link the calls with
    /// these numbers fail.
    pub fn one(
        alloc: Global,
        tree: Vec<(String, Vec<u8>)>,
        repo: Vec<(String, Vec<u8>)>,
        fail: Vec<u64>,
    ) -> Result<Self, AllocError> {
        let mut links = Vec::new(alloc);
        links.push(MemLink::new(alloc, tree, repo, fail)?)?;
        Ok(Workers { links })
    }
}
