// Other processes that push a segment in one of their steps.
ghost use Rattle.std.specs.Prelude.{◌≡◌, None};

use archive_lookup::{OtherProcesses, TurnError};
use archive_store::push;
use base_devices::{DeviceError, Disk};
use base_model::{ArchiveId, ArchiveName, Segment};
use std::alloc::{AllocError, Global};

pub(crate) const ID: ArchiveId = ArchiveId {
    version: 16,
    number: 1,
};

const SYSTEM: u64 = 6917529027641081857;

/// They push this segment in the step with this number, the first being 1, and nothing is known of it.
#[derive(Drop)]
pub(crate) struct Pushing {
    alloc: Global,
    segment: Segment,
    at: u64,
    turns: u64,
    faults: u64,
}

impl Pushing {
    pub(crate) fn new(alloc: Global, segment: Segment, at: u64) -> Self {
        Pushing {
            alloc,
            segment,
            at,
            turns: 0,
            faults: 0,
        }
    }

    /// How many steps they took.
    pub(crate) fn turns(&self) -> u64 {
        self.turns
    }
}

// A segment of 1 MiB, with the prefix that PostgreSQL gives it.
fn segment_bytes(alloc: Global) -> Result<Vec<u8>, AllocError> {
    let mut bytes = Vec::new(alloc);
    bytes.extend_from_slice(&[0, 0, 2, 0])?;
    bytes.resize(24, 0)?;
    bytes.extend_from_slice(SYSTEM.to_le_bytes().as_slice())?;
    bytes.extend_from_slice(1048576u32.to_le_bytes().as_slice())?;
    bytes.resize(1048576, 0)?;
    Ok(bytes)
}

impl<D: Disk, S: Disk> OtherProcesses<D, S> for Pushing {
    ghost state = { λ it. record { account = None; turns = it.turns; started = None; faults = it.faults } };

    fn turn(&mut self, repo: &mut D, _spool: &mut S) -> Result<(), TurnError> {
        if self.turns.saturating_add(1) == self.at {
            let Ok(bytes) = segment_bytes(self.alloc) else {
                return Err(TurnError::NoMemory);
            };
            let name = ArchiveName::Segment(self.segment);
            if push(self.alloc, repo, "main", &ID, &name, SYSTEM, &bytes).is_err() {
                return Err(TurnError::NoMemory);
            }
        }
        self.turns = self.turns.saturating_add(1);
        Ok(())
    }

    fn start(&mut self, _arguments: &[String]) -> Result<(), DeviceError> {
        self.faults = self.faults.saturating_add(1);
        Err(DeviceError::Failed)
    }
}
