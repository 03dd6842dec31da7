// Why a file that is queued for other processes isn't acknowledged.
ghost use Rattle.std.specs.Prelude.{◌≡◌};
ghost use Rattle.cmd_archive_push_wait.specs.Faults.{halt_of_turn, halt_of_mark};

use archive_lookup::TurnError;
use base_disk::StoreFault;
use cmd_types::{Halt, Object};

/// Why a file that is queued for other processes isn't acknowledged, in the order in which refusals come.
#[derive(Debug, PartialEq, Eq, Drop)]
pub enum QueueFault {
    SegmentMissing { path: String },
    /// The file or a mark of it has more than `limit` bytes.
    TooLong { name: String, limit: u64 },
    /// It was refused with this status and line.
    Reported { code: u32, text: String },
    /// It wasn't stored in this many steps of others.
    NotYet { turns: u64 },
}

/// The fault that a failed step of others becomes.
pub(crate) fn of_turn(stop: TurnError) -> Halt<QueueFault>
    ensures { result ≡ halt_of_turn stop }
{
    match stop {
        TurnError::Repo => Halt::Failed(Object::Repo),
        TurnError::Spool => Halt::Failed(Object::Spool),
        TurnError::NoMemory => Halt::NoMemory,
    }
}

/// What a fault of a mark is.
pub(crate) fn of_mark(fault: StoreFault) -> Halt<QueueFault>
    ensures { result ≡ halt_of_mark fault }
{
    match fault {
        StoreFault::Disk => Halt::Failed(Object::Spool),
        StoreFault::TooLong { name, limit } => {
            Halt::Refused(QueueFault::TooLong { name, limit })
        }
        StoreFault::NoMemory => Halt::NoMemory,
    }
}
