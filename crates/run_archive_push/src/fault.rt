// Why a file that is queued for archive-push:async isn't acknowledged.
ghost use Rattle.std.specs.Prelude.{◌≡◌};
ghost use Rattle.run_archive_push.specs.Faults.{halt_of_order, ended_of};

use cmd_archive_push::PushFault;
use cmd_archive_push_wait::QueueFault;
use cmd_types::{Halt, Outcome};

/// Why a file that is queued for archive-push:async isn't acknowledged: the path names no file of the log; or of the
/// file with this name it isn't known that it is stored.
#[derive(Debug, Drop)]
pub enum QueuedPushFault {
    Push(PushFault),
    Queue(String, QueueFault),
}

/// Why the path is refused.
pub(crate) fn of_order(halt: Halt<PushFault>) -> Halt<QueuedPushFault>
    ensures { result ≡ halt_of_order halt }
{
    match halt {
        Halt::Refused(fault) => Halt::Refused(QueuedPushFault::Push(fault)),
        Halt::Failed(object) => Halt::Failed(object),
        Halt::NoMemory => Halt::NoMemory,
    }
}

/// How it ended, of the file of this name.
pub(crate) fn queue_end(
    name: String,
    ended: Result<Outcome, Halt<QueueFault>>,
) -> Result<Outcome, Halt<QueuedPushFault>>
    ensures { result ≡ ended_of name ended }
{
    match ended {
        Ok(outcome) => Ok(outcome),
        Err(Halt::Refused(fault)) => Err(Halt::Refused(QueuedPushFault::Queue(name, fault))),
        Err(Halt::Failed(object)) => Err(Halt::Failed(object)),
        Err(Halt::NoMemory) => Err(Halt::NoMemory),
    }
}
