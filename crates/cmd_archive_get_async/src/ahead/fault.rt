// The fault that a failure of the spool becomes.
ghost use Rattle.std.specs.Prelude.{◌≡◌};
ghost use Rattle.cmd_archive_get_async.specs.Fetching.{halt_of_spool};

use base_disk::StoreFault;
use cmd_archive_get::GetFault;
use cmd_types::{Halt, Object};

/// The fault that a fault of the spool becomes.
pub(crate) fn of_spool(fault: StoreFault) -> Halt<GetFault>
    ensures { result ≡ halt_of_spool fault }
{
    match fault {
        StoreFault::Disk => Halt::Failed(Object::Spool),
        // No name of the spool is read whole here.
        StoreFault::TooLong { .. } | StoreFault::NoMemory => Halt::NoMemory,
    }
}
