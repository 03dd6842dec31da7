// Why a repository isn't examined.
ghost use Rattle.std.specs.Prelude.{◌≡◌};
ghost use Rattle.cmd_verify.specs.Verifying.{of_verify};

use crate::findings::VerifyFault;
use cmd_types::{Halt, Object};

/// Why a repository isn't examined.
#[derive(Debug, Drop)]
pub enum VerifyCommandFault {
    /// More than `limit` files are archived.
    TooMany { limit: u64 },
}

/// The fault that a fault of the verification becomes.
pub(crate) fn of_verify(fault: VerifyFault) -> Halt<VerifyCommandFault>
    ensures { result ≡ of_verify fault }
{
    match fault {
        VerifyFault::TooMany { limit } => Halt::Refused(VerifyCommandFault::TooMany { limit }),
        VerifyFault::Disk => Halt::Failed(Object::Repo),
        VerifyFault::NoMemory => Halt::NoMemory,
    }
}
