// The status and the message of a refusal.
ghost use Rattle.std.specs.Prelude.{◌≡◌, IfOk};
ghost use Rattle.cmd_verify.specs.Texts.{verify_status, verify_message};

use crate::command::fault::VerifyCommandFault;
use base_text::NoMemory;
use cmd_types::bytes_of;
use std::alloc::Global;

/// The status of a refusal.
pub fn verify_status(fault: &VerifyCommandFault) -> u8
    ensures { result ≡ verify_status fault.now }
{
    match fault {
        VerifyCommandFault::TooMany { .. } => 71,
    }
}

/// The message of a refusal.
pub fn verify_message(alloc: Global, fault: &VerifyCommandFault) -> Result<Vec<u8>, NoMemory>
    ensures { IfOk result (λ line. line.items ≡ verify_message fault.now) }
{
    match fault {
        VerifyCommandFault::TooMany { limit } => bytes_of(format!(in alloc; "more than {limit}")),
    }
}
