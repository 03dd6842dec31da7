// The status and the message of each refusal.
ghost use Rattle.std.specs.Prelude.{◌≡◌, IfOk};
ghost use Rattle.cmd_backup_offline.specs.Texts.{offline_status, offline_message};

use crate::fault::OfflineFault;
use base_text::NoMemory;
use cmd_backup_common::{backup_message, backup_status};
use cmd_types::{damage_text, quoted};
use std::alloc::Global;

/// The status of a refusal.
pub fn offline_status(fault: &OfflineFault) -> u8
    ensures { result ≡ offline_status fault.now }
{
    match fault {
        OfflineFault::Take(fault) => backup_status(fault),
        OfflineFault::PriorDamaged { .. } => 64,
    }
}

/// The message of a refusal.
pub fn offline_message(alloc: Global, fault: &OfflineFault) -> Result<Vec<u8>, NoMemory>
    ensures { IfOk result (λ line. line.items ≡ offline_message fault.now) }
{
    match fault {
        OfflineFault::Take(fault) => backup_message(alloc, fault),
        OfflineFault::PriorDamaged { label, main, copy } => {
            let end = damage_text(alloc, main, copy)?;
            quoted(alloc, "manifest of '", label, &end)
        }
    }
}
