// The status and the message of each refusal.
ghost use Rattle.std.specs.Prelude.{◌≡◌, IfOk};
ghost use Rattle.cmd_stanza_upgrade.specs.Texts.{upgrade_status, upgrade_message};

use crate::fault::UpgradeCommandFault;
use base_text::NoMemory;
use cmd_types::{bytes_of, history_text, long_text, server_message, server_status};
use std::alloc::Global;

/// The status of a refusal.
pub fn upgrade_status(fault: &UpgradeCommandFault) -> u8
    ensures { result ≡ upgrade_status fault.now }
{
    match fault {
        UpgradeCommandFault::HistoryDiffers { .. } => 101,
        UpgradeCommandFault::Server(fault) => server_status(fault),
        UpgradeCommandFault::TooMany { .. } => 71,
        UpgradeCommandFault::TooLong { .. } => 70,
    }
}

/// The message of a refusal.
pub fn upgrade_message(alloc: Global, fault: &UpgradeCommandFault) -> Result<Vec<u8>, NoMemory>
    ensures { IfOk result (λ line. line.items ≡ upgrade_message fault.now) }
{
    match fault {
        UpgradeCommandFault::HistoryDiffers { at } => history_text(alloc, *at),
        UpgradeCommandFault::Server(fault) => server_message(alloc, fault),
        UpgradeCommandFault::TooMany { limit } => bytes_of(format!(in alloc; "more than {limit}")),
        UpgradeCommandFault::TooLong { name, limit } => long_text(alloc, name, *limit),
    }
}
