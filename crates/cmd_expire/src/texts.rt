// The status and the message of each refusal.
ghost use Rattle.std.specs.Prelude.{◌≡◌, IfOk};
ghost use Rattle.cmd_expire.specs.Texts.{expire_status, expire_message, after_status, after_message};

use crate::fault::{ExpireCommandFault, FollowUpFault};
use base_text::NoMemory;
use cmd_types::{bytes_of, history_text};
use std::alloc::Global;

/// The status of a refusal.
pub fn expire_status(fault: &ExpireCommandFault) -> u8
    ensures { result ≡ expire_status fault.now }
{
    match fault {
        ExpireCommandFault::HistoryDiffers { .. } => 101,
    }
}

/// The message of a refusal.
pub fn expire_message(alloc: Global, fault: &ExpireCommandFault) -> Result<Vec<u8>, NoMemory>
    ensures { IfOk result (λ line. line.items ≡ expire_message fault.now) }
{
    match fault {
        ExpireCommandFault::HistoryDiffers { at } => history_text(alloc, *at),
    }
}

/// The status of a fault of the expiry after a backup.
pub fn after_status(fault: &FollowUpFault) -> u8
    ensures { result ≡ after_status fault.now }
{
    match fault {
        FollowUpFault::PairLost | FollowUpFault::HistoryDiffers { .. } => 73,
        FollowUpFault::Repo => 80,
        FollowUpFault::Clock => 84,
        FollowUpFault::NoMemory => 90,
    }
}

/// The message of a fault of the expiry after a backup.
pub fn after_message(alloc: Global, fault: &FollowUpFault) -> Result<Vec<u8>, NoMemory>
    ensures { IfOk result (λ line. line.items ≡ after_message fault.now) }
{
    match fault {
        FollowUpFault::PairLost => bytes_of(String::from_str(
            alloc,
            "expiry after the backup: an info pair can't be read",
        )),
        FollowUpFault::HistoryDiffers { at } => bytes_of(format!(in alloc;
            "expiry after the backup: archive history and backup history differ at {at}"
        )),
        FollowUpFault::Repo => bytes_of(String::from_str(alloc, "repository failed")),
        FollowUpFault::Clock => bytes_of(String::from_str(alloc, "clock failed")),
        FollowUpFault::NoMemory => bytes_of(String::from_str(alloc, "out of memory")),
    }
}
