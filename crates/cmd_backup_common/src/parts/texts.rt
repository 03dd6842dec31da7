// The status and the message of each refusal.
ghost use Rattle.std.specs.Prelude.{◌≡◌, IfOk};
ghost use Rattle.cmd_backup_common.specs.Texts.{backup_status, backup_message};

use crate::parts::fault::BackupFault;
use base_text::NoMemory;
use cmd_types::{bytes_of, history_text, long_text, mismatch_text, quoted};
use std::alloc::Global;

/// The status of a refusal.
pub fn backup_status(fault: &BackupFault) -> u8
    ensures { result ≡ backup_status fault.now }
{
    match fault {
        BackupFault::HistoryDiffers { .. } => 101,
        BackupFault::StanzaMismatch { .. } => 23,
        BackupFault::Running => 41,
        BackupFault::TooMany { .. } => 71,
        BackupFault::WorkersLost { .. } => 55,
        BackupFault::ClockBehind { .. } => 40,
        BackupFault::LinkFound { .. } => 44,
        BackupFault::NameRefused { .. } => 45,
        BackupFault::ListingUnordered => 45,
        BackupFault::ControlMissing { .. } => 28,
        BackupFault::Unread { .. } => 56,
        BackupFault::TooLong { .. } => 70,
    }
}

/// The message of a refusal.
pub fn backup_message(alloc: Global, fault: &BackupFault) -> Result<Vec<u8>, NoMemory>
    ensures { IfOk result (λ line. line.items ≡ backup_message fault.now) }
{
    match fault {
        BackupFault::HistoryDiffers { at } => history_text(alloc, *at),
        BackupFault::StanzaMismatch { kept, found } => mismatch_text(alloc, kept, found),
        BackupFault::Running => bytes_of(String::from_str(alloc, "postmaster.pid is there")),
        BackupFault::TooMany { limit } => bytes_of(format!(in alloc; "more than {limit}")),
        BackupFault::WorkersLost { lost } => bytes_of(format!(in alloc; "{lost} workers lost")),
        BackupFault::ClockBehind { latest, now } => bytes_of(format!(in alloc;
            "latest backup {latest}, clock {now}"
        )),
        BackupFault::LinkFound { path } => quoted(alloc, "'", path, "' is a link"),
        BackupFault::NameRefused { path } => quoted(alloc, "name '", path, "' is refused"),
        BackupFault::ListingUnordered => {
            bytes_of(String::from_str(alloc, "listing is not in order"))
        }
        BackupFault::ControlMissing { path } => quoted(alloc, "'", path, "' is missing"),
        BackupFault::Unread { path } => quoted(alloc, "'", path, "' could not be read"),
        BackupFault::TooLong { name, limit } => long_text(alloc, name, *limit),
    }
}
