// The status and the message of each refusal.
ghost use Rattle.std.specs.Prelude.{◌≡◌, IfOk};
ghost use Rattle.cmd_backup_online.specs.Texts.{online_backup_status, online_backup_message, span_text, wait_text};

use crate::fault::OnlineBackupFault;
use base_text::NoMemory;
use cmd_backup_offline::{offline_message, offline_status};
use cmd_types::{bytes_of, server_message, server_status, twice_text};
use repo_names::{Segment, segment_text};
use std::alloc::Global;

/// The status of a refusal.
pub fn online_backup_status(fault: &OnlineBackupFault) -> u8
    ensures { result ≡ online_backup_status fault.now }
{
    match fault {
        OnlineBackupFault::Take(fault) => offline_status(fault),
        OnlineBackupFault::Server(fault) => server_status(fault),
        OnlineBackupFault::TablespaceMap => 43,
        OnlineBackupFault::SpanWrong { .. } => 46,
        OnlineBackupFault::NotArrived { .. } => 42,
        OnlineBackupFault::Ambiguous { .. } => 36,
    }
}

// What is reported about a first and a last segment between which there is no log.
fn span_text(alloc: Global, start: &Segment, stop: &Segment) -> Result<Vec<u8>, NoMemory>
    ensures { IfOk result (λ line. line.items ≡ span_text start.now stop.now) }
{
    let start = segment_text(alloc, start)?;
    let stop = segment_text(alloc, stop)?;
    bytes_of(format!(in alloc; "WAL from {start} to {stop}"))
}

// What is reported about a segment that this many steps of others didn't bring.
fn wait_text(alloc: Global, segment: &Segment, turns: u64) -> Result<Vec<u8>, NoMemory>
    ensures { IfOk result (λ line. line.items ≡ wait_text segment.now turns) }
{
    let segment = segment_text(alloc, segment)?;
    bytes_of(format!(in alloc; "segment {segment} not archived after {turns} turns"))
}

/// The message of a refusal.
pub fn online_backup_message(alloc: Global, fault: &OnlineBackupFault) -> Result<Vec<u8>, NoMemory>
    ensures { IfOk result (λ line. line.items ≡ online_backup_message fault.now) }
{
    match fault {
        OnlineBackupFault::Take(fault) => offline_message(alloc, fault),
        OnlineBackupFault::Server(fault) => server_message(alloc, fault),
        OnlineBackupFault::TablespaceMap => {
            bytes_of(String::from_str(alloc, "tablespaces are not supported"))
        }
        OnlineBackupFault::SpanWrong { start, stop } => span_text(alloc, start, stop),
        OnlineBackupFault::NotArrived { segment, turns } => wait_text(alloc, segment, *turns),
        OnlineBackupFault::Ambiguous { first, second } => twice_text(alloc, first, second),
    }
}
