// The status and the message of each refusal.
ghost use Rattle.std.specs.Prelude.{◌≡◌, IfOk};
ghost use Rattle.cmd_archive_push_wait.specs.Texts.{queue_status, queue_message, reported_text, late_text};

use crate::fault::QueueFault;
use base_text::NoMemory;
use cmd_types::{long_text, quoted};
use std::alloc::Global;

/// The status of a refusal.
pub fn queue_status(fault: &QueueFault) -> u8
    ensures { result ≡ queue_status fault.now }
{
    match fault {
        QueueFault::SegmentMissing { .. } => 37,
        QueueFault::TooLong { .. } => 70,
        QueueFault::Reported { .. } => 39,
        QueueFault::NotYet { .. } => 38,
    }
}

// The message of a file that was refused before, with its status.
fn reported_text(alloc: Global, code: u32, text: &str) -> Result<Vec<u8>, NoMemory>
    ensures { IfOk result
        (λ line. line.items ≡ reported_text code text.now) }
{
    let prefix = format!(in alloc; "[{code}] ")?;
    quoted(alloc, &prefix, text, "")
}

// The message of a file that wasn't stored in this many steps of others.
fn late_text(alloc: Global, name: &str, turns: u64) -> Result<Vec<u8>, NoMemory>
    ensures { IfOk result (λ line. line.items
        ≡ late_text name.now turns) }
{
    let end = format!(in alloc; "' not archived after {turns} turns")?;
    quoted(alloc, "'", name, &end)
}

/// The message of a refusal of the file of this name.
pub fn queue_message(alloc: Global, name: &str, fault: &QueueFault) -> Result<Vec<u8>, NoMemory>
    ensures { IfOk result (λ line. line.items ≡ queue_message name.now fault.now) }
{
    match fault {
        QueueFault::SegmentMissing { path } => quoted(alloc, "'", path, "' is missing"),
        QueueFault::TooLong { name, limit } => long_text(alloc, name, *limit),
        QueueFault::Reported { code, text } => reported_text(alloc, *code, text),
        QueueFault::NotYet { turns } => late_text(alloc, name, *turns),
    }
}
