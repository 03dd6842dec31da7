// The status and the message of each refusal.
ghost use Rattle.std.specs.Prelude.{◌≡◌, IfOk, option_map, string_bytes};
ghost use Rattle.cmd_archive_push.specs.Texts.{push_status, push_message, content_text, duplicate_text};

use crate::fault::PushFault;
use base_text::{NoMemory, Sum};
use cmd_types::{long_text, mismatch_text, quoted, twice_text};
use std::alloc::Global;

/// The status of a refusal.
pub fn push_status(fault: &PushFault) -> u8
    ensures { result ≡ push_status fault.now }
{
    match fault {
        PushFault::SegmentName { .. } => 30,
        PushFault::PathOutside { .. } => 12,
        PushFault::StanzaMismatch { .. } => 23,
        PushFault::SegmentMissing { .. } => 37,
        PushFault::TooLong { .. } => 70,
        PushFault::HeaderForm { .. } => 32,
        PushFault::SegmentSize { .. } => 31,
        PushFault::HeaderMismatch { .. } => 33,
        PushFault::Ambiguous { .. } => 36,
        PushFault::Duplicate { .. } => 34,
    }
}

// The message of a segment that is stored with other bytes.
fn duplicate_text(alloc: Global, kept: &Sum, found: &Sum) -> Result<String, NoMemory>
    ensures { IfOk result (λ text. string_bytes text
        ≡ duplicate_text kept.now found.now) }
{
    let kept = kept.hex(alloc)?;
    let found = found.hex(alloc)?;
    Ok(format!(in alloc; "archived with checksum {kept}, now {found}")?)
}

/// The message of a file that is refused for its content; none of another refusal.
pub fn content_text(alloc: Global, fault: &PushFault) -> Result<Option<String>, NoMemory>
    ensures { IfOk result (λ r. option_map string_bytes r ≡ content_text fault.now) }
{
    let text = match fault {
        PushFault::HeaderForm { .. } => String::from_str(alloc, "WAL header is not valid")?,
        PushFault::SegmentSize { known, found } => {
            format!(in alloc; "segment size {known}, found {found} bytes")?
        }
        PushFault::HeaderMismatch { kept, found } => {
            format!(in alloc; "stanza has system {kept}, WAL has system {found}")?
        }
        PushFault::Duplicate { kept, found } => duplicate_text(alloc, kept, found)?,
        PushFault::SegmentName { .. }
        | PushFault::PathOutside { .. }
        | PushFault::StanzaMismatch { .. }
        | PushFault::SegmentMissing { .. }
        | PushFault::TooLong { .. }
        | PushFault::Ambiguous { .. } => return Ok(None),
    };
    Ok(Some(text))
}

/// The message of a refusal.
pub fn push_message(alloc: Global, fault: &PushFault) -> Result<Vec<u8>, NoMemory>
    ensures { IfOk result (λ line. line.items ≡ push_message fault.now) }
{
    match fault {
        PushFault::SegmentName { name } => quoted(alloc, "'", name, "' is no WAL file name"),
        PushFault::PathOutside { path } => {
            quoted(alloc, "path '", path, "' is outside the data folder")
        }
        PushFault::StanzaMismatch { kept, found } => mismatch_text(alloc, kept, found),
        PushFault::SegmentMissing { path } => quoted(alloc, "'", path, "' is missing"),
        PushFault::TooLong { name, limit } => long_text(alloc, name, *limit),
        PushFault::Ambiguous { first, second } => twice_text(alloc, first, second),
        PushFault::HeaderForm { .. }
        | PushFault::SegmentSize { .. }
        | PushFault::HeaderMismatch { .. }
        | PushFault::Duplicate { .. } => match content_text(alloc, fault)? {
            Some(text) => Ok(text.into_bytes()),
            None => unreachable!(),
        },
    }
}
