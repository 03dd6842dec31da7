// The status and the message of each refusal of archive-get.
ghost use Rattle.std.specs.Prelude.{◌≡◌, IfOk};
ghost use Rattle.cmd_archive_get.specs.Texts.{get_status, get_message, sums_text};

use crate::fault::GetFault;
use base_text::{NoMemory, Sum};
use cmd_types::{bytes_of, long_text, mismatch_text, quoted, twice_text};
use std::alloc::Global;

/// The status of a refusal of archive-get.
pub fn get_status(fault: &GetFault) -> u8
    ensures { result ≡ get_status fault.now }
{
    match fault {
        GetFault::SegmentName { .. } => 30,
        GetFault::PathOutside { .. } => 12,
        GetFault::StanzaMismatch { .. } => 23,
        GetFault::Ambiguous { .. } => 36,
        GetFault::SegmentDamaged { .. } => 35,
        GetFault::TooLong { .. } => 70,
    }
}

// What is reported about stored bytes that don't have their sum.
fn sums_text(alloc: Global, known: &Sum, found: &Sum) -> Result<Vec<u8>, NoMemory>
    ensures { IfOk result (λ line. line.items ≡ sums_text known.now found.now) }
{
    let known = known.hex(alloc)?;
    let found = found.hex(alloc)?;
    bytes_of(format!(in alloc; "checksum {known}, found {found}"))
}

/// The message of a refusal of archive-get.
pub fn get_message(alloc: Global, fault: &GetFault) -> Result<Vec<u8>, NoMemory>
    ensures { IfOk result (λ line. line.items ≡ get_message fault.now) }
{
    match fault {
        GetFault::SegmentName { name } => quoted(alloc, "'", name, "' is no WAL file name"),
        GetFault::PathOutside { path } => {
            quoted(alloc, "path '", path, "' is outside the data folder")
        }
        GetFault::StanzaMismatch { kept, found } => mismatch_text(alloc, kept, found),
        GetFault::Ambiguous { first, second } => twice_text(alloc, first, second),
        GetFault::SegmentDamaged { known, found } => sums_text(alloc, known, found),
        GetFault::TooLong { name, limit } => long_text(alloc, name, *limit),
    }
}
