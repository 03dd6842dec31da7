// Whether a segment was fetched ahead.
ghost use Rattle.std.specs.Prelude.{◌≡◌, true, false, None, All, IfOk, IfErr, IfSome, option_map, string_bytes};
ghost use Rattle.base_devices.specs.States.{OnlyReads};
ghost use Rattle.archive_lookup.specs.Listing.{sum_after};
ghost use Rattle.cmd_archive_get_async.specs.Taking.{IsAhead};
ghost use Rattle.cmd_archive_get_async.specs.Between.{SpoolEnds, HasSumAfter, LacksUnlessAhead};

use crate::ahead::names::{ahead_folder, ahead_prefix};
use base_devices::{Disk, Found};
use base_model::Segment;
use base_text::Sum;
use cmd_archive_get::GetFault;
use cmd_types::{Halt, Object, halted};
use std::alloc::Global;

// The sum after the prefix of a name.
fn sum_after(name: &[u8], prefix: &[u8]) -> Option<Sum>
    ensures { option_map (λ s. s.0) result ≡ sum_after prefix.now name.now }
{
    Sum::read(name.strip_prefix(prefix)?)
}

// Whether one of the names is that of a fetched segment whose names begin so.
fn any_of(found: &[Found], prefix: &str) -> bool
    ensures some { result ≡ true → HasSumAfter prefix.now found.now }
    ensures none { result ≡ false
        → All (λ x. sum_after prefix.now (string_bytes x.name) ≡ None) found.now }
{
    for each in found {
        if sum_after(each.name.as_bytes(), prefix.as_bytes()).is_some() {
            return true;
        }
    }
    false
}

/// Whether the segment was fetched, whatever its bytes are.
pub fn has_ahead<S: Disk>(
    alloc: Global,
    spool: &mut S,
    stanza: &str,
    segment: &Segment,
) -> Result<bool, Halt<GetFault>>
    ensures has { IfOk result (λ b. b ≡ true
        → IfSome (S.state spool.old).view.now (IsAhead stanza.now segment.now)) }
    ensures lacks { IfOk result
        (LacksUnlessAhead stanza.now segment.now (S.state spool.old)) }
    ensures looks { OnlyReads (S.state spool.old) (S.state spool.new) }
    ensures cause { IfErr result (SpoolEnds (S.state spool.old) (S.state spool.new)) }
{
    let Ok(folder) = ahead_folder(alloc, stanza) else {
        return Err(Halt::NoMemory);
    };
    let Ok(prefix) = ahead_prefix(alloc, stanza, segment) else {
        return Err(Halt::NoMemory);
    };
    match spool.names(alloc, folder.as_str()) {
        Ok(found) => Ok(any_of(&found, prefix.as_str())),
        Err(error) => Err(halted(Object::Spool, error)),
    }
}
