// Fetches ahead what follows a served segment.
ghost use Rattle.std.specs.Prelude.{◌≡◌, ◌≤◌, map, IfOk, IfErr, IfSome, IfNone, string_bytes};
ghost use Rattle.base_devices.specs.States.{OnlyReads};
ghost use Rattle.cmd_types.specs.Halts.{HaltCause, Never};
ghost use Rattle.cmd_archive_get_async.specs.Following.{HasNoneAfter, HasSize, IsFollowing, Follows, QuietOthers};
ghost use Rattle.cmd_archive_get_async.specs.Between.{SpoolEnds, StartsSaying};

use crate::ahead::has_ahead;
use archive_lookup::OtherProcesses;
use base_devices::{DeviceError, Disk};
use base_model::{SegSize, Segment};
use cmd_archive_get::GetFault;
use cmd_types::Halt;
use repo_names::{next, read_seg_size, segments_per_log};
use std::alloc::Global;

/// The size of a segment of this length, where it is one of those that a log has.
pub(crate) fn size_of(segment: &Segment, length: u64) -> Option<SegSize>
    ensures size { IfSome result (λ size. (size.0 ≡ length) × HasSize segment.now length) }
    ensures none { IfNone result (¬ HasSize segment.now length) }
{
    let size = read_seg_size(length)?;
    if segment.seg < segments_per_log(size) {
        Some(size)
    } else {
        None
    }
}

// The segment that follows one of this length.
fn next_of(segment: &Segment, length: u64) -> Option<Segment>
    ensures next { IfSome result (IsFollowing segment.now length) }
    ensures none { IfNone result (HasNoneAfter segment.now length) }
{
    let size = size_of(segment, length)?;
    next(segment, size)
}

// Starts a fetch with these arguments, and gives the line that reports where that fails.
fn start<D: Disk, S: Disk, A: OtherProcesses<D, S>>(
    alloc: Global,
    processes: &mut A,
    arguments: &[String],
) -> Result<String, Halt<GetFault>>
    ensures starts { IfOk result (StartsSaying A.state (map string_bytes arguments.now) processes.old processes.new) }
    ensures others { QuietOthers (map string_bytes arguments.now) (A.state processes.old) (A.state processes.new) }
    ensures cause { IfErr result (HaltCause Never (λ _. ⊥)) }
{
    match processes.start(arguments) {
        Ok(()) => Ok(String::new(alloc)),
        Err(DeviceError::Failed) => Ok(String::from_str(
            alloc,
            "WARN: unable to start archive-get:async\n",
        )?),
        Err(DeviceError::NoMemory) => Err(Halt::NoMemory),
    }
}

/// Starts a fetch with these arguments where the spool doesn't have what follows a segment of this length.
pub(crate) fn follow<D: Disk, S: Disk, A: OtherProcesses<D, S>>(
    alloc: Global,
    spool: &mut S,
    processes: &mut A,
    stanza: &str,
    segment: &Segment,
    length: u64,
    arguments: &[String],
) -> Result<String, Halt<GetFault>>
    ensures follows { IfOk result (λ lines. Follows stanza.now segment.now length (map string_bytes arguments.now)
        (S.state spool.old).view.now (A.state processes.old) (A.state processes.new) (string_bytes lines)) }
    ensures others { QuietOthers (map string_bytes arguments.now) (A.state processes.old) (A.state processes.new) }
    ensures looks { OnlyReads (S.state spool.old) (S.state spool.new) }
    ensures cause { IfErr result (SpoolEnds (S.state spool.old) (S.state spool.new)) }
{
    let Some(next) = next_of(segment, length) else {
        return Ok(String::new(alloc));
    };
    match has_ahead(alloc, spool, stanza, &next) {
        Ok(true) => Ok(String::new(alloc)),
        Ok(false) => start(alloc, processes, arguments),
        Err(halt) => Err(halt),
    }
}
