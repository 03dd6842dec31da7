// The status of each refusal.
ghost use Rattle.std.specs.Prelude.{◌≡◌};
ghost use Rattle.cmd_archive_push_async.specs.Drained.{drain_status};

use cmd_archive_push::PushFault;

/// The status of a refusal. After files were stored it is never one that means that nothing was done.
pub fn drain_status(fault: &PushFault) -> u8
    ensures { result ≡ drain_status fault.now }
{
    match fault {
        PushFault::StanzaMismatch { .. } => 23,
        PushFault::TooLong { .. } => 74,
        PushFault::SegmentName { .. }
        | PushFault::PathOutside { .. }
        | PushFault::SegmentMissing { .. }
        | PushFault::HeaderForm { .. }
        | PushFault::SegmentSize { .. }
        | PushFault::HeaderMismatch { .. }
        | PushFault::Ambiguous { .. }
        | PushFault::Duplicate { .. } => 75,
    }
}
