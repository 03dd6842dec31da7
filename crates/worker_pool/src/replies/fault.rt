// Why a reply isn't taken to its end.
use base_devices::DeviceError;

/// Why no more is taken of any reply.
#[derive(Clone, Copy, Debug, PartialEq, Eq)]
pub enum ReplyFault {
    /// The worker couldn't read this item of the job.
    Unread { item: u32 },
    /// The keeper failed.
    PartSink,
    NoMemory,
}

impl From<DeviceError> for ReplyFault {
    ghost use Rattle.std.specs.Prelude.{◌≡◌};
    ghost use Rattle.worker_pool.specs.RepliesFaults.{fault_of};

    ghost from_gives = { λ stop e. e ≡ fault_of stop };

    fn from(stop: DeviceError) -> ReplyFault {
        match stop {
            DeviceError::Failed => ReplyFault::PartSink,
            DeviceError::NoMemory => ReplyFault::NoMemory,
        }
    }
}
