// Why a run of jobs ends early, and which links it lost.

use base_devices::DeviceError;
use std::alloc::{AllocError, AllocFailed};
use worker_protocol::LostCause;

/// A link that was lost: its place as the call began, and why.
#[derive(Clone, Copy, Debug, PartialEq, Eq)]
pub struct Lost {
    pub place: u32,
    pub cause: LostCause,
}

/// Why the jobs weren't done.
#[derive(Clone, Copy, Debug, PartialEq, Eq)]
pub enum DispatchFault {
    /// No link is left, and a job hasn't ended.
    WorkersLost,
    /// A worker couldn't read this item of this job.
    Unread { job: u32, item: u32 },
    /// The keeper failed.
    PartSink,
    NoMemory,
}

impl From<DeviceError> for DispatchFault {
    ghost use Rattle.std.specs.Prelude.{◌≡◌};
    ghost use Rattle.worker_pool.specs.DispatchFaults.{fault_of};

    ghost from_gives = { λ stop e. e ≡ fault_of stop };

    fn from(stop: DeviceError) -> DispatchFault {
        match stop {
            DeviceError::Failed => DispatchFault::PartSink,
            DeviceError::NoMemory => DispatchFault::NoMemory,
        }
    }
}

impl From<AllocError> for DispatchFault {
    ghost use Rattle.std.specs.Prelude.{◌≡◌};
    ghost use Rattle.worker_pool.specs.declared.dispatch.fault.DispatchFault.TheVariants.{NoMemory};

    ghost from_gives = { λ _ e. e ≡ NoMemory };

    fn from(_e: AllocError) -> DispatchFault {
        DispatchFault::NoMemory
    }
}

impl<T: Drop> From<AllocFailed<T>> for DispatchFault {
    ghost use Rattle.std.specs.Prelude.{◌≡◌};
    ghost use Rattle.worker_pool.specs.declared.dispatch.fault.DispatchFault.TheVariants.{NoMemory};

    ghost from_gives = { λ _ e. e ≡ NoMemory };

    fn from(_e: AllocFailed<T>) -> DispatchFault {
        DispatchFault::NoMemory
    }
}
