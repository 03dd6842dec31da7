// Why bytes aren't a frame.
ghost use Rattle.std.specs.Prelude.{◌≡◌};

use std::alloc::{AllocError, AllocFailed};
use thiserror::Error;

/// Why no frame could be read, by the first field that is at fault.
#[derive(Clone, Copy, Debug, PartialEq, Eq, Error)]
pub enum FrameFault {
    /// The bytes end before the frame does, and no field that is there breaks a rule.
    #[error("frame is cut short")]
    Short,
    /// The field that begins at this byte breaks a rule, or the body continues there past its last field.
    #[error("frame is not valid at byte {at}")]
    Form { at: u64 },
    /// A job or a part has a longer body than it may.
    #[error("frame has a body of {length} bytes")]
    TooLong { length: u64 },
    #[error("out of memory")]
    NoMemory,
}

impl From<AllocError> for FrameFault {
    ghost use Rattle.worker_protocol.specs.declared.frames.fault.FrameFault.TheVariants.{NoMemory};

    ghost from_gives = { λ _ e. e ≡ NoMemory };

    fn from(_e: AllocError) -> FrameFault {
        FrameFault::NoMemory
    }
}

impl<T: Drop> From<AllocFailed<T>> for FrameFault {
    ghost use Rattle.worker_protocol.specs.declared.frames.fault.FrameFault.TheVariants.{NoMemory};

    ghost from_gives = { λ _ e. e ≡ NoMemory };

    fn from(_e: AllocFailed<T>) -> FrameFault {
        FrameFault::NoMemory
    }
}
