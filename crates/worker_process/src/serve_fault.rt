// Why a worker stops.
ghost use Rattle.std.specs.Prelude.{◌≡◌};

use base_text::NoMemory;
use std::alloc::{AllocError, AllocFailed};
use thiserror::Error;

/// Why a worker stops before its input ends between two frames.
#[derive(Clone, Copy, Debug, PartialEq, Eq, Error)]
pub enum ServeFault {
    /// The field that begins at this byte of the input breaks a rule, or no frame of that type comes there.
    #[error("input is not valid at byte {at}")]
    Form { at: u64 },
    /// A job has a longer body than it may.
    #[error("frame has a body of {length} bytes")]
    TooLong { length: u64 },
    /// More frames come than a worker takes.
    #[error("input has over {limit} frames")]
    TooMany { limit: u64 },
    /// The input ends at this byte, inside a frame.
    #[error("input ends at byte {at}")]
    Ended { at: u64 },
    #[error("input failed")]
    Read,
    #[error("output failed")]
    OutputStream,
    #[error("out of memory")]
    NoMemory,
}

impl From<AllocError> for ServeFault {
    ghost use Rattle.worker_process.specs.declared.serve_fault.ServeFault.TheVariants.{NoMemory as OutOfMemory};

    ghost from_gives = { λ _ e. e ≡ OutOfMemory };

    fn from(_e: AllocError) -> ServeFault {
        ServeFault::NoMemory
    }
}

impl<T: Drop> From<AllocFailed<T>> for ServeFault {
    ghost use Rattle.worker_process.specs.declared.serve_fault.ServeFault.TheVariants.{NoMemory as OutOfMemory};

    ghost from_gives = { λ _ e. e ≡ OutOfMemory };

    fn from(_e: AllocFailed<T>) -> ServeFault {
        ServeFault::NoMemory
    }
}

impl From<NoMemory> for ServeFault {
    ghost use Rattle.worker_process.specs.declared.serve_fault.ServeFault.TheVariants.{NoMemory as OutOfMemory};

    ghost from_gives = { λ _ e. e ≡ OutOfMemory };

    fn from(_e: NoMemory) -> ServeFault {
        ServeFault::NoMemory
    }
}
