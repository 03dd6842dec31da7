// Why the files of a backup aren't all in their places.
use base_devices::DeviceError;
use base_text::{NoMemory, Sum};
use std::alloc::{AllocError, AllocFailed};

/// Why the files of a backup aren't all in their places.
#[derive(Debug, Drop)]
pub enum FillFault {
    /// A worker read other bytes than the manifest states.
    FileDamaged {
        path: String,
        known: Sum,
        found: Sum,
    },
    /// No link is left, and a file isn't read.
    WorkersLost,
    /// A worker couldn't read the bytes of this file.
    Unread {
        path: String,
    },
    /// The data folder failed.
    DataFolder,
    NoMemory,
}

impl From<DeviceError> for FillFault {
    ghost use Rattle.std.specs.Prelude.{◌≡◌};
    ghost use Rattle.restore_make.specs.Faults.{of_stop};

    ghost from_gives = { λ stop e. e ≡ of_stop stop };

    fn from(stop: DeviceError) -> Self {
        match stop {
            DeviceError::Failed => FillFault::DataFolder,
            DeviceError::NoMemory => FillFault::NoMemory,
        }
    }
}

impl From<AllocError> for FillFault {
    ghost use Rattle.std.specs.Prelude.{◌≡◌};
    ghost use Rattle.restore_make.specs.declared.fault.FillFault.TheVariants.{NoMemory};

    ghost from_gives = { λ _ e. e ≡ NoMemory };

    fn from(_: AllocError) -> Self {
        FillFault::NoMemory
    }
}

impl From<NoMemory> for FillFault {
    ghost use Rattle.std.specs.Prelude.{◌≡◌};
    ghost use Rattle.restore_make.specs.declared.fault.FillFault.TheVariants.{NoMemory};

    ghost from_gives = { λ _ e. e ≡ NoMemory };

    fn from(_: NoMemory) -> Self {
        FillFault::NoMemory
    }
}

impl<T: Drop> From<AllocFailed<T>> for FillFault {
    ghost use Rattle.std.specs.Prelude.{◌≡◌};
    ghost use Rattle.restore_make.specs.declared.fault.FillFault.TheVariants.{NoMemory};

    ghost from_gives = { λ _ e. e ≡ NoMemory };

    fn from(_: AllocFailed<T>) -> Self {
        FillFault::NoMemory
    }
}
