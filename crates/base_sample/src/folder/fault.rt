// Why no sample cluster is made.
use base_devices::DeviceError;
use std::alloc::AllocError;

/// Why no sample cluster is made in a data folder.
#[derive(Debug, Drop)]
pub enum FolderFault {
    /// Something is in it, this path as the first.
    NotEmpty { path: String },
    DataFolder,
    NoMemory,
}

impl From<AllocError> for FolderFault {
    ghost use Rattle.std.specs.Prelude.{◌≡◌};
    ghost use Rattle.base_sample.specs.declared.folder.fault.FolderFault.TheVariants.{NoMemory};

    ghost from_gives = { λ _ e. e ≡ NoMemory };

    fn from(_: AllocError) -> Self {
        FolderFault::NoMemory
    }
}

impl From<DeviceError> for FolderFault {
    ghost use Rattle.std.specs.Prelude.{◌≡◌};
    ghost use Rattle.base_sample.specs.Stops.{fault_of};

    ghost from_gives = { λ stop e. e ≡ fault_of stop };

    fn from(stop: DeviceError) -> Self {
        match stop {
            DeviceError::Failed => FolderFault::DataFolder,
            DeviceError::NoMemory => FolderFault::NoMemory,
        }
    }
}
