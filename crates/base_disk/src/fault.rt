// Why a call on stored names is refused.
ghost use Rattle.std.specs.Prelude.{◌≡◌};
ghost use Rattle.base_disk.specs.declared.fault.StoreFault.TheVariants.{NoMemory};

use base_devices::DeviceError;
use std::alloc::AllocError;

#[derive(Debug, Drop)]
pub enum StoreFault {
    Disk,
    /// The name holds more than `limit` bytes.
    TooLong { name: String, limit: u64 },
    NoMemory,
}

impl From<DeviceError> for StoreFault {
    ghost from_gives = { λ s e. e ≡ fault_of s };

    ghost use Rattle.base_disk.specs.Fault.{fault_of};

    fn from(stop: DeviceError) -> Self {
        match stop {
            DeviceError::Failed => StoreFault::Disk,
            DeviceError::NoMemory => StoreFault::NoMemory,
        }
    }
}

impl From<AllocError> for StoreFault {
    ghost from_gives = { λ _ e. e ≡ NoMemory };

    fn from(_: AllocError) -> Self {
        StoreFault::NoMemory
    }
}
