// Why no label is given.
ghost use Rattle.std.specs.Prelude.{◌≡◌};
ghost use Rattle.cmd_backup_common.specs.DraftsFaults.{clock_fault as spec_clock, disk_fault as spec_disk};

use base_devices::DeviceError;
use std::alloc::AllocError;

/// Why no second is given for a label.
#[derive(Clone, Copy, Debug, PartialEq, Eq)]
pub enum SecondFault {
    /// The latest second that a label states is more than ten seconds ahead of the clock.
    ClockBehind { latest: u64, now: u64 },
    /// The clock failed.
    Clock,
    /// The repository's disk failed.
    Disk,
    NoMemory,
}

impl From<AllocError> for SecondFault {
    ghost use Rattle.std.specs.Prelude.{◌≡◌};
    ghost use Rattle.cmd_backup_common.specs.declared.drafts.fault.SecondFault.TheVariants.{NoMemory};

    ghost from_gives = { λ _ e. e ≡ NoMemory };

    fn from(_: AllocError) -> Self {
        SecondFault::NoMemory
    }
}

/// The fault that a failed call of the clock becomes.
pub(crate) fn clock_fault(stop: DeviceError) -> SecondFault
    ensures { result ≡ spec_clock stop }
{
    match stop {
        DeviceError::Failed => SecondFault::Clock,
        DeviceError::NoMemory => SecondFault::NoMemory,
    }
}

/// The fault that a failed call of the disk becomes.
pub(crate) fn disk_fault(stop: DeviceError) -> SecondFault
    ensures { result ≡ spec_disk stop }
{
    match stop {
        DeviceError::Failed => SecondFault::Disk,
        DeviceError::NoMemory => SecondFault::NoMemory,
    }
}
