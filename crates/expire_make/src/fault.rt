// Why an expiry is refused.
ghost use Rattle.std.specs.Prelude.{◌≡◌};
ghost use Rattle.expire_make.specs.declared.fault.ExpireFault.TheVariants.{NoMemory as WithoutMemory};

use base_devices::DeviceError;
use base_disk::StoreFault;
use repo_pair::{InfoFault, SaveFault};
use repo_stanza::StanzaFault;
use std::alloc::AllocError;

/// Why an expiry isn't done, or not whole. The next expiry completes it.
#[derive(Debug, Drop)]
pub enum ExpireFault {
    /// `archive.info` or `backup.info` is missing or damaged.
    Info(InfoFault),
    /// The histories of the two pairs differ; `at` is the first number at which they do.
    HistoryDiffers { at: u32 },
    /// The disk's count of faults rose.
    Disk,
    NoMemory,
}

impl From<InfoFault> for ExpireFault {
    ghost use Rattle.std.specs.Prelude.{◌≡◌};
    ghost use Rattle.expire_make.specs.Fault.{fault_of_info};

    ghost from_gives = { λ f e. e ≡ fault_of_info f };

    fn from(fault: InfoFault) -> Self {
        match fault {
            InfoFault::Disk => ExpireFault::Disk,
            InfoFault::NoMemory => ExpireFault::NoMemory,
            found => ExpireFault::Info(found),
        }
    }
}

impl From<StanzaFault> for ExpireFault {
    ghost use Rattle.std.specs.Prelude.{◌≡◌};
    ghost use Rattle.expire_make.specs.Fault.{fault_of_stanza};

    ghost from_gives = { λ f e. e ≡ fault_of_stanza f };

    fn from(fault: StanzaFault) -> Self {
        match fault {
            StanzaFault::HistoryDiffers { at } => ExpireFault::HistoryDiffers { at },
            // Values that were read don't end with one of these.
            StanzaFault::InfoDamaged { .. }
            | StanzaFault::StanzaMismatch { .. }
            | StanzaFault::ArchiveLost { .. }
            | StanzaFault::FilesFound { .. }
            | StanzaFault::Disk
            | StanzaFault::NoMemory => ExpireFault::NoMemory,
        }
    }
}

impl From<SaveFault> for ExpireFault {
    ghost use Rattle.std.specs.Prelude.{◌≡◌};
    ghost use Rattle.expire_make.specs.Fault.{fault_of_save};

    ghost from_gives = { λ s e. e ≡ fault_of_save s };

    fn from(fault: SaveFault) -> Self {
        match fault {
            SaveFault::Disk => ExpireFault::Disk,
            SaveFault::NoMemory => ExpireFault::NoMemory,
        }
    }
}

impl From<StoreFault> for ExpireFault {
    ghost use Rattle.std.specs.Prelude.{◌≡◌};
    ghost use Rattle.expire_make.specs.Fault.{fault_of_store};

    ghost from_gives = { λ s e. e ≡ fault_of_store s };

    fn from(fault: StoreFault) -> Self {
        match fault {
            StoreFault::Disk => ExpireFault::Disk,
            StoreFault::TooLong { .. } => ExpireFault::NoMemory,
            StoreFault::NoMemory => ExpireFault::NoMemory,
        }
    }
}

impl From<DeviceError> for ExpireFault {
    ghost use Rattle.std.specs.Prelude.{◌≡◌};
    ghost use Rattle.expire_make.specs.Fault.{fault_of_error};

    ghost from_gives = { λ s e. e ≡ fault_of_error s };

    fn from(stop: DeviceError) -> Self {
        match stop {
            DeviceError::Failed => ExpireFault::Disk,
            DeviceError::NoMemory => ExpireFault::NoMemory,
        }
    }
}

impl From<base_text::NoMemory> for ExpireFault {
    ghost from_gives = { λ _ e. e ≡ WithoutMemory };

    fn from(_: base_text::NoMemory) -> Self {
        ExpireFault::NoMemory
    }
}

impl From<AllocError> for ExpireFault {
    ghost from_gives = { λ _ e. e ≡ WithoutMemory };

    fn from(_: AllocError) -> Self {
        ExpireFault::NoMemory
    }
}
