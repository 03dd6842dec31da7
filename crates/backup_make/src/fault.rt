// Why a backup isn't made.
use backup_record::RecordFault;
use base_devices::DeviceError;
use repo_manifest::WriteFault;
use repo_pair::SaveFault;
use std::alloc::AllocError;

/// Why a backup isn't made.
#[derive(Debug, Drop)]
pub enum MakeFault {
    /// No link is left, and a job hasn't ended.
    WorkersLost,
    /// A worker couldn't read the file of this path.
    Unread { path: String },
    /// A file without which there is no backup vanished.
    ControlMissing { path: &'static str },
    /// The manifest would have this many bytes, which are too many.
    ManifestTooLong { length: u64 },
    /// So would the stanza's list.
    ListTooLong { length: u64 },
    /// The clock failed.
    Clock,
    /// The repository's disk failed.
    Disk,
    NoMemory,
}

impl From<AllocError> for MakeFault {
    ghost use Rattle.std.specs.Prelude.{◌≡◌};
    ghost use Rattle.backup_make.specs.declared.fault.MakeFault.TheVariants.{NoMemory};

    ghost from_gives = { λ _ e. e ≡ NoMemory };

    fn from(_e: AllocError) -> MakeFault {
        MakeFault::NoMemory
    }
}

impl From<base_text::NoMemory> for MakeFault {
    ghost use Rattle.std.specs.Prelude.{◌≡◌};
    ghost use Rattle.backup_make.specs.declared.fault.MakeFault.TheVariants.{NoMemory};

    ghost from_gives = { λ _ e. e ≡ NoMemory };

    fn from(_e: base_text::NoMemory) -> MakeFault {
        MakeFault::NoMemory
    }
}

impl From<DeviceError> for MakeFault {
    ghost use Rattle.std.specs.Prelude.{◌≡◌};
    ghost use Rattle.backup_make.specs.Faults.{fault_of};

    ghost from_gives = { λ stop e. e ≡ fault_of stop };

    fn from(stop: DeviceError) -> MakeFault {
        match stop {
            DeviceError::Failed => MakeFault::Disk,
            DeviceError::NoMemory => MakeFault::NoMemory,
        }
    }
}

impl From<RecordFault> for MakeFault {
    ghost use Rattle.std.specs.Prelude.{◌≡◌};
    ghost use Rattle.backup_make.specs.Faults.{fault_of_record};

    ghost from_gives = { λ fault e. e ≡ fault_of_record fault };

    fn from(fault: RecordFault) -> MakeFault {
        match fault {
            RecordFault::ControlMissing { path } => MakeFault::ControlMissing { path },
            RecordFault::NoMemory => MakeFault::NoMemory,
        }
    }
}

impl From<WriteFault> for MakeFault {
    ghost use Rattle.std.specs.Prelude.{◌≡◌};
    ghost use Rattle.backup_make.specs.Faults.{fault_of_write};

    ghost from_gives = { λ fault e. e ≡ fault_of_write fault };

    fn from(fault: WriteFault) -> MakeFault {
        match fault {
            WriteFault::TooLong { length } => MakeFault::ManifestTooLong { length },
            WriteFault::Disk => MakeFault::Disk,
            WriteFault::NoMemory => MakeFault::NoMemory,
        }
    }
}

impl From<SaveFault> for MakeFault {
    ghost use Rattle.std.specs.Prelude.{◌≡◌};
    ghost use Rattle.backup_make.specs.Faults.{fault_of_save};

    ghost from_gives = { λ fault e. e ≡ fault_of_save fault };

    fn from(fault: SaveFault) -> MakeFault {
        match fault {
            SaveFault::Disk => MakeFault::Disk,
            SaveFault::NoMemory => MakeFault::NoMemory,
        }
    }
}
