// Why a call on a stanza is refused.
ghost use Rattle.std.specs.Prelude.{◌≡◌};
ghost use Rattle.repo_stanza.specs.declared.fault.StanzaFault.TheVariants.{NoMemory as WithoutMemory};
ghost use Rattle.repo_stanza.specs.Fault.{fault_of, fault_of_error};

use base_devices::DeviceError;
use base_model::Label;
use repo_info::MemberFault;
use repo_pair::SaveFault;
use std::alloc::AllocError;

/// A cluster by its system identifier and its major version.
#[derive(Clone, Copy, Debug, PartialEq, Eq)]
pub struct Identity {
    pub system: u64,
    pub version: u32,
}

/// Why a stanza isn't made, in the order in which refusals come.
#[derive(Debug, Drop)]
pub enum StanzaFault {
    /// Neither member of a pair can be read; `name` is its main one's.
    InfoDamaged {
        name: String,
        main: MemberFault,
        copy: MemberFault,
    },
    /// The histories of the two pairs differ; `at` is the first number at which they do.
    HistoryDiffers {
        at: u32,
    },
    /// The stanza's current cluster isn't the data folder's.
    StanzaMismatch {
        kept: Identity,
        found: Identity,
    },
    /// The archive pair is missing, and the backup pair lists backups; `label` is the first one's.
    ArchiveLost {
        label: Label,
    },
    /// The archive pair is missing, and no backup is listed, but there are files of the stanza; `name` is the first
    /// archive file, or without one the first file in the folder of a label.
    FilesFound {
        name: String,
    },
    /// the disk's count of faults rose
    Disk,
    NoMemory,
}

impl From<SaveFault> for StanzaFault {
    ghost from_gives = { λ s e. e ≡ fault_of s };

    fn from(fault: SaveFault) -> Self {
        match fault {
            SaveFault::Disk => StanzaFault::Disk,
            SaveFault::NoMemory => StanzaFault::NoMemory,
        }
    }
}

impl From<DeviceError> for StanzaFault {
    ghost from_gives = { λ s e. e ≡ fault_of_error s };

    fn from(stop: DeviceError) -> Self {
        match stop {
            DeviceError::Failed => StanzaFault::Disk,
            DeviceError::NoMemory => StanzaFault::NoMemory,
        }
    }
}

impl From<AllocError> for StanzaFault {
    ghost from_gives = { λ _ e. e ≡ WithoutMemory };

    fn from(_: AllocError) -> Self {
        StanzaFault::NoMemory
    }
}
