// Why a call on an info file is refused.
ghost use Rattle.std.specs.Prelude.{◌≡◌};
ghost use Rattle.repo_pair.specs.declared.fault.SaveFault.TheVariants.{NoMemory as WithoutMemory};
ghost use Rattle.repo_pair.specs.declared.fault.InfoFault.TheVariants.{NoMemory as InfoNoMemory};

use base_disk::StoreFault;
use repo_info::MemberFault;
use std::alloc::{AllocError, AllocFailed};

/// Why an info file was not saved.
#[derive(Clone, Copy, Debug, PartialEq, Eq)]
pub enum SaveFault {
    /// the disk's count of faults rose
    Disk,
    NoMemory,
}

impl From<StoreFault> for SaveFault {
    ghost use Rattle.std.specs.Prelude.{◌≡◌};
    ghost use Rattle.repo_pair.specs.Fault.{fault_of};

    ghost from_gives = { λ s e. e ≡ fault_of s };

    fn from(fault: StoreFault) -> Self {
        match fault {
            StoreFault::Disk => SaveFault::Disk,
            StoreFault::TooLong { .. } => SaveFault::NoMemory,
            StoreFault::NoMemory => SaveFault::NoMemory,
        }
    }
}

impl From<base_text::NoMemory> for SaveFault {
    ghost from_gives = { λ _ e. e ≡ WithoutMemory };

    fn from(_: base_text::NoMemory) -> Self {
        SaveFault::NoMemory
    }
}

impl From<AllocError> for SaveFault {
    ghost from_gives = { λ _ e. e ≡ WithoutMemory };

    fn from(_: AllocError) -> Self {
        SaveFault::NoMemory
    }
}

/// Why a pair was not read.
#[derive(Debug, Drop)]
pub enum InfoFault {
    /// Neither member is there.
    Missing,
    /// One is there, and neither has a value.
    Damaged {
        main: MemberFault,
        copy: MemberFault,
    },
    /// the disk's count of faults rose
    Disk,
    NoMemory,
}

impl From<SaveFault> for InfoFault {
    ghost use Rattle.std.specs.Prelude.{◌≡◌};
    ghost use Rattle.repo_pair.specs.Fault.{info_fault_of};

    ghost from_gives = { λ s e. e ≡ info_fault_of s };

    fn from(fault: SaveFault) -> Self {
        match fault {
            SaveFault::Disk => InfoFault::Disk,
            SaveFault::NoMemory => InfoFault::NoMemory,
        }
    }
}

impl From<AllocError> for InfoFault {
    ghost from_gives = { λ _ e. e ≡ InfoNoMemory };

    fn from(_: AllocError) -> Self {
        InfoFault::NoMemory
    }
}
