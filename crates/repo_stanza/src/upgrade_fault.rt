// Why a cluster isn't added to a stanza.
ghost use Rattle.std.specs.Prelude.{◌≡◌};
ghost use Rattle.repo_stanza.specs.declared.upgrade_fault.UpgradeFault.TheVariants.{NoMemory as WithoutMemory};
ghost use Rattle.repo_stanza.specs.UpgradeCauses.{upgrade_fault_of};

use base_text::NoMemory;
use repo_pair::SaveFault;
use std::alloc::AllocError;

/// Why a cluster isn't added to a stanza, in the order in which refusals come.
#[derive(Debug, Drop)]
pub enum UpgradeFault {
    /// The history has `limit` clusters or more, and its current one is another.
    TooMany { limit: u64 },
    /// With the cluster the text of an info file would have more than `limit` bytes; `name` is its main member's.
    TooLong { name: String, limit: u64 },
    /// the disk's count of faults rose
    Disk,
    NoMemory,
}

impl From<SaveFault> for UpgradeFault {
    ghost from_gives = { λ s e. e ≡ upgrade_fault_of s };

    fn from(fault: SaveFault) -> Self {
        match fault {
            SaveFault::Disk => UpgradeFault::Disk,
            SaveFault::NoMemory => UpgradeFault::NoMemory,
        }
    }
}

impl From<AllocError> for UpgradeFault {
    ghost from_gives = { λ _ e. e ≡ WithoutMemory };

    fn from(_: AllocError) -> Self {
        UpgradeFault::NoMemory
    }
}

impl From<NoMemory> for UpgradeFault {
    ghost from_gives = { λ _ e. e ≡ WithoutMemory };

    fn from(_: NoMemory) -> Self {
        UpgradeFault::NoMemory
    }
}
