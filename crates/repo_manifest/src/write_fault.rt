// Why a manifest was not saved.
ghost use Rattle.std.specs.Prelude.{◌≡◌};
ghost use Rattle.repo_manifest.specs.declared.write_fault.WriteFault.TheVariants.{NoMemory as WithoutMemory};

use repo_pair::SaveFault;

/// Why a manifest was not saved.
#[derive(Clone, Copy, Debug, PartialEq, Eq)]
pub enum WriteFault {
    /// its text has this many bytes, which are more than a manifest may have
    TooLong { length: u64 },
    /// the disk's count of faults rose
    Disk,
    NoMemory,
}

impl From<SaveFault> for WriteFault {
    ghost use Rattle.std.specs.Prelude.{◌≡◌};
    ghost use Rattle.repo_manifest.specs.Keeping.{write_fault_of};

    ghost from_gives = { λ s e. e ≡ write_fault_of s };

    fn from(fault: SaveFault) -> Self {
        match fault {
            SaveFault::Disk => WriteFault::Disk,
            SaveFault::NoMemory => WriteFault::NoMemory,
        }
    }
}

impl From<base_text::NoMemory> for WriteFault {
    ghost from_gives = { λ _ e. e ≡ WithoutMemory };

    fn from(_: base_text::NoMemory) -> Self {
        WriteFault::NoMemory
    }
}
