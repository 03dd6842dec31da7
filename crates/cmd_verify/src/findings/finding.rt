// What deviates in a repository.
use archive_lookup::ArchiveFault;
use base_devices::DeviceError;
use base_text::NoMemory;
use std::alloc::{AllocError, AllocFailed};

/// A kind of deviation, in the order in which they are reported of a name.
#[derive(Clone, Copy, Debug, PartialEq, Eq, PartialOrd, Ord)]
pub enum FindingKind {
    /// A member of a pair isn't there.
    MemberAbsent,
    /// It is no text of its kind.
    MemberBad,
    /// Both members are texts of their kind, and they differ.
    MembersDiffer,
    /// A file's bytes should lie there, and nothing does.
    Absent,
    /// Fewer bytes lie at a file's place than should.
    Short,
    /// Other bytes lie there.
    Digest,
    /// A segment is stored under an earlier name too.
    Second,
    /// A segment that a backup needs isn't stored.
    Gap,
    /// A backup refers to another that isn't listed.
    Reference,
    /// A manifest states another backup than its entry in `backup.info` does.
    Unlike,
    /// The pairs, the names of the archive and the list of backups contradict each other.
    Contradiction,
}

/// A deviation: its kind, and the line that states it.
#[derive(Drop)]
pub(crate) struct Mark {
    pub kind: FindingKind,
    pub line: String,
}

/// A deviation, and the name at which it is. What is reported is the name, `: ` and the line.
#[derive(Debug, Drop, PartialEq, Eq, PartialOrd, Ord)]
pub struct Finding {
    pub name: String,
    pub kind: FindingKind,
    pub line: String,
}

/// Why the verification of a repository ends early.
#[derive(Clone, Copy, Debug, PartialEq, Eq)]
pub enum VerifyFault {
    /// More than `limit` files are archived.
    TooMany { limit: u64 },
    /// The repository failed.
    Disk,
    NoMemory,
}

/// Why a part of it ends early.
#[derive(Clone, Copy, Debug, PartialEq, Eq)]
pub(crate) enum LookFault {
    /// The repository failed.
    Disk,
    NoMemory,
}

impl From<DeviceError> for LookFault {
    ghost use Rattle.std.specs.Prelude.{◌≡◌};
    ghost use Rattle.cmd_verify.specs.Faults.{fault_of_error};

    ghost from_gives = { λ s e. e ≡ fault_of_error s };

    fn from(stop: DeviceError) -> Self {
        match stop {
            DeviceError::Failed => LookFault::Disk,
            DeviceError::NoMemory => LookFault::NoMemory,
        }
    }
}

impl From<NoMemory> for LookFault {
    ghost use Rattle.std.specs.Prelude.{◌≡◌};
    ghost use Rattle.cmd_verify.specs.declared.findings.finding.LookFault.TheVariants as faults;

    ghost from_gives = { λ _ e. e ≡ faults.NoMemory };

    fn from(_: NoMemory) -> Self {
        LookFault::NoMemory
    }
}

impl From<AllocError> for LookFault {
    ghost use Rattle.std.specs.Prelude.{◌≡◌};
    ghost use Rattle.cmd_verify.specs.declared.findings.finding.LookFault.TheVariants as faults;

    ghost from_gives = { λ _ e. e ≡ faults.NoMemory };

    fn from(_: AllocError) -> Self {
        LookFault::NoMemory
    }
}

impl<T: Drop> From<AllocFailed<T>> for LookFault {
    ghost use Rattle.std.specs.Prelude.{◌≡◌};
    ghost use Rattle.cmd_verify.specs.declared.findings.finding.LookFault.TheVariants as faults;

    ghost from_gives = { λ _ e. e ≡ faults.NoMemory };

    fn from(_: AllocFailed<T>) -> Self {
        LookFault::NoMemory
    }
}

impl From<NoMemory> for VerifyFault {
    ghost use Rattle.std.specs.Prelude.{◌≡◌};
    ghost use Rattle.cmd_verify.specs.declared.findings.finding.VerifyFault.TheVariants as faults;

    ghost from_gives = { λ _ e. e ≡ faults.NoMemory };

    fn from(_: NoMemory) -> Self {
        VerifyFault::NoMemory
    }
}

impl From<LookFault> for VerifyFault {
    ghost use Rattle.std.specs.Prelude.{◌≡◌};
    ghost use Rattle.cmd_verify.specs.Faults.{fault_of_look};

    ghost from_gives = { λ f e. e ≡ fault_of_look f };

    fn from(fault: LookFault) -> Self {
        match fault {
            LookFault::Disk => VerifyFault::Disk,
            LookFault::NoMemory => VerifyFault::NoMemory,
        }
    }
}

impl From<ArchiveFault> for VerifyFault {
    ghost use Rattle.std.specs.Prelude.{◌≡◌};
    ghost use Rattle.cmd_verify.specs.Faults.{fault_of_archive};

    ghost from_gives = { λ f e. e ≡ fault_of_archive f };

    fn from(fault: ArchiveFault) -> Self {
        match fault {
            ArchiveFault::TooMany { limit } => VerifyFault::TooMany { limit },
            ArchiveFault::Disk => VerifyFault::Disk,
            _ => VerifyFault::NoMemory,
        }
    }
}
