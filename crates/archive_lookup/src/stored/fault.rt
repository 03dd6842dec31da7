// Why a file isn't stored or isn't read.
ghost use Rattle.std.specs.Prelude.{◌≡◌};
ghost use Rattle.archive_lookup.specs.declared.stored.fault.ArchiveFault.TheVariants.{NoMemory as WithoutMemory};

use base_devices::DeviceError;
use base_disk::StoreFault;
use base_text::{NoMemory, Sum};
use repo_names::HeaderFault;
use std::alloc::AllocError;

/// Why a file isn't stored or isn't got, in the order in which refusals come.
#[derive(Debug, Drop)]
pub enum ArchiveFault {
    /// There are fewer than 40 bytes, or no flag of a long header; with fewer than 4 bytes, `info` is 0.
    HeaderForm { info: u16 },
    /// The size that the header states is no segment's, or not the number of bytes.
    SegmentSize { known: u32, found: u64 },
    /// The segment is of another cluster: the stanza's system identifier, and the segment's.
    HeaderMismatch { kept: u64, found: u64 },
    /// The segment is stored under two names; these are the first two in byte order.
    Ambiguous { first: String, second: String },
    /// The file is stored with other bytes: the sum of those that are stored, and of these.
    Duplicate { kept: Sum, found: Sum },
    NotFound,
    /// The stored bytes aren't those that were pushed: the sum that the name states, and theirs.
    SegmentDamaged { known: Sum, found: Sum },
    /// What is stored at the name is longer than `limit` bytes.
    TooLong { name: String, limit: u64 },
    /// More than `limit` files are stored.
    TooMany { limit: u64 },
    Disk,
    NoMemory,
}

impl From<HeaderFault> for ArchiveFault {
    ghost use Rattle.std.specs.Prelude.{◌≡◌};
    ghost use Rattle.archive_lookup.specs.Fault.{fault_of_header};

    ghost from_gives = { λ h e. e ≡ fault_of_header h };

    fn from(fault: HeaderFault) -> Self {
        match fault {
            HeaderFault::Form { info, .. } => ArchiveFault::HeaderForm { info },
            HeaderFault::Size { known, found } => ArchiveFault::SegmentSize { known, found },
            HeaderFault::System { kept, found } => ArchiveFault::HeaderMismatch { kept, found },
        }
    }
}

impl From<StoreFault> for ArchiveFault {
    ghost use Rattle.std.specs.Prelude.{◌≡◌};
    ghost use Rattle.archive_lookup.specs.Fault.{fault_of_store};

    ghost from_gives = { λ s e. e ≡ fault_of_store s };

    fn from(fault: StoreFault) -> Self {
        match fault {
            StoreFault::Disk => ArchiveFault::Disk,
            StoreFault::TooLong { name, limit } => ArchiveFault::TooLong { name, limit },
            StoreFault::NoMemory => ArchiveFault::NoMemory,
        }
    }
}

impl From<DeviceError> for ArchiveFault {
    ghost use Rattle.std.specs.Prelude.{◌≡◌};
    ghost use Rattle.archive_lookup.specs.Fault.{fault_of_error};

    ghost from_gives = { λ s e. e ≡ fault_of_error s };

    fn from(stop: DeviceError) -> Self {
        match stop {
            DeviceError::Failed => ArchiveFault::Disk,
            DeviceError::NoMemory => ArchiveFault::NoMemory,
        }
    }
}

impl From<NoMemory> for ArchiveFault {
    ghost from_gives = { λ _ e. e ≡ WithoutMemory };

    fn from(_: NoMemory) -> Self {
        ArchiveFault::NoMemory
    }
}

impl From<AllocError> for ArchiveFault {
    ghost from_gives = { λ _ e. e ≡ WithoutMemory };

    fn from(_: AllocError) -> Self {
        ArchiveFault::NoMemory
    }
}
