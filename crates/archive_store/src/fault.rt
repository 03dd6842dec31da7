// Why a file that is read in pieces isn't stored.
ghost use Rattle.std.specs.Prelude.{◌≡◌};
ghost use Rattle.archive_lookup.specs.declared.stored.fault.ArchiveFault.TheVariants.{NoMemory as WithoutMemory};
ghost use Rattle.archive_store.specs.Fault.{fault_of_source};

use archive_lookup::ArchiveFault;
use base_devices::DeviceError;
use base_disk::StoreFault;
use base_text::NoMemory;

/// Why a file that is read in pieces isn't stored.
#[derive(Debug, Drop)]
pub enum PushFault {
    Archive(ArchiveFault),
    /// The source of the file's bytes failed.
    Source,
}

impl From<ArchiveFault> for PushFault {
    ghost use Rattle.std.specs.Prelude.{◌≡◌};
    ghost use Rattle.archive_store.specs.declared.fault.PushFault.TheVariants.{Archive};

    ghost from_gives = { λ f e. e ≡ Archive f };

    fn from(fault: ArchiveFault) -> Self {
        PushFault::Archive(fault)
    }
}

impl From<StoreFault> for PushFault {
    ghost use Rattle.std.specs.Prelude.{◌≡◌};
    ghost use Rattle.archive_store.specs.declared.fault.PushFault.TheVariants.{Archive};
    ghost use Rattle.archive_lookup.specs.Fault.{fault_of_store};

    ghost from_gives = { λ s e. e ≡ Archive (fault_of_store s) };

    fn from(fault: StoreFault) -> Self {
        PushFault::Archive(fault.into())
    }
}

impl From<NoMemory> for PushFault {
    ghost use Rattle.std.specs.Prelude.{◌≡◌};
    ghost use Rattle.archive_store.specs.declared.fault.PushFault.TheVariants.{Archive};

    ghost from_gives = { λ _ e. e ≡ Archive WithoutMemory };

    fn from(_: NoMemory) -> Self {
        PushFault::Archive(ArchiveFault::NoMemory)
    }
}

/// The fault of a push whose source stopped.
pub(crate) fn source_fault(stop: DeviceError) -> PushFault
    ensures { result ≡ fault_of_source stop }
{
    match stop {
        DeviceError::Failed => PushFault::Source,
        DeviceError::NoMemory => PushFault::Archive(ArchiveFault::NoMemory),
    }
}
