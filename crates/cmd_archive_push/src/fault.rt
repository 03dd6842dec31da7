// Why archive-push is refused.
ghost use Rattle.std.specs.Prelude.{◌≡◌};
ghost use Rattle.cmd_archive_push.specs.Faults.{of_archive, of_store};

use archive_lookup::ArchiveFault;
use archive_store::PushFault as StoreFault;
use base_text::Sum;
use cmd_types::{Halt, Object};
use repo_stanza::Identity;

/// Why archive-push is refused, in the order in which refusals come.
#[derive(Debug, Drop)]
pub enum PushFault {
    /// The path's last element is no name of a file that a server archives.
    SegmentName { name: String },
    /// The path isn't that of a file in the data folder's `pg_wal`.
    PathOutside { path: String },
    /// The stanza's current cluster isn't the data folder's.
    StanzaMismatch { kept: Identity, found: Identity },
    SegmentMissing { path: String },
    /// The file has more than `limit` bytes.
    TooLong { name: String, limit: u64 },
    /// The segment's first page has no long header.
    HeaderForm { info: u16 },
    /// The segment's header states another size than the file has, or none that a segment has.
    SegmentSize { known: u32, found: u64 },
    /// The segment is of another cluster than the stanza.
    HeaderMismatch { kept: u64, found: u64 },
    /// The segment is stored under two names.
    Ambiguous { first: String, second: String },
    /// The segment is stored with other bytes.
    Duplicate { kept: Sum, found: Sum },
}

// The refusal that a fault of the archive becomes.
fn of_archive(fault: ArchiveFault) -> Halt<PushFault>
    ensures { result ≡ of_archive fault }
{
    match fault {
        ArchiveFault::HeaderForm { info } => Halt::Refused(PushFault::HeaderForm { info }),
        ArchiveFault::SegmentSize { known, found } => {
            Halt::Refused(PushFault::SegmentSize { known, found })
        }
        ArchiveFault::HeaderMismatch { kept, found } => {
            Halt::Refused(PushFault::HeaderMismatch { kept, found })
        }
        ArchiveFault::Ambiguous { first, second } => {
            Halt::Refused(PushFault::Ambiguous { first, second })
        }
        ArchiveFault::Duplicate { kept, found } => {
            Halt::Refused(PushFault::Duplicate { kept, found })
        }
        ArchiveFault::TooLong { name, limit } => Halt::Refused(PushFault::TooLong { name, limit }),
        ArchiveFault::Disk => Halt::Failed(Object::Repo),
        // No push ends with one of the first three: its cause is empty.
        ArchiveFault::NotFound
        | ArchiveFault::SegmentDamaged { .. }
        | ArchiveFault::TooMany { .. }
        | ArchiveFault::NoMemory => Halt::NoMemory,
    }
}

/// How a push ends whose file isn't stored for this.
pub fn of_store(fault: StoreFault) -> Halt<PushFault>
    ensures { result ≡ of_store fault }
{
    match fault {
        StoreFault::Archive(fault) => of_archive(fault),
        StoreFault::Source => Halt::Failed(Object::TheDataFolder),
    }
}
