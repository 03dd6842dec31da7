// Why archive-get is refused.
ghost use Rattle.std.specs.Prelude.{◌≡◌};
ghost use Rattle.cmd_archive_get.specs.Serving.{of_archive};

use archive_lookup::ArchiveFault;
use base_text::Sum;
use cmd_types::{Halt, Object};
use repo_stanza::Identity;

/// Why archive-get is refused, in the order in which refusals come.
#[derive(Debug, Drop)]
pub enum GetFault {
    /// The argument is no name of a file that a server archives.
    SegmentName { name: String },
    /// The path isn't that of a file in the data folder.
    PathOutside { path: String },
    /// The stanza has no cluster that is the data folder's; `kept` is its current one.
    StanzaMismatch { kept: Identity, found: Identity },
    /// The segment is stored under two names.
    Ambiguous { first: String, second: String },
    /// The stored bytes don't have the sum in their name.
    SegmentDamaged { known: Sum, found: Sum },
    /// The file has more than `limit` bytes.
    TooLong { name: String, limit: u64 },
}

/// Which refusal of archive-get a fault of the archive is.
pub fn of_archive(fault: ArchiveFault) -> Halt<GetFault>
    ensures { result ≡ of_archive fault }
{
    match fault {
        ArchiveFault::Ambiguous { first, second } => {
            Halt::Refused(GetFault::Ambiguous { first, second })
        }
        ArchiveFault::SegmentDamaged { known, found } => {
            Halt::Refused(GetFault::SegmentDamaged { known, found })
        }
        ArchiveFault::TooLong { name, limit } => Halt::Refused(GetFault::TooLong { name, limit }),
        ArchiveFault::Disk => Halt::Failed(Object::Repo),
        // That a file isn't there is no refusal, and is reported by its reader. The others come from files that are
        // stored or listed.
        ArchiveFault::NotFound
        | ArchiveFault::NoMemory
        | ArchiveFault::HeaderForm { .. }
        | ArchiveFault::SegmentSize { .. }
        | ArchiveFault::HeaderMismatch { .. }
        | ArchiveFault::Duplicate { .. }
        | ArchiveFault::TooMany { .. } => Halt::NoMemory,
    }
}
