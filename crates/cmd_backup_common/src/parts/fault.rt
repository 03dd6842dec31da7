// Why a backup is refused.
ghost use Rattle.std.specs.Prelude.{◌≡◌};
ghost use Rattle.base_model.specs.InfoFiles.{IsLabel};
ghost use Rattle.cmd_backup_common.specs.PartsFaults.{of_stanza, of_plan, of_second, IsHaltOf};

use crate::drafts::SecondFault;
use backup_make::MakeFault;
use backup_plan::PlanFault;
use base_model::Label;
use cmd_types::{Halt, Object};
use repo_manifest::manifest_name;
use repo_stanza::{Identity, StanzaFault, backup_info_name};
use std::alloc::Global;

/// A manifest has at most 256 MiB.
const MANIFEST_LIMIT: u64 = 268_435_456;

/// A stanza's list has at most 64 MiB.
const LIST_LIMIT: u64 = 67_108_864;

/// Why a backup is refused, in the order in which refusals come.
#[derive(Debug, Drop)]
pub enum BackupFault {
    /// The histories of the two info pairs differ; `at` is the first number at which they do.
    HistoryDiffers { at: u32 },
    /// The stanza's current cluster isn't the data folder's.
    StanzaMismatch { kept: Identity, found: Identity },
    /// The data folder has a server's `postmaster.pid`.
    Running,
    /// This many backups are listed, or the data folder has more than `limit` files, or bytes of files.
    TooMany { limit: u64 },
    /// All of these workers were lost.
    WorkersLost { lost: u32 },
    /// The latest second that a label states is more than ten seconds ahead of the clock.
    ClockBehind { latest: u64, now: u64 },
    /// The data folder has a link.
    LinkFound { path: String },
    /// A path in the data folder can't be in a backup.
    NameRefused { path: String },
    /// The paths of the listing aren't in their order, or a folder on a path isn't listed.
    ListingUnordered,
    /// A file without which there is no backup isn't there, or vanished.
    ControlMissing { path: String },
    /// A worker couldn't read this file.
    Unread { path: String },
    /// The file would have more than `limit` bytes.
    TooLong { name: String, limit: u64 },
}

/// The refusal that a fault of the stanza becomes.
pub(crate) fn of_stanza(fault: StanzaFault) -> Halt<BackupFault>
    ensures { result ≡ of_stanza fault }
{
    match fault {
        StanzaFault::HistoryDiffers { at } => Halt::Refused(BackupFault::HistoryDiffers { at }),
        StanzaFault::StanzaMismatch { kept, found } => {
            Halt::Refused(BackupFault::StanzaMismatch { kept, found })
        }
        // Values that were read don't end with one of these.
        StanzaFault::InfoDamaged { .. }
        | StanzaFault::ArchiveLost { .. }
        | StanzaFault::FilesFound { .. }
        | StanzaFault::Disk
        | StanzaFault::NoMemory => Halt::NoMemory,
    }
}

/// The refusal that a fault of the listing becomes.
pub fn of_plan(fault: PlanFault) -> Halt<BackupFault>
    ensures { result ≡ of_plan fault }
{
    match fault {
        PlanFault::LinkFound { path } => Halt::Refused(BackupFault::LinkFound { path }),
        PlanFault::NameRefused { path, fault: _ } => {
            Halt::Refused(BackupFault::NameRefused { path })
        }
        PlanFault::Unordered => Halt::Refused(BackupFault::ListingUnordered),
        PlanFault::ControlMissing { path } => Halt::Refused(BackupFault::ControlMissing { path }),
        PlanFault::TooMany { limit } => Halt::Refused(BackupFault::TooMany { limit }),
        PlanFault::NoMemory => Halt::NoMemory,
    }
}

/// Why no second is given for a label.
pub fn of_second(fault: SecondFault) -> Halt<BackupFault>
    ensures { result ≡ of_second fault }
{
    match fault {
        SecondFault::ClockBehind { latest, now } => {
            Halt::Refused(BackupFault::ClockBehind { latest, now })
        }
        SecondFault::Clock => Halt::Failed(Object::Clock),
        SecondFault::Disk => Halt::Failed(Object::Repo),
        SecondFault::NoMemory => Halt::NoMemory,
    }
}

/// Why the backup of this label isn't made; this many workers were lost by then.
pub fn of_make(
    alloc: Global,
    stanza: &str,
    label: &Label,
    lost: u32,
    fault: MakeFault,
) -> Halt<BackupFault>
    requires { IsLabel label.now }
    ensures { IsHaltOf stanza.now label.now lost fault result }
{
    match fault {
        MakeFault::WorkersLost => Halt::Refused(BackupFault::WorkersLost { lost }),
        MakeFault::Unread { path } => Halt::Refused(BackupFault::Unread { path }),
        MakeFault::ControlMissing { path } => match String::from_str(alloc, path) {
            Ok(path) => Halt::Refused(BackupFault::ControlMissing { path }),
            Err(_) => Halt::NoMemory,
        },
        MakeFault::ManifestTooLong { .. } => match manifest_name(alloc, stanza, label) {
            Ok(name) => Halt::Refused(BackupFault::TooLong {
                name,
                limit: MANIFEST_LIMIT,
            }),
            Err(_) => Halt::NoMemory,
        },
        MakeFault::ListTooLong { .. } => match backup_info_name(alloc, stanza) {
            Ok(name) => Halt::Refused(BackupFault::TooLong {
                name,
                limit: LIST_LIMIT,
            }),
            Err(_) => Halt::NoMemory,
        },
        MakeFault::Clock => Halt::Failed(Object::Clock),
        MakeFault::Disk => Halt::Failed(Object::Repo),
        MakeFault::NoMemory => Halt::NoMemory,
    }
}
