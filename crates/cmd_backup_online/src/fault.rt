// Why a running server's backup is refused.
ghost use Rattle.std.specs.Prelude.{◌≡◌};
ghost use Rattle.cmd_backup_online.specs.Faults.{of_offline, of_backup, of_talk, of_wait};

use archive_wait::AwaitFault;
use cmd_backup_common::BackupFault;
use cmd_backup_offline::{OfflineFault, of_backup as later_of};
use cmd_types::{Halt, Object};
use repo_names::Segment;
use server_talk::{OnlineFault, ServerFault};

/// Why a running server's backup is refused.
#[derive(Debug, Drop)]
pub enum OnlineBackupFault {
    /// It is refused as that of a stopped server is.
    Take(OfflineFault),
    /// The server's answer is refused.
    Server(ServerFault),
    /// The cluster has tablespaces, which aren't supported.
    TablespaceMap,
    /// No part of the log goes from this start to this stop.
    SpanWrong { start: Segment, stop: Segment },
    /// The first segment that is missing after this many steps of others.
    NotArrived { segment: Segment, turns: u64 },
    /// A segment is stored under two names; these are the first two in byte order.
    Ambiguous { first: String, second: String },
}

/// Which refusal a halt is that a stopped server's backup may have.
pub(crate) fn of_offline(halt: Halt<OfflineFault>) -> Halt<OnlineBackupFault>
    ensures { result ≡ of_offline halt }
{
    match halt {
        Halt::Refused(fault) => Halt::Refused(OnlineBackupFault::Take(fault)),
        Halt::Failed(object) => Halt::Failed(object),
        Halt::NoMemory => Halt::NoMemory,
    }
}

/// Which refusal a halt is that any backup may have.
pub(crate) fn of_backup(halt: Halt<BackupFault>) -> Halt<OnlineBackupFault>
    ensures { result ≡ of_backup halt }
{
    of_offline(later_of(halt))
}

/// The refusal that a fault of the talk becomes.
pub(crate) fn of_talk(fault: OnlineFault) -> Halt<OnlineBackupFault>
    ensures { result ≡ of_talk fault }
{
    match fault {
        OnlineFault::Server(ServerFault::NoMemory) => Halt::NoMemory,
        OnlineFault::Server(ServerFault::ServerConnection) => Halt::Failed(Object::Server),
        OnlineFault::Server(fault) => Halt::Refused(OnlineBackupFault::Server(fault)),
        OnlineFault::TablespaceMap => Halt::Refused(OnlineBackupFault::TablespaceMap),
        OnlineFault::SpanWrong { start, stop } => {
            Halt::Refused(OnlineBackupFault::SpanWrong { start, stop })
        }
    }
}

/// The refusal that a fault of the wait becomes.
pub(crate) fn of_wait(fault: AwaitFault) -> Halt<OnlineBackupFault>
    ensures { result ≡ of_wait fault }
{
    match fault {
        AwaitFault::NotArrived { segment, turns } => {
            Halt::Refused(OnlineBackupFault::NotArrived { segment, turns })
        }
        AwaitFault::Ambiguous { first, second } => {
            Halt::Refused(OnlineBackupFault::Ambiguous { first, second })
        }
        AwaitFault::Repo => Halt::Failed(Object::Repo),
        AwaitFault::Spool => Halt::Failed(Object::Spool),
        AwaitFault::NoMemory => Halt::NoMemory,
    }
}
