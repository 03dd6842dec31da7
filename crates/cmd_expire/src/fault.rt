// Why expire is refused.
ghost use Rattle.std.specs.Prelude.{◌≡◌};
ghost use Rattle.cmd_expire.specs.FollowUp.{of_after};
ghost use Rattle.cmd_expire.specs.Faults.{of_stanza, of_expire};

use cmd_types::{Halt, Object};
use expire_make::ExpireFault;
use repo_stanza::StanzaFault;

/// Why expire is refused.
#[derive(Debug, Drop)]
pub enum ExpireCommandFault {
    /// The histories of the two info pairs differ; `at` is the first number at which they do.
    HistoryDiffers { at: u32 },
}

/// Why the expiry that follows a backup isn't done, or not whole. The backup is made and listed already.
#[derive(Debug, Drop)]
pub enum FollowUpFault {
    /// One of the info pairs has no value any more.
    PairLost,
    /// The histories of the two info pairs differ; `at` is the first number at which they do.
    HistoryDiffers { at: u32 },
    /// The repository's count of faults rose.
    Repo,
    /// The clock's count of faults rose.
    Clock,
    NoMemory,
}

/// The refusal that a fault of the stanza becomes.
pub(crate) fn of_stanza(fault: StanzaFault) -> Halt<ExpireCommandFault>
    ensures { result ≡ of_stanza fault }
{
    match fault {
        StanzaFault::HistoryDiffers { at } => Halt::Refused(ExpireCommandFault::HistoryDiffers {
            at,
        }),
        // Values that were read don't end with one of these.
        StanzaFault::InfoDamaged { .. }
        | StanzaFault::StanzaMismatch { .. }
        | StanzaFault::ArchiveLost { .. }
        | StanzaFault::FilesFound { .. }
        | StanzaFault::Disk
        | StanzaFault::NoMemory => Halt::NoMemory,
    }
}

/// The refusal that a fault of the expiry becomes.
pub(crate) fn of_expire(fault: ExpireFault) -> Halt<ExpireCommandFault>
    ensures { result ≡ of_expire fault }
{
    match fault {
        ExpireFault::Disk => Halt::Failed(Object::Repo),
        // An expiry of a list that was read doesn't end with one of the first two.
        ExpireFault::Info(_) | ExpireFault::HistoryDiffers { .. } | ExpireFault::NoMemory => {
            Halt::NoMemory
        }
    }
}

/// The refusal that a fault of the expiry after a backup becomes.
pub(crate) fn of_after(fault: ExpireFault) -> FollowUpFault
    ensures { result ≡ of_after fault }
{
    match fault {
        ExpireFault::Info(_) => FollowUpFault::PairLost,
        ExpireFault::HistoryDiffers { at } => FollowUpFault::HistoryDiffers { at },
        ExpireFault::Disk => FollowUpFault::Repo,
        ExpireFault::NoMemory => FollowUpFault::NoMemory,
    }
}
