// Why stanza-upgrade is refused.
ghost use Rattle.std.specs.Prelude.{◌≡◌};
ghost use Rattle.cmd_stanza_upgrade.specs.Faults.{of_stanza, of_server, of_upgrade};

use cmd_types::{Halt, Object};
use repo_stanza::{StanzaFault, UpgradeFault};
use server_talk::ServerFault;

/// Why stanza-upgrade is refused, in the order in which refusals come.
#[derive(Debug, Drop)]
pub enum UpgradeCommandFault {
    /// The histories of the two info pairs differ; `at` is the first number at which they do.
    HistoryDiffers { at: u32 },
    /// The server's answer is refused.
    Server(ServerFault),
    /// The history has `limit` clusters or more, and the data folder's is another than its current one.
    TooMany { limit: u64 },
    /// With the cluster the text of an info file would have more than `limit` bytes; `name` is its main member's.
    TooLong { name: String, limit: u64 },
}

/// The refusal that a fault of the two pairs' values becomes.
pub(crate) fn of_stanza(fault: StanzaFault) -> Halt<UpgradeCommandFault>
    ensures { result ≡ of_stanza fault }
{
    match fault {
        StanzaFault::HistoryDiffers { at } => Halt::Refused(UpgradeCommandFault::HistoryDiffers {
            at,
        }),
        // Values that were read don't end with one of these.
        StanzaFault::InfoDamaged { .. }
        | StanzaFault::StanzaMismatch { .. }
        | StanzaFault::ArchiveLost { .. }
        | StanzaFault::FilesFound { .. }
        | StanzaFault::Disk
        | StanzaFault::NoMemory => Halt::NoMemory,
    }
}

/// How a talk with the server that was refused ends the command.
pub(crate) fn of_server(halt: Halt<ServerFault>) -> Halt<UpgradeCommandFault>
    ensures { result ≡ of_server halt }
{
    match halt {
        Halt::Refused(fault) => Halt::Refused(UpgradeCommandFault::Server(fault)),
        Halt::Failed(object) => Halt::Failed(object),
        Halt::NoMemory => Halt::NoMemory,
    }
}

/// How an upgrade that was refused, or stopped, ends the command.
pub(crate) fn of_upgrade(fault: UpgradeFault) -> Halt<UpgradeCommandFault>
    ensures { result ≡ of_upgrade fault }
{
    match fault {
        UpgradeFault::TooMany { limit } => Halt::Refused(UpgradeCommandFault::TooMany { limit }),
        UpgradeFault::TooLong { name, limit } => {
            Halt::Refused(UpgradeCommandFault::TooLong { name, limit })
        }
        UpgradeFault::Disk => Halt::Failed(Object::Repo),
        UpgradeFault::NoMemory => Halt::NoMemory,
    }
}
