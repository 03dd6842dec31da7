// Why stanza-create is refused.

use repo_info::MemberFault;
use repo_stanza::Identity;
use server_talk::ServerFault;

/// Why stanza-create is refused, in the order in which refusals come.
#[derive(Debug, Drop)]
pub enum CreateFault {
    /// The server's answer is refused.
    Server(ServerFault),
    /// Neither member of the info pair can be read.
    InfoDamaged {
        name: String,
        main: MemberFault,
        copy: MemberFault,
    },
    /// The histories of the two info pairs differ; `at` is the first number at which they do.
    HistoryDiffers {
        at: u32,
    },
    /// The stanza's current cluster isn't the data folder's.
    StanzaMismatch {
        kept: Identity,
        found: Identity,
    },
    /// The archive pair is missing, and the backup pair lists backups, this one as the first.
    ArchiveLost {
        label: String,
    },
    /// The archive pair is missing, and no backup is listed, but there are files of the stanza, this one as the first.
    FilesFound {
        name: String,
    },
}
