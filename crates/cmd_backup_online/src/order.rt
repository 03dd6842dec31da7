// What is to be backed up, and which server runs on it.
ghost use Rattle.std.specs.Prelude.{◌<◌, ◌+◌, ◌^◌, length};

use base_model::BackupInfo;
use cmd_backup_common::KnownStanza;
use cmd_backup_offline::{BackupBasis, OfflineOrder};

/// Which data folder is backed up and how, and how the server that runs on it is reached.
#[derive(Clone, Copy)]
pub struct OnlineOrder<'a> {
    pub later: OfflineOrder<'a>,
    /// The path of the server's socket.
    pub socket: &'a str,
    pub user: &'a str,
    pub database: &'a str,
    /// The server's backup starts at once, and else after the next checkpoint. pgBackRest's option `start-fast`.
    pub fast: bool,
    /// How many steps of other processes are waited for at most. pgBackRest's option `archive-timeout`.
    pub archive_timeout: u64,
    // The first message has both names, and a length of 32 bits.
    ghost short: { length user.now + length database.now + 97 < 2 ^ 32 },
}

/// Which backup of a running server is to be made, and what is known of its stanza.
#[derive(Drop)]
pub struct OnlineTask<'a> {
    pub order: OnlineOrder<'a>,
    pub stanza: KnownStanza<'a>,
}

/// The stanza's list, and the second by which its next backup is named.
#[derive(Drop)]
pub(crate) struct NextBackup {
    pub(crate) list: BackupInfo,
    pub(crate) second: u64,
}

/// What a server of this system is asked for, and which backup is made meanwhile.
#[derive(Drop)]
pub(crate) struct ServerTask<'a> {
    pub(crate) order: OnlineOrder<'a>,
    pub(crate) system: u64,
    pub(crate) basis: BackupBasis<'a>,
    pub(crate) next: NextBackup,
}
