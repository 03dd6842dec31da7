// How a backup is to be restored.
ghost use Rattle.std.specs.Prelude.{◌≡◌};
ghost use Rattle.base_model.specs.Values.{file_entry_of};
ghost use Rattle.restore_make.specs.Options.{recovery_of, log_fetch_of, is_added, is_ordinary};
ghost use Rattle.restore_make.specs.Recovered.{signal_path};

use base_devices::FolderEntry;
use base_model::{FileEntry, Manifest};
use restore_steps::is_control;

/// The file of a server's own settings.
pub(crate) const CONF: &str = "postgresql.auto.conf";

/// How a server fetches the log.
#[derive(Clone, Copy, Debug)]
pub struct LogFetch<'a> {
    /// The command by which it fetches a file; each single quote in it is doubled.
    pub command: &'a [u8],
    /// The further settings of its recovery, a line each, without newlines.
    pub settings: &'a [Vec<u8>],
    /// Whether it stays a standby.
    pub standby: bool,
}

/// How the server is to recover (PostgreSQL manual, "Recovering Using a Continuous Archive Backup").
#[derive(Clone, Copy, Debug)]
pub enum Recovery<'a> {
    /// Not at all: only the files of the backup are restored.
    Nothing,
    /// It fetches the log.
    FromArchive(LogFetch<'a>),
}

/// The file that asks a server to recover, or to stay a standby.
pub(crate) fn signal_path(fetch: &LogFetch<'_>) -> &'static str
    ensures { result.now ≡ signal_path (log_fetch_of fetch.now) }
{
    if fetch.standby {
        "standby.signal"
    } else {
        "recovery.signal"
    }
}

/// How a backup is to be restored (pgBackRest command reference, "Restore Command", options `delta` and `type`).
#[derive(Clone, Copy, Debug)]
pub struct RestoreOptions<'a> {
    /// Whether files that are there stay where they have the backup's bytes.
    pub delta: bool,
    pub recovery: Recovery<'a>,
}

/// What is restored, and how: the backup of the stanza that the manifest is of, into a data folder.
#[derive(Clone, Copy)]
pub struct Restoration<'a> {
    pub stanza: &'a str,
    pub manifest: &'a Manifest,
    pub options: RestoreOptions<'a>,
    /// The folder's listing immediately before.
    pub seen: &'a [FolderEntry],
}

// Whether the path is that of a file with settings of the recovery.
fn is_added(recovery: &Recovery<'_>, path: &str) -> bool
    ensures { result ≡ is_added (recovery_of recovery.now) path.now }
{
    match recovery {
        Recovery::Nothing => false,
        Recovery::FromArchive(fetch) => path == CONF || path == signal_path(fetch),
    }
}

/// Whether a file has bytes, is not the control file, and gets no settings.
pub(crate) fn is_ordinary(recovery: &Recovery<'_>, file: &FileEntry) -> bool
    ensures { result ≡ is_ordinary (recovery_of recovery.now) (file_entry_of file.now) }
{
    file.size > 0 && !is_control(&file.path) && !is_added(recovery, &file.path)
}
