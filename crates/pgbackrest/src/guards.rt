// What is refused before anything is touched: the folder of another cluster, and root over the files of another user.
// And how a recovery is stopped that must not end.
use options_read::Command;
use options_table::Verb;
use std::alloc::{AllocError, Global};
use std::fs;
use std::fs::Metadata;
use std::os::unix::fs::MetadataExt;

const WRONG_FOLDER: u8 = 32;

const NOT_OWNER: u8 = 14;

const ROOT: u32 = 0;

// With a status above 125 a server ends its recovery as failed. It takes any other one as the end of the archive.
const STOPPED: u8 = 126;

/// Whether an argument is that of the command by which a server recovers, however it is refused.
pub fn is_fetch(arguments: &[String]) -> bool {
    arguments.iter().any(|word| word.as_str() == "archive-get")
}

/// Whether an argument is that of a command that a push or a fetch starts in the background.
pub fn is_beside(arguments: &[String]) -> bool {
    arguments.iter().any(|word| matches!(word.as_str(), "archive-push:async" | "archive-get:async"))
}

/// Whether an argument is that of a command that a server calls, or that works for one in the background. Its status
/// alone counts there, whatever happens to its lines.
pub fn is_for_server(arguments: &[String]) -> bool {
    arguments.iter().any(|word| matches!(
        word.as_str(),
        "archive-push" | "archive-push:async" | "archive-get"
    ))
}

/// Whether the working folder is that of a server in a recovery, after which it goes live. A standby asks again.
pub fn is_in_recovery(rt: &HostRuntime) -> bool {
    is_in_cluster(rt) && is_there(rt, "recovery.signal") && !is_there(rt, "standby.signal")
}

/// The status for the system where a server in a recovery has called: it stops it, unless the file was served or the
/// archive is known to end.
pub fn stop_recovery(rt: &HostRuntime, status: u8) -> u8 {
    if status <= 1 {
        return status;
    }
    let _ = eprintln!(rt;
        "ERROR: the recovery is stopped, since the end of the archive is not known (status {status})"
    );
    STOPPED
}

/// Why a command is refused.
#[derive(Drop)]
pub struct Refusal {
    pub status: u8,
    pub line: String,
}

/// Why this command may not run here and as this user.
pub fn refusal_of(rt: &HostRuntime, command: &Command) -> Result<Option<Refusal>, AllocError> {
    if is_in_another(rt, command) {
        return Ok(Some(wrong_folder(rt.alloc())?));
    }
    if is_root() && writes(command.verb) {
        for path in &folders_of(rt.alloc(), command)? {
            if is_of_another(rt, path) {
                return Ok(Some(not_owner(rt.alloc(), path)?));
            }
        }
    }
    Ok(None)
}

/// Whether the program runs as root.
pub fn is_root() -> bool {
    libc::geteuid() == ROOT
}

fn wrong_folder(alloc: Global) -> Result<Refusal, AllocError> {
    let line = "ERROR: [032]: working directory is not the same as option pg1-path\n";
    Ok(Refusal {
        status: WRONG_FOLDER,
        line: String::from_str(alloc, line)?,
    })
}

fn not_owner(alloc: Global, path: &str) -> Result<Refusal, AllocError> {
    Ok(Refusal {
        status: NOT_OWNER,
        line: format!(in alloc; "ERROR: [014]: user root is not the owner of '{path}'\n")?,
    })
}

// Whether a server of another cluster than that of the data folder calls: each runs these commands in its own folder.
fn is_in_another(rt: &HostRuntime, command: &Command) -> bool {
    matches!(command.verb, Verb::ArchivePush | Verb::ArchiveGet)
        && is_in_cluster(rt)
        && !is_working_folder(rt, data_folder(command))
}

fn is_in_cluster(rt: &HostRuntime) -> bool {
    is_there(rt, "PG_VERSION") && is_there(rt, "global/pg_control")
}

fn is_working_folder(rt: &HostRuntime, path: &str) -> bool {
    match (seen(rt, "."), seen(rt, path)) {
        (Some(here), Some(there)) => here.dev() == there.dev() && here.ino() == there.ino(),
        _ => false,
    }
}

// The folders in which the command leaves files: where one is another user's, he could not read what root leaves. The
// top of a file system may be root's while what is in it isn't.
fn folders_of(alloc: Global, command: &Command) -> Result<Vec<String>, AllocError> {
    let mut folders = Vec::new(alloc);
    if writes_repository(command.verb) {
        let repository = command.options.repo1_path.as_str();
        let stanza = command.stanza.as_str();
        folders.push(String::from_str(alloc, repository)?)?;
        folders.push(format!(in alloc; "{repository}/archive/{stanza}")?)?;
        folders.push(format!(in alloc; "{repository}/backup/{stanza}")?)?;
    }
    folders.push(String::from_str(alloc, data_folder(command))?)?;
    if writes_spool(command) {
        folders.push(command.options.spool_path.clone()?)?;
    }
    Ok(folders)
}

fn writes(verb: Verb) -> bool {
    !matches!(verb, Verb::Verify | Verb::Info)
}

// What a restore leaves is for the user whose the repository is.
fn writes_repository(verb: Verb) -> bool {
    !matches!(verb, Verb::ArchiveGet | Verb::ArchiveGetAsync)
}

fn writes_spool(command: &Command) -> bool {
    match command.verb {
        Verb::ArchivePushAsync | Verb::ArchiveGetAsync => true,
        Verb::ArchivePush | Verb::ArchiveGet => command.options.archive_async,
        _ => false,
    }
}

/// The data folder: where there is none, a path that leads nowhere.
pub fn data_folder(command: &Command) -> &str {
    match &command.options.pg1_path {
        Some(path) => path.as_str(),
        None => "",
    }
}

fn is_of_another(rt: &HostRuntime, path: &str) -> bool {
    seen(rt, path).is_some_and(|seen| seen.uid() != ROOT)
}

/// Whether the folder is another user's than root's, or where it isn't there, the nearest one above it.
pub fn is_below_another(rt: &HostRuntime, folder: &str) -> bool {
    let mut path = folder;
    for _ in 0..folder.len() {
        if is_there(rt, path) {
            return is_of_another(rt, path);
        }
        match path.rsplit_once('/') {
            Some((above, _)) => path = above,
            None => return false,
        }
    }
    false
}

fn is_there(rt: &HostRuntime, path: &str) -> bool {
    seen(rt, path).is_some()
}

fn seen(rt: &HostRuntime, path: &str) -> Option<Metadata> {
    fs::metadata(rt, path).ok()
}
