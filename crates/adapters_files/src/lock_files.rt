// The files and folders that a lock holds.
use crate::place::{Opened, TRIES, is_same, make_file, make_folders, open_plain, unless_absent};
use std::fs::{File, Metadata, OpenOptions, TryLockError};
use std::io::ErrorKind;
use std::os::unix::fs::MetadataExt;
use std::{fs, io};

// Numbers of errors that the C library has and its Rattle declarations lack.
const ENOLCK: i32 = 37;

const EOPNOTSUPP: i32 = 95;

// Each user may write to a folder.
const WRITABLE: u32 = 0o002;

// Of a folder that each may write to, one removes his own names alone.
const STICKY: u32 = 0o1000;

/// Which process holds a folder of a repository.
#[derive(Drop)]
pub enum Hold {
    /// This process does: by the folder itself, where it is there and can be locked.
    Ours(Option<File>),
    Others,
}

/// Holds the file of a lock, which is made where it is absent: None where others hold it. A file that was exchanged as
/// it was locked isn't the lock.
pub fn hold_file(rt: &HostRuntime, folder: &str, name: &str) -> io::Result<Option<File>> {
    make_folders(rt, folder)?;
    demand_safe(rt, folder)?;
    let path = format!(in rt.alloc(); "{folder}/{name}")?;
    for _ in 0..TRIES {
        let Some(file) = open_lock(rt, &path)? else {
            continue;
        };
        if !locks(&file)? {
            return Ok(None);
        }
        if is_at(rt, &path, &file)? {
            return Ok(Some(file));
        }
    }
    Err(io::Error::new(
        ErrorKind::ResourceBusy,
        "another file is put in its place again and again",
    ))
}

// None where another file came to be there meanwhile. A file that is there is opened to read and write it, which
// waits for nobody even where it has just become a pipe.
fn open_lock(rt: &HostRuntime, path: &str) -> io::Result<Option<File>> {
    let mut how = OpenOptions::new();
    how.read(true).write(true);
    match open_plain(rt, &how, path)? {
        Opened::File(file) => Ok(Some(file)),
        Opened::Absent => make_file(rt, path),
        Opened::Other => Ok(None),
    }
}

fn locks(file: &File) -> io::Result<bool> {
    match file.try_lock() {
        Ok(()) => Ok(true),
        Err(TryLockError::WouldBlock) => Ok(false),
        Err(TryLockError::Error(e)) => Err(e),
    }
}

fn is_at(rt: &HostRuntime, path: &str, file: &File) -> io::Result<bool> {
    match unless_absent(fs::symlink_metadata(rt, path))? {
        Some(seen) => Ok(is_same(&seen, &file.metadata()?)),
        None => Ok(false),
    }
}

// A folder in which anyone can exchange the locks holds none. Its group may: the folder that a service manager makes
// for a server's sockets mostly is its group's, and only trusted users are in that.
fn demand_safe(rt: &HostRuntime, folder: &str) -> io::Result<()> {
    demand_own(&fs::symlink_metadata(rt, folder)?)?;
    let seen = fs::metadata(rt, folder)?;
    demand_own(&seen)?;
    if seen.mode() & WRITABLE != 0 && seen.mode() & STICKY == 0 {
        let text = "its folder may be written to by all users, and isn't sticky";
        return Err(io::Error::new(ErrorKind::PermissionDenied, text));
    }
    Ok(())
}

fn demand_own(seen: &Metadata) -> io::Result<()> {
    if seen.uid() == 0 || seen.uid() == libc::geteuid() {
        return Ok(());
    }
    let text = "its folder belongs to another user";
    Err(io::Error::new(ErrorKind::PermissionDenied, text))
}

/// Holds the folder of the stanza whose lock this name is, in the repository's part that the lock is of. Before it is
/// made the nearest one above it is locked instead.
pub fn hold_folder(rt: &HostRuntime, root: &str, name: &str) -> io::Result<Hold> {
    let (part, stanza) = if let Some(stanza) = name.strip_suffix("-archive.lock") {
        ("archive", stanza)
    } else if let Some(stanza) = name.strip_suffix("-backup.lock") {
        ("backup", stanza)
    } else {
        return Ok(Hold::Ours(None));
    };
    let Some(folder) = open_nearest(rt, root, part, stanza)? else {
        return Ok(Hold::Ours(None));
    };
    match folder.try_lock() {
        Ok(()) => Ok(Hold::Ours(Some(folder))),
        Err(TryLockError::WouldBlock) => Ok(Hold::Others),
        Err(TryLockError::Error(e)) if has_no_locks(&e) => Ok(Hold::Ours(None)),
        Err(TryLockError::Error(e)) => Err(e),
    }
}

// A process may hold the locks of both parts, and can't lock the root twice; so it is locked for the archive
// alone.
fn open_nearest(
    rt: &HostRuntime,
    root: &str,
    part: &str,
    stanza: &str,
) -> io::Result<Option<File>> {
    let own = format!(in rt.alloc(); "{root}/{part}/{stanza}")?;
    if let Some(folder) = open_folder(rt, &own)? {
        return Ok(Some(folder));
    }
    let outer = format!(in rt.alloc(); "{root}/{part}")?;
    match open_folder(rt, &outer)? {
        None if part == "archive" => open_folder(rt, root),
        folder => Ok(folder),
    }
}

// None where it is absent.
fn open_folder(rt: &HostRuntime, path: &str) -> io::Result<Option<File>> {
    // after a slash nothing but a folder is opened
    let path = format!(in rt.alloc(); "{path}/")?;
    unless_absent(File::open(rt, path.as_str()))
}

// Whether the file system can't lock a folder: one of a network mostly locks files alone that are open to be written.
fn has_no_locks(e: &io::Error) -> bool {
    match e.raw_os_error() {
        Some(code) => {
            code == libc::EBADF || code == libc::EINVAL || code == ENOLCK || code == EOPNOTSUPP
        }
        None => false,
    }
}
