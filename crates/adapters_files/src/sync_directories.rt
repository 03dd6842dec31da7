// Makes the names in a folder durable, and the bytes of the files below one.
use crate::filesystem_sync::WholeSync;
use crate::handles::Handles;
use crate::mounts::may_hold_file_systems;
use crate::noted::{MOST_LINES, Noted, State};
use crate::place::{Place, folder_of, no_memory, unless_absent};
use base_devices::Found;
use std::fs::{DirEntry, Metadata};
use std::io::ErrorKind;
use std::os::unix::fs::MetadataExt;
use std::{fs, io};

// With more folders or files than these, one sync of their file system is tried first.
const FEW: usize = 8;

#[derive(Drop)]
struct Folder {
    path: String,
    state: State,
    // how many folders it holds, where the file system counts them
    held: Option<u64>,
}

/// The folders that were synced since this process made one, each in its state of then: while it is in that state the
/// folders in it have durable names. A sync is never undone, so a folder that is removed takes nothing from the others:
/// of the one that held it the names have changed, and at its own path another may come to be.
#[derive(Drop)]
pub struct SyncedFolders {
    folders: Vec<Folder>,
    // whether the root's own name is durable
    has_root: bool,
    pub noted: Noted,
    pub whole: WholeSync,
}

impl SyncedFolders {
    pub fn new(rt: &HostRuntime) -> Self {
        SyncedFolders {
            folders: Vec::new(rt.alloc()),
            has_root: false,
            noted: Noted::new(rt),
            whole: WholeSync::new(),
        }
    }

    /// Another root is opened.
    pub fn forget_root(&mut self) {
        self.has_root = false;
        self.forget();
    }

    /// A folder was made.
    pub fn forget(&mut self) {
        self.folders.clear();
    }

    /// A folder was removed: it is forgotten, and the one that held it.
    pub fn forget_removed(&mut self, path: &str) {
        let outer = folder_of(path);
        self.folders.retain(|settled| {
            let settled = settled.path.as_str();
            settled != path && settled != outer
        });
    }

    // Another process may make a folder within one second.
    fn has(&self, path: &str, state: State) -> bool {
        self.noted.believes(state)
            && self.folders.iter().any(|settled| settled.state == state
                && settled.path.as_str() == path)
    }

    fn add(&mut self, folders: Vec<Folder>) -> io::Result<()> {
        for folder in folders {
            self.folders.push(folder).map_err(no_memory)?;
        }
        Ok(())
    }
}

/// The names below a folder lie in it, in the folders below it, and, where folders were made, in those that hold it.
/// What the note lists isn't synced again.
pub fn sync_directories(
    place: &Place,
    settled: &mut SyncedFolders,
    folder: &str,
) -> io::Result<()> {
    let mut folders = folders_above(place, settled, folder)?;
    let first = folders.len();
    add_folder(place, place.path_of(folder)?, &mut folders)?;
    let mut next = add_folders_below(place, first, MOST_LINES, &mut folders)?;
    if next < folders.len() && may_hold_file_systems(place) {
        next = add_folders_below(place, next, usize::MAX, &mut folders)?;
    }
    let known = settled.noted.known(place);
    let are_many = next < folders.len() || unknown(&settled.noted, &known, &folders) > FEW;
    see_each(&mut settled.noted, &folders);
    settle_root(place, settled, &known)?;
    let is_done = are_many && lie_with_root(place, &folders)? && sync_at_once(place, settled);
    let noted = &mut settled.noted;
    if is_done {
        note_each(place, noted, &folders);
    } else {
        add_folders_below(place, next, usize::MAX, &mut folders)?;
        see_each(noted, &folders);
        sync_each(place, noted, &known, &folders)?;
    }
    noted.write(place);
    settled.add(folders)
}

/// The names directly in a folder lie in it; the folder itself lies in those that hold it. What the note lists isn't
/// synced again.
pub fn sync_directory(place: &Place, settled: &mut SyncedFolders, folder: &str) -> io::Result<()> {
    let mut folders = folders_above(place, settled, folder)?;
    add_folder(place, place.path_of(folder)?, &mut folders)?;
    let known = settled.noted.known(place);
    see_each(&mut settled.noted, &folders);
    let noted = &mut settled.noted;
    sync_each(place, noted, &known, &folders)?;
    noted.write(place);
    settled.add(folders)
}

/// Makes the bytes of these files durable, which are all that lie below the folder. Where this process syncs each that
/// it writes, it does so here too. Else they may have been closed unsynced, and one sync of each doesn't make up for a
/// sync of all that fails.
pub fn sync_files(
    place: &Place,
    handles: &mut Handles,
    whole: &mut WholeSync,
    folder: &str,
    files: &[Found],
) -> io::Result<()> {
    let is_swift = files.len() > FEW && !handles.is_owing();
    if is_swift && are_synced_at_once(place, whole, folder)?.unwrap_or(false) {
        return whole.demand(place);
    }
    for file in files {
        handles.sync_once(place, &file.name)?;
    }
    Ok(())
}

/// Whether one sync of the root's file system makes durable all that is written below the folder: None where that is
/// absent.
pub fn are_synced_at_once(
    place: &Place,
    whole: &mut WholeSync,
    folder: &str,
) -> io::Result<Option<bool>> {
    let Some(seen) = folder_at(place, &place.path_of(folder)?)? else {
        return Ok(None);
    };
    let is_with_root = seen.dev() == device_of_root(place)?;
    Ok(Some(is_with_root && !may_hold_file_systems(place) && whole.serves(place)))
}

// The root may have been made by a command that was killed then, or by hand. Where its folder isn't to be read, it
// can't be synced either. Others may change names there all the time, so that the note says nothing about it; a process
// that only reads leaves it alone.
fn settle_root(place: &Place, settled: &mut SyncedFolders, known: &[State]) -> io::Result<()> {
    if settled.has_root || !settled.noted.is_of_writer() {
        return Ok(());
    }
    let root = place.root().trim_end_matches('/');
    let outer = String::from_str(place.rt.alloc(), folder_of(root))?;
    if let Some(seen) = folder_at(place, &outer)? {
        let state = State::of(&seen);
        let is_mounted = seen.dev() != device_of_root(place)?;
        if !is_mounted && !settled.noted.is_durable(known, &outer, state) {
            unless_denied(settled.noted.sync(place, &outer, state))?;
        }
    }
    settled.has_root = true;
    Ok(())
}

fn unless_denied(done: io::Result<()>) -> io::Result<()> {
    match done {
        Err(e) if e.kind() == ErrorKind::PermissionDenied => Ok(()),
        done => done,
    }
}

// One sync of the root's whole file system, where it can be believed. A failure is reported again for each folder.
fn sync_at_once(place: &Place, settled: &mut SyncedFolders) -> bool {
    settled.whole.serves(place) && settled.whole.run(place).unwrap_or(false)
}

// How many of the folders are to be synced.
fn unknown(noted: &Noted, known: &[State], folders: &[Folder]) -> usize {
    folders
        .iter()
        .filter(|folder| !noted.is_durable(known, &folder.path, folder.state))
        .count()
}

// Syncs each folder that isn't durable as it is.
fn sync_each(
    place: &Place,
    noted: &mut Noted,
    known: &[State],
    folders: &[Folder],
) -> io::Result<()> {
    for folder in folders {
        if !noted.is_durable(known, &folder.path, folder.state) {
            noted.sync(place, &folder.path, folder.state)?;
        }
    }
    Ok(())
}

// All of them were synced at once: those are noted that haven't changed since.
fn note_each(place: &Place, noted: &mut Noted, folders: &[Folder]) {
    for folder in folders {
        if let Ok(Some(known)) = folder_at(place, &folder.path) {
            if State::of(&known) == folder.state {
                noted.add(&folder.path, folder.state);
            }
        }
    }
}

fn see_each(noted: &mut Noted, folders: &[Folder]) {
    for folder in folders {
        noted.see(folder.state);
    }
}

// The folders that hold the folder, up to the root, except for those that are synced.
fn folders_above(place: &Place, settled: &SyncedFolders, folder: &str) -> io::Result<Vec<Folder>> {
    let mut folders = Vec::new(place.rt.alloc());
    let mut above = folder;
    for _ in 0..folder.len() {
        let Some((outer, _)) = above.rsplit_once('/') else {
            break;
        };
        add_above(place, settled, place.path_of(outer)?, &mut folders)?;
        above = outer;
    }
    add_above(
        place,
        settled,
        String::from_str(place.rt.alloc(), place.root())?,
        &mut folders,
    )?;
    Ok(folders)
}

fn add_above(
    place: &Place,
    settled: &SyncedFolders,
    path: String,
    folders: &mut Vec<Folder>,
) -> io::Result<()> {
    match folder_at(place, &path)? {
        Some(known) if !settled.has(&path, State::of(&known)) => push_folder(path, &known, folders),
        _ => Ok(()),
    }
}

fn add_folder(place: &Place, path: String, folders: &mut Vec<Folder>) -> io::Result<()> {
    match folder_at(place, &path)? {
        Some(known) => push_folder(path, &known, folders),
        None => Ok(()),
    }
}

// What is known of a folder: None where there is none at the path.
fn folder_at(place: &Place, path: &str) -> io::Result<Option<Metadata>> {
    let known = unless_absent(fs::metadata(&place.rt, path))?;
    Ok(known.filter(|known| known.is_dir()))
}

// The links of a folder are its own name, the dot in it, and the two dots of each folder in it. Where a file system
// doesn't count so, it reports one.
fn push_folder(path: String, known: &Metadata, folders: &mut Vec<Folder>) -> io::Result<()> {
    let folder = Folder {
        path,
        state: State::of(known),
        held: known.nlink().checked_sub(2),
    };
    folders.push(folder).map_err(no_memory)
}

// Adds the folders below each folder from a place of the list on, until there are more than this many, and returns the
// place of the next one to be looked at.
fn add_folders_below(
    place: &Place,
    first: usize,
    most: usize,
    folders: &mut Vec<Folder>,
) -> io::Result<usize> {
    for at in first..usize::MAX {
        let Some(next) = folders.get(at) else {
            return Ok(at);
        };
        let held = next.held.unwrap_or(0);
        if (folders.len() as u64).saturating_add(held) > most as u64 {
            return Ok(at);
        }
        if next.held != Some(0) {
            let path = next.path.clone()?;
            add_folders_in(place, &path, folders)?;
        }
    }
    Ok(usize::MAX)
}

fn add_folders_in(place: &Place, path: &str, folders: &mut Vec<Folder>) -> io::Result<()> {
    let Some(entries) = unless_absent(fs::read_dir(&place.rt, path))? else {
        return Ok(());
    };
    for entry in entries {
        match entry {
            Ok(entry) => add_entry(place, path, &entry, folders)?,
            // no command reads a name that isn't UTF-8
            Err(e) if e.kind() == ErrorKind::InvalidFilename => {}
            Err(e) => return Err(e),
        }
    }
    Ok(())
}

fn add_entry(
    place: &Place,
    path: &str,
    entry: &DirEntry,
    folders: &mut Vec<Folder>,
) -> io::Result<()> {
    match unless_absent(entry.metadata())? {
        Some(known) if known.is_dir() => {
            let name = entry.file_name();
            let below = format!(in place.rt.alloc(); "{path}/{name}")?;
            push_folder(below, &known, folders)
        }
        _ => Ok(()),
    }
}

// Whether all lie on the root's device, as the root is now.
fn lie_with_root(place: &Place, folders: &[Folder]) -> io::Result<bool> {
    let device = device_of_root(place)?;
    Ok(folders.iter().all(|folder| folder.state.device == device))
}

fn device_of_root(place: &Place) -> io::Result<u64> {
    Ok(fs::metadata(&place.rt, place.root())?.dev())
}
