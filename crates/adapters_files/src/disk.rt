// The repository, on the system's files.
ghost use Rattle.std.specs.Prelude.{◌≡◌, None, false, map, string_bytes};

use crate::handles::{Handles, Writes};
use crate::place::{Place, folder_of, no_memory, unless_absent};
use crate::progress::Progress;
use crate::sync_directories::{
    SyncedFolders, are_synced_at_once, sync_directories, sync_directory, sync_files,
};
use crate::total::Total;
use crate::walk::{folders_in, plain_nodes_below};
use adapters_process::Faults;
use base_devices::{DeviceError, Disk, FolderEntry, Found, Node};
use std::alloc::{AllocError, Global};
use std::io::ErrorKind;
use std::{fs, io};

/// A disk below a folder of the system. Its contents are unknown.
#[derive(Drop)]
pub struct RealDisk {
    place: Place,
    handles: Handles,
    settled: SyncedFolders,
    // whether the files of a backup are synced all at once: None where it isn't decided yet
    is_swift: Option<bool>,
    // the file of a server that runs, where no list of backups may be written next to it
    server: Option<String>,
    // of the manifest that is being read
    total: Total,
    progress: Progress,
    faults: Faults,
}

impl RealDisk {
    pub fn new(rt: HostRuntime) -> Self
        ensures { result.faults.count ≡ 0 }
    {
        RealDisk {
            settled: SyncedFolders::new(&rt),
            handles: Handles::new(rt.alloc()),
            place: Place::new(rt),
            is_swift: None,
            server: None,
            total: Total::new(),
            progress: Progress::new(rt),
            faults: Faults::new(),
        }
    }

    /// From now on this process is the only one that changes names below this folder of the root.
    pub fn is_only_writer_in(&mut self, folder: &'static str) {
        self.settled.noted.own(folder);
    }

    /// From now on the list of backups isn't written where something is at this path, until it was written once: a
    /// server that runs has its file there, and an offline backup may not be listed besides it.
    pub fn refuse_list_beside(&mut self, path: &str) -> Result<(), AllocError> {
        self.server = Some(String::from_str(self.place.rt.alloc(), path)?);
        Ok(())
    }

    /// Turns on progress output.
    pub fn tell_progress(&mut self) {
        self.progress.tell();
    }

    /// From now on a person sees how many bytes a manifest lists, once it is read.
    pub fn show_total(&mut self) {
        self.progress.expect_total();
    }

    /// Returns how many bytes were written in all.
    pub fn end_progress(&self) {
        self.progress.end();
    }

    /// What failed last, for a person to read.
    pub fn last_failure(&self) -> Option<&str> {
        self.faults.last()
    }

    /// How often a call failed.
    pub fn faults(&self) -> u64
        ensures { result ≡ (⟦<RealDisk as Disk>⟧.state self.now).faults }
    {
        self.faults.count
    }
}

impl Disk for RealDisk {
    ghost state = { λ d. record {
      view = record { now = None; moment = 0; kept = λ _ _ _. ⊥; unsynced = λ _ _. false };
      opened = map string_bytes d.place.opened.items;
      faulty_calls = 0;
      faults = d.faults.count;
    } };

    ghost now_may_be_left = { λ d n v h. absurd h };

    fn open(&mut self, path: &str) -> Result<(), DeviceError> {
        self.handles.forget();
        self.settled.forget_root();
        self.is_swift = None;
        let done = self.place.open(path);
        self.faults
            .counted(&self.place.call("opening of", ""), done)
    }

    fn names(&mut self, alloc: Global, folder: &str) -> Result<Vec<Found>, DeviceError> {
        let done = names_below(alloc, &self.place, folder);
        self.faults
            .counted(&self.place.call("listing of", folder), done)
    }

    fn folders(&mut self, alloc: Global, folder: &str) -> Result<Vec<String>, DeviceError> {
        let done = folders_in(alloc, &self.place, folder);
        self.faults
            .counted(&self.place.call("listing of", folder), done)
    }

    fn read(&mut self, name: &str, at: u64, buf: &mut [u8]) -> Result<Option<usize>, DeviceError> {
        let done = self.handles.read(&self.place, name, at, buf);
        if let Ok(Some(count)) = done {
            self.total.see(&self.progress, name, at, &buf[..count]);
        }
        self.faults
            .counted(&self.place.call("reading of", name), done)
    }

    fn begin(&mut self, name: &str) -> Result<(), DeviceError> {
        let done = begin_in_folders(
            &self.place,
            &mut self.handles,
            &mut self.settled,
            &mut self.is_swift,
            name,
        );
        self.faults
            .counted(&self.place.call("creation of", name), done)
    }

    fn append(&mut self, name: &str, bytes: &[u8]) -> Result<(), DeviceError> {
        let done = self.handles.append(&self.place, name, bytes);
        if done.is_ok() {
            self.progress.add(bytes.len());
        }
        self.faults
            .counted(&self.place.call("writing to", name), done)
    }

    fn sync(&mut self, name: &str) -> Result<(), DeviceError> {
        let done = self.handles.sync(&self.place, name);
        self.faults.counted(&self.place.call("sync of", name), done)
    }

    fn rename(&mut self, from: &str, to: &str) -> Result<(), DeviceError> {
        let done = move_file(
            &self.place,
            &mut self.handles,
            &mut self.settled,
            &mut self.server,
            from,
            to,
        );
        self.faults.counted(&self.place.move_of(from, to), done)
    }

    fn remove(&mut self, name: &str) -> Result<(), DeviceError> {
        self.handles.forget_name(name);
        let done = remove_name(&self.place, &mut self.settled, name);
        self.faults
            .counted(&self.place.call("removal of", name), done)
    }

    fn sync_below(&mut self, folder: &str) -> Result<(), DeviceError> {
        let done = sync_below(&self.place, &mut self.handles, &mut self.settled, folder);
        self.faults
            .counted(&self.place.call("sync of", folder), done)
    }

    fn sync_directories(&mut self, folder: &str) -> Result<(), DeviceError> {
        let none_lost = self.handles.demand_none_lost();
        let done = none_lost.and_then(|()| sync_directories(
            &self.place,
            &mut self.settled,
            folder,
        ));
        self.faults
            .counted(&self.place.call("sync of", folder), done)
    }

    fn sync_directory(&mut self, folder: &str) -> Result<(), DeviceError> {
        let none_lost = self.handles.demand_none_lost();
        let done = none_lost.and_then(|()| sync_directory(&self.place, &mut self.settled, folder));
        self.faults
            .counted(&self.place.call("sync of", folder), done)
    }
}

// Only files are names of a disk.
fn names_below(alloc: Global, place: &Place, folder: &str) -> io::Result<Vec<Found>> {
    let mut found = Vec::new(alloc);
    for seen in plain_nodes_below(alloc, place, folder)? {
        let FolderEntry { path, node } = seen;
        if let Node::File { size, .. } = node {
            found.push(Found { name: path, size }).map_err(no_memory)?;
        }
    }
    Ok(found)
}

fn sync_below(
    place: &Place,
    handles: &mut Handles,
    settled: &mut SyncedFolders,
    folder: &str,
) -> io::Result<()> {
    handles.demand_none_lost()?;
    handles.finish_all()?;
    let files = names_below(place.rt.alloc(), place, folder)?;
    sync_files(place, handles, &mut settled.whole, folder, &files)
}

// Folders are there by their names alone, so those that lack are made.
fn begin_in_folders(
    place: &Place,
    handles: &mut Handles,
    settled: &mut SyncedFolders,
    is_swift: &mut Option<bool>,
    name: &str,
) -> io::Result<()> {
    settled.noted.change(place, name)?;
    let before = settled.noted.before_first(place);
    match begin_file(place, handles, settled, is_swift, name) {
        Err(e) if e.kind() == ErrorKind::NotFound => {
            settled.forget();
            place.make_folders_for(name)?;
            begin_file(place, handles, settled, is_swift, name)
        }
        Ok(()) => {
            settled.noted.compare(place, before);
            Ok(())
        }
        Err(e) => Err(e),
    }
}

fn begin_file(
    place: &Place,
    handles: &mut Handles,
    settled: &mut SyncedFolders,
    is_swift: &mut Option<bool>,
    name: &str,
) -> io::Result<()> {
    let writes = if is_of_backup(name) {
        writes_of_backup(place, settled, is_swift, name)?
    } else if name.split('/').nth(2) == Some("in") {
        // a segment that is fetched ahead isn't synced at all, and mostly is removed before it is written
        Writes::Sometime
    } else {
        // a file of the log is synced alone, and so is a list
        Writes::Early
    };
    handles.begin(place, name, writes)
}

// Whether it lies in the folder of a backup.
fn is_of_backup(name: &str) -> bool {
    name.starts_with("backup/") && name.split('/').nth(3).is_some()
}

// Files of a backup are many, and synced together where that can be believed: the file system then has one place for
// the bytes of many.
fn writes_of_backup(
    place: &Place,
    settled: &mut SyncedFolders,
    is_swift: &mut Option<bool>,
    name: &str,
) -> io::Result<Writes> {
    if is_swift.is_none() {
        *is_swift = are_synced_at_once(place, &mut settled.whole, folder_of(name))?;
    }
    match *is_swift {
        Some(true) => Ok(Writes::Sometime),
        _ => Ok(Writes::BeforeClose),
    }
}

fn move_file(
    place: &Place,
    handles: &mut Handles,
    settled: &mut SyncedFolders,
    server: &mut Option<String>,
    from: &str,
    to: &str,
) -> io::Result<()> {
    if is_list(to) {
        demand_no_server(place, server)?;
    }
    handles.demand_in_place(place, from)?;
    handles.close(from)?;
    handles.forget_name(to);
    rename_into_folders(place, settled, from, to)?;
    if is_list(to) {
        *server = None;
        handles.close_written()?;
    }
    Ok(())
}

// Whether it is the list of a stanza's backups.
fn is_list(name: &str) -> bool {
    name.starts_with("backup/") && name.ends_with("/backup.info")
}

fn demand_no_server(place: &Place, server: &Option<String>) -> io::Result<()> {
    let Some(path) = server else {
        return Ok(());
    };
    match unless_absent(fs::symlink_metadata(&place.rt, path.as_str()))? {
        Some(_) => Err(io::Error::new(
            ErrorKind::Other,
            "a server was started in the data folder meanwhile: stop it, and back up again",
        )),
        None => Ok(()),
    }
}

fn rename_into_folders(
    place: &Place,
    settled: &mut SyncedFolders,
    from: &str,
    to: &str,
) -> io::Result<()> {
    settled.noted.change(place, to)?;
    match place.rename(from, to) {
        Err(e) if e.kind() == ErrorKind::NotFound => {
            settled.forget();
            place.make_folders_for(to)?;
            place.rename(from, to)
        }
        done => done,
    }
}

fn remove_name(place: &Place, settled: &mut SyncedFolders, name: &str) -> io::Result<()> {
    settled.noted.change(place, name)?;
    place.remove(name)?;
    if name.starts_with("backup/") {
        remove_empty_folders(place, settled, name);
    }
    Ok(())
}

// Removes the folders of a backup that held the name alone, up to the stanza's. A folder isn't a name of the disk,
// so one that stays is no failure. Below the log they stay: another process may just have made one to push into it.
fn remove_empty_folders(place: &Place, settled: &mut SyncedFolders, name: &str) {
    let mut below = name;
    for _ in 0..name.len() {
        let Some((folder, _)) = below.rsplit_once('/') else {
            return;
        };
        let is_of_backup = folder.bytes().filter(|b| *b == b'/').count() >= 2;
        if !is_of_backup || place.remove_folder(folder).is_err() {
            return;
        }
        match place.path_of(folder) {
            Ok(path) => settled.forget_removed(&path),
            Err(_) => settled.forget(),
        }
        below = folder;
    }
}
