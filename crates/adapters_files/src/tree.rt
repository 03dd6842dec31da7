// The data folder, on the system's files.
ghost use Rattle.std.specs.Prelude.{◌≡◌, ◌≤◌, false, None, IfOk, IfSome, length, map, string_bytes};
ghost use Rattle.base_devices.specs.DataFolder.{known_path};

use crate::handles::Handles;
use crate::place::Place;
use crate::progress::Progress;
use crate::restore_sync::{Restoring, move_file, move_synced, sync_name};
use crate::walk::{Listing, nodes_below, nodes_of_folder};
use adapters_process::Faults;
use base_devices::{DataFolder, DeviceError, FolderEntry, Node, ReadableFile};
use std::alloc::{AllocError, Global};
use std::fs::{File, TryLockError};
use std::io;
use std::io::ErrorKind;
use std::time::{Duration, SystemTime, UNIX_EPOCH};

/// A data folder of the system. Its contents are unknown.
#[derive(Drop)]
pub struct RealDataFolder {
    place: Place,
    handles: Handles,
    restore_sync: Restoring,
    listing: Listing,
    // whether the root is locked, and the lock of the one that was opened last
    is_held: bool,
    held: Option<File>,
    // of the file that is being read, as its reading began
    size: u64,
    // of all files of the last listing
    listed: u64,
    progress: Progress,
    faults: Faults,
}

impl RealDataFolder {
    pub fn new(rt: HostRuntime) -> Self
        ensures { result.faults.count ≡ 0 }
    {
        RealDataFolder {
            handles: Handles::new(rt.alloc()),
            place: Place::new(rt),
            restore_sync: Restoring::new(),
            listing: Listing::whole(),
            is_held: false,
            held: None,
            size: 0,
            listed: 0,
            progress: Progress::new(rt),
            faults: Faults::new(),
        }
    }

    /// From now on all that is written is synced at the end, by `sync`.
    pub fn restores(&mut self) {
        self.restore_sync.begin();
    }

    /// From now on no other process that does so has the same root.
    pub fn hold(&mut self) {
        self.is_held = true;
    }

    /// From now on what can't be listed is passed over below the folders whose content no backup takes.
    pub fn pass_over_omitted(&mut self) {
        self.listing.pass_over = true;
    }

    /// From now on the folder of the log is such a folder, and a link in its place counts as it.
    pub fn log_is_folder(&mut self) {
        self.listing.log_is_folder = true;
    }

    /// How many bytes the files of the last listing have.
    pub fn listed_bytes(&self) -> u64 {
        self.listed
    }

    /// Turns on progress output.
    pub fn tell_progress(&mut self) {
        self.progress.tell();
    }

    /// Progress output also shows how many bytes a listing has.
    pub fn show_total(&mut self) {
        self.progress.expect_total();
    }

    /// Returns how many bytes were written in all.
    pub fn end_progress(&self) {
        self.progress.end();
    }

    /// What failed last, for a person to read.
    pub fn last_failure(&self) -> Option<&str> {
        self.faults.last()
    }

    /// How often a call failed.
    pub fn faults(&self) -> u64
        ensures { result ≡ (⟦<RealDataFolder as DataFolder>⟧.state self.now).faults }
    {
        self.faults.count
    }
}

impl DataFolder for RealDataFolder {
    ghost state = { λ t. record {
      nodes = None;
      unsynced = λ _. false;
      opened = map string_bytes t.place.opened.items;
      faulty_calls = 0;
      faults = t.faults.count;
    } };

    fn open(&mut self, path: &str) -> Result<(), DeviceError> {
        self.handles.forget();
        self.restore_sync.forget();
        self.held = None;
        let mut done = self.place.open(path);
        if done.is_ok() && self.is_held {
            done = hold(&self.place, &mut self.held);
        }
        self.faults
            .counted(&self.place.call("opening of", ""), done)
    }

    fn list(&mut self, alloc: Global) -> Result<Vec<FolderEntry>, DeviceError> {
        let done = nodes_below(alloc, &self.place, "", self.listing);
        if let Ok(seen) = &done {
            self.restore_sync.see(seen);
            self.listed = bytes_of(seen);
            self.progress.show_total(self.listed);
        }
        self.faults
            .counted(&self.place.call("listing of", ""), done)
    }

    fn list_folder(
        &mut self,
        alloc: Global,
        folder: &str,
    ) -> Result<Vec<FolderEntry>, DeviceError> {
        let done = nodes_of_folder(alloc, &self.place, folder);
        if let Ok(seen) = &done {
            self.restore_sync.see(seen);
        }
        self.faults
            .counted(&self.place.call("listing of", folder), done)
    }

    fn read(
        &mut self,
        what: &ReadableFile,
        at: u64,
        buf: &mut [u8],
    ) -> Result<Option<usize>, DeviceError> {
        let path = path_of(self.place.rt.alloc(), what)?;
        let done = read_known(
            &self.place,
            &mut self.handles,
            &mut self.size,
            &path,
            at,
            buf,
        );
        self.faults
            .counted(&self.place.call("reading of", &path), done)
    }

    fn size(&mut self, what: &ReadableFile) -> Result<Option<u64>, DeviceError> {
        let path = path_of(self.place.rt.alloc(), what)?;
        let done = size_of(&self.place, &self.handles, self.size, &path);
        self.faults
            .counted(&self.place.call("reading of", &path), done)
    }

    fn make(&mut self, folder: &str) -> Result<(), DeviceError> {
        let done = self.place.make_folder(folder);
        self.faults
            .counted(&self.place.call("creation of", folder), done)
    }

    fn begin(&mut self, path: &str) -> Result<(), DeviceError> {
        let writes = self.restore_sync.writes(&self.place, path);
        let done = self.handles.begin(&self.place, path, writes);
        self.faults
            .counted(&self.place.call("creation of", path), done)
    }

    fn begin_new(&mut self, path: &str) -> Result<bool, DeviceError> {
        let writes = self.restore_sync.writes(&self.place, path);
        let done = self.handles.begin_new(&self.place, path, writes);
        self.faults
            .counted(&self.place.call("creation of", path), done)
    }

    fn append(&mut self, path: &str, bytes: &[u8]) -> Result<(), DeviceError> {
        let done = self.handles.append(&self.place, path, bytes);
        if done.is_ok() {
            self.progress.add(bytes.len());
        }
        self.faults
            .counted(&self.place.call("writing to", path), done)
    }

    fn set_time(&mut self, path: &str, time: u64) -> Result<(), DeviceError> {
        let done = set_time(&self.place, &self.handles, path, time);
        self.faults
            .counted(&self.place.call("setting of the time of", path), done)
    }

    fn rename(&mut self, from: &str, to: &str) -> Result<(), DeviceError> {
        let done = move_file(&self.place, &mut self.handles, from, to);
        self.faults.counted(&self.place.move_of(from, to), done)
    }

    fn remove(&mut self, path: &str) -> Result<(), DeviceError> {
        self.handles.forget_name(path);
        let done = remove_node(&self.place, path);
        self.faults
            .counted(&self.place.call("removal of", path), done)
    }

    fn sync(&mut self) -> Result<(), DeviceError> {
        let done = self.restore_sync.sync_all(&self.place, &mut self.handles);
        self.faults.counted(&self.place.call("sync of", ""), done)
    }

    fn rename_synced(&mut self, from: &str, to: &str) -> Result<(), DeviceError> {
        let done = move_synced(&self.place, &mut self.handles, from, to);
        self.faults.counted(&self.place.move_of(from, to), done)
    }

    fn remove_synced(&mut self, path: &str) -> Result<(), DeviceError> {
        self.handles.forget_name(path);
        let done = remove_node(&self.place, path).and_then(|()| sync_name(&self.place, path));
        self.faults
            .counted(&self.place.call("removal of", path), done)
    }
}

fn path_of(alloc: Global, what: &ReadableFile) -> Result<String, AllocError>
    ensures { IfOk result (λ path. string_bytes path ≡ known_path what.now) }
{
    match what {
        ReadableFile::Control => String::from_str(alloc, "global/pg_control"),
        ReadableFile::Version => String::from_str(alloc, "PG_VERSION"),
        ReadableFile::Wal(name) => format!(in alloc; "pg_wal/{name}"),
    }
}

// A file that is being read is as long as it was when its reading began.
fn size_of(place: &Place, handles: &Handles, size: u64, path: &str) -> io::Result<Option<u64>> {
    if handles.goes_on(path, 1) {
        return Ok(Some(size));
    }
    place.file_length(path)
}

// What isn't a file is no known file. All of one reading is as long as the file was when it began: what is added
// meanwhile isn't read, and a file that becomes shorter is a fault.
fn read_known(
    place: &Place,
    handles: &mut Handles,
    size: &mut u64,
    path: &str,
    at: u64,
    buf: &mut [u8],
) -> io::Result<Option<usize>>
    ensures { IfOk result (λ n. IfSome n (λ n. n ≤ length buf.old)) }
{
    if !handles.goes_on(path, at) {
        match place.file_length(path)? {
            Some(known) => *size = known,
            None => return Ok(None),
        }
    }
    let room = size.saturating_sub(at).min(buf.len() as u64) as usize;
    match handles.read(place, path, at, &mut buf[..room])? {
        Some(0) if room > 0 => Err(io::Error::from(ErrorKind::UnexpectedEof)),
        read => Ok(read),
    }
}

fn set_time(place: &Place, handles: &Handles, path: &str, time: u64) -> io::Result<()> {
    handles.set_time(place, path, second(time)?)
}

// A second of the system's clock, where it has that.
fn second(time: u64) -> io::Result<SystemTime> {
    match UNIX_EPOCH.checked_add(Duration::from_secs(time)) {
        Some(second) => Ok(second),
        None => Err(io::Error::from(ErrorKind::InvalidInput)),
    }
}

fn remove_node(place: &Place, path: &str) -> io::Result<()> {
    match place.look_at(path)? {
        Some(known) if known.is_dir() => place.remove_folder(path),
        _ => place.remove(path),
    }
}

// Where the file system can't lock a folder, none is locked.
fn hold(place: &Place, held: &mut Option<File>) -> io::Result<()> {
    let folder = File::open(&place.rt, place.root())?;
    match folder.try_lock() {
        Ok(()) => {
            *held = Some(folder);
            Ok(())
        }
        Err(TryLockError::WouldBlock) => Err(io::Error::new(
            ErrorKind::WouldBlock,
            "another restore works in the folder",
        )),
        Err(TryLockError::Error(_)) => Ok(()),
    }
}

fn bytes_of(seen: &[FolderEntry]) -> u64 {
    let mut sum = 0u64;
    for seen in seen {
        if let Node::File { size, .. } = &seen.node {
            sum = sum.saturating_add(*size);
        }
    }
    sum
}
