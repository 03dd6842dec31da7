// The files that stay open between calls: those that are being written, and the last one that was read.
ghost use Rattle.std.specs.Prelude.{◌≡◌, [], ◌↔◌, ◌<◌, ◌≤◌, None, IfOk, IfSome, IsSomeAnd, IsTrue, length, string_bytes};

use crate::place::{Place, is_same, no_memory};
use std::alloc::Global;
use std::fs::File;
use std::io;
use std::io::{ErrorKind, Write};
use std::os::fd::AsRawFd;
use std::os::unix::fs::FileExt;
use std::time::SystemTime;

// A command has a file open for each of its workers.
const MOST: usize = 64;

// This many bytes at once the system is asked to begin with.
const PART: u64 = 2 << 20;

// The error where a file was closed whose bytes may not have reached the disk.
const LOST: &str = "bytes that were written to a file were lost";

// The error where another process writes to the same name.
const EXCHANGED: &str = "another process has put a file in its place";

/// When the bytes of a file reach the disk.
#[derive(Clone, Copy, PartialEq)]
pub enum Writes {
    /// When the system chooses.
    Sometime,
    /// The system begins writing part by part, so that a sync waits for the last one alone.
    Early,
    /// It begins so, and the file is synced before it is closed: a failure of that writing is reported for the file
    /// that wrote.
    BeforeClose,
}

#[derive(Drop)]
struct Kept {
    name: String,
    file: File,
    // None where the system chooses when it writes its bytes
    waiting: Option<Waiting>,
    // whether it is synced before it is closed
    is_owed: bool,
}

impl Kept {
    // Makes its bytes durable where that hasn't been done yet.
    fn finish(&mut self) -> io::Result<()> {
        if self.is_owed {
            self.file.sync_all()?;
            self.is_owed = false;
        }
        Ok(())
    }
}

// The bytes of a file that the system wasn't asked to write: where they begin, and how many they are.
#[derive(Drop)]
struct Waiting {
    from: u64,
    count: u64,
}

impl Waiting {
    // Counts bytes that were added, and asks the system to begin with a part once there is one. It is advice alone: a
    // fault of that writing is reported by the sync.
    fn add(&mut self, file: &File, count: usize) {
        self.count = self.count.saturating_add(count as u64);
        if self.count < PART {
            return;
        }
        let part = (i64::try_from(self.from), i64::try_from(self.count));
        if let (Ok(from), Ok(count)) = part {
            let dontneed = libc::POSIX_FADV_DONTNEED;
            let _ = libc::posix_fadvise(file.as_raw_fd(), from, count, dontneed);
        }
        self.from = self.from.saturating_add(self.count);
        self.count = 0;
    }
}

/// No byte waits in it: what was appended went to the system.
#[derive(Drop)]
pub struct Handles {
    // the one that was opened last at the end
    writing: Vec<Kept>,
    reading: Option<Kept>,
    // whether files are synced before they are closed
    is_owing: bool,
    // whether one was closed whose bytes may not have reached the disk
    has_lost: bool,
}

impl Handles {
    pub fn new(alloc: Global) -> Self {
        Handles {
            writing: Vec::new(alloc),
            reading: None,
            is_owing: false,
            has_lost: false,
        }
    }

    /// Closes all, since each name may come to mean another file.
    pub fn forget(&mut self)
        ensures writing { self.new.writing.items ≡ [] }
        ensures reading { self.new.reading ≡ None }
    {
        // what was lost is reported by the next sync
        let _ = self.close_written();
        self.reading = None;
        self.is_owing = false;
    }

    /// Whether files are synced before they are closed.
    pub fn is_owing(&self) -> bool {
        self.is_owing
    }

    /// Fails once a file was closed whose bytes may not have reached the disk.
    pub fn demand_none_lost(&self) -> io::Result<()> {
        if self.has_lost {
            return Err(io::Error::new(ErrorKind::Other, LOST));
        }
        Ok(())
    }

    /// Makes the bytes durable of each open file that needs it.
    pub fn finish_all(&mut self) -> io::Result<()> {
        for kept in &mut self.writing {
            if let Err(e) = kept.finish() {
                self.has_lost = true;
                return Err(e);
            }
        }
        Ok(())
    }

    /// Closes all files that are written.
    pub fn close_written(&mut self) -> io::Result<()>
        ensures { self.new.writing.items ≡ [] }
    {
        let done = self.finish_all();
        self.writing.clear();
        done
    }

    /// Closes the file of a name that continues to be used: its bytes are durable where that is required.
    pub fn close(&mut self, name: &str) -> io::Result<()> {
        let mut done = Ok(());
        for kept in &mut self.writing {
            if kept.name.as_str() == name {
                done = kept.finish();
            }
        }
        self.has_lost = self.has_lost || done.is_err();
        self.forget_name(name);
        done
    }

    /// Fails where another file is at the name of one that is written: a process wrote it whose locks aren't seen
    /// here, as one of another host may. A network's server is asked anew as a file is opened.
    pub fn demand_in_place(&self, place: &Place, name: &str) -> io::Result<()> {
        let mut writing = self.writing.iter();
        let Some(kept) = writing.find(|kept| kept.name.as_str() == name) else {
            return Ok(());
        };
        let own = kept.file.metadata()?;
        let is_in_place = match place.open_start(name)? {
            Some(file) => is_same(&own, &file.metadata()?),
            None => false,
        };
        if is_in_place {
            return Ok(());
        }
        Err(io::Error::new(ErrorKind::Other, EXCHANGED))
    }

    /// Closes the files of a name, since it comes to mean another file.
    pub fn forget_name(&mut self, name: &str) {
        self.writing.retain(|kept| kept.name.as_str() != name);
        if is_of(&self.reading, name) {
            self.reading = None;
        }
    }

    /// Makes the name an empty file.
    pub fn begin(&mut self, place: &Place, name: &str, writes: Writes) -> io::Result<()> {
        let file = place.create(name)?;
        self.write_in(place, name, file, writes)
    }

    /// Makes the name an empty file where nothing is at it, and returns whether it did.
    pub fn begin_new(&mut self, place: &Place, name: &str, writes: Writes) -> io::Result<bool> {
        let Some(file) = place.create_new(name)? else {
            return Ok(false);
        };
        self.write_in(place, name, file, writes)?;
        Ok(true)
    }

    // Keeps the file of a name to write in it, in place of the one that was opened first where there are too many.
    fn write_in(
        &mut self,
        place: &Place,
        name: &str,
        file: File,
        writes: Writes,
    ) -> io::Result<()> {
        let mut kept = keep(place, name, file)?;
        if writes != Writes::Sometime {
            kept.waiting = Some(Waiting { from: 0, count: 0 });
        }
        if writes == Writes::BeforeClose {
            kept.is_owed = true;
            self.is_owing = true;
        }
        self.writing.retain(|kept| kept.name.as_str() != name);
        if self.writing.len() >= MOST {
            self.close_first()?;
        }
        self.writing.push(kept).map_err(no_memory)
    }

    // Closes the file that was opened first.
    fn close_first(&mut self) -> io::Result<()> {
        let done = match self.writing.first_mut() {
            Some(first) => first.finish(),
            None => return Ok(()),
        };
        self.writing.remove(0);
        self.has_lost = self.has_lost || done.is_err();
        done
    }

    /// Adds bytes at the end of a file that is there.
    pub fn append(&mut self, place: &Place, name: &str, bytes: &[u8]) -> io::Result<()> {
        let is_owing = self.is_owing;
        let kept = self.reach_end(place, name)?;
        kept.file.write_all(bytes)?;
        if let Some(waiting) = &mut kept.waiting {
            waiting.add(&kept.file, bytes.len());
        }
        kept.is_owed = is_owing;
        Ok(())
    }

    /// Makes the bytes durable of a file that is there.
    pub fn sync(&mut self, place: &Place, name: &str) -> io::Result<()> {
        self.demand_none_lost()?;
        let kept = self.reach_end(place, name)?;
        kept.file.sync_all()?;
        kept.is_owed = false;
        Ok(())
    }

    /// The same, by a file of its own where none is open. A file that this process may not write to is synced too.
    pub fn sync_once(&mut self, place: &Place, name: &str) -> io::Result<()> {
        if self.is_written(name) {
            return self.sync(place, name);
        }
        match place.open_start(name)? {
            Some(file) => file.sync_all(),
            None => Err(io::Error::from(ErrorKind::NotFound)),
        }
    }

    fn reach_end(&mut self, place: &Place, name: &str) -> io::Result<&mut Kept> {
        if !self.is_written(name) {
            let file = place.open_end(name)?;
            self.write_in(place, name, file, self.reopened())?;
        }
        match self
            .writing
            .iter_mut()
            .find(|kept| kept.name.as_str() == name)
        {
            Some(kept) => Ok(kept),
            None => Err(io::Error::from(ErrorKind::NotFound)),
        }
    }

    /// Gives a file this time, by the handle that writes it where it is open. The system has all bytes that were
    /// appended, so neither a sync nor the closing changes it. A file system that can't hold so late a time sets the
    /// latest one that it can.
    pub fn set_time(&self, place: &Place, name: &str, time: SystemTime) -> io::Result<()> {
        let mut writing = self.writing.iter();
        if let Some(kept) = writing.find(|kept| kept.name.as_str() == name) {
            return kept.file.set_modified(time);
        }
        match place.open_start(name)? {
            Some(file) => file.set_modified(time),
            None => Err(io::Error::from(ErrorKind::NotFound)),
        }
    }

    // How a file is written on that was closed meanwhile.
    fn reopened(&self) -> Writes {
        if self.is_owing {
            Writes::BeforeClose
        } else {
            Writes::Sometime
        }
    }

    fn is_written(&self, name: &str) -> bool {
        self.writing.iter().any(|kept| kept.name.as_str() == name)
    }

    /// Whether a read at this place continues in the file that is open. At its start a name is opened anew, so that
    /// all of one reading comes from the file that was there at the start.
    pub fn goes_on(&self, name: &str, at: u64) -> bool
        ensures { IsTrue result ↔ ((0 < at)
            × IsSomeAnd self.now.reading (λ kept. string_bytes kept.name ≡ name.now)) }
    {
        at > 0 && is_of(&self.reading, name)
    }

    /// Bytes of a name from a place on: None where it is absent, 0 at its end.
    pub fn read(
        &mut self,
        place: &Place,
        name: &str,
        at: u64,
        buf: &mut [u8],
    ) -> io::Result<Option<usize>>
        ensures { IfOk result (λ n. IfSome n (λ n. n ≤ length buf.old)) }
    {
        if !self.goes_on(name, at) {
            self.reading = None;
            let Some(file) = place.open_start(name)? else {
                return Ok(None);
            };
            self.reading = Some(keep(place, name, file)?);
        }
        match &self.reading {
            Some(kept) => read_some(&kept.file, at, buf).map(Some),
            None => Ok(None),
        }
    }
}

fn keep(place: &Place, name: &str, file: File) -> io::Result<Kept> {
    let name = String::from_str(place.rt.alloc(), name)?;
    Ok(Kept {
        name,
        file,
        waiting: None,
        is_owed: false,
    })
}

fn is_of(kept: &Option<Kept>, name: &str) -> bool
    ensures { IsTrue result ↔ IsSomeAnd kept.now (λ kept. string_bytes kept.name ≡ name.now) }
{
    match kept {
        Some(kept) => kept.name.as_str() == name,
        None => false,
    }
}

/// Bytes of a file from a place on. It reads again where a signal came. No file has bytes from 2^63 on, or just below.
pub fn read_some(file: &File, at: u64, buf: &mut [u8]) -> io::Result<usize>
    ensures { IfOk result (λ n. n ≤ length buf.old) }
{
    if i64::try_from(at.saturating_add(buf.len() as u64)).is_err() {
        return Ok(0);
    }
    for _ in 0..u64::MAX {
        match file.read_at(buf, at) {
            Err(e) if e.kind() == ErrorKind::Interrupted => {}
            done => return done,
        }
    }
    Err(io::Error::from(ErrorKind::Interrupted))
}
