// A folder of the system's files, and what is below it by name.
ghost use Rattle.std.specs.Prelude.{◌≡◌, Result, Ok, Err, None, Some, IfErr, IfOk, map, string_bytes};
ghost use Rattle.std.specs.IoError.{error_kind};
ghost use Rattle.base_devices.specs.States.{Opens, last_opened};
ghost use Rattle.adapters_files.specs.Reported.{places_of, IsPathBelow, IsAbsence, WhereNoAbsence};

use adapters_process::Call;
use std::fs::{DirBuilder, File, Metadata, OpenOptions};
use std::io::ErrorKind;
use std::os::unix::fs::{DirBuilderExt, MetadataExt, OpenOptionsExt};
use std::{fs, io};

pub const FILE_MODE: u32 = 0o600;

const FOLDER_MODE: u32 = 0o700;

/// A name that came to mean another file meanwhile is looked at again this often.
pub const TRIES: usize = 8;

/// The folders that were opened, the last one first; it is the root. A name's elements have `/` between them.
#[derive(Drop)]
pub struct Place {
    pub rt: HostRuntime,
    pub opened: Vec<String>,
}

impl Place {
    pub fn new(rt: HostRuntime) -> Self {
        let opened = Vec::new(rt.alloc());
        Place { rt, opened }
    }

    /// The folder that was opened last, and nothing before the first.
    pub fn root(&self) -> &str
        ensures { result.now ≡ last_opened (map string_bytes self.now.opened.items) }
    {
        match self.opened.first() {
            Some(root) => root.as_str(),
            None => "",
        }
    }

    /// What is done with a name below the root, for a person to read.
    pub fn call<'a>(&'a self, act: &'a str, name: &'a str) -> Call<'a> {
        Call {
            alloc: self.rt.alloc(),
            act,
            root: self.root(),
            name,
            to: None,
        }
    }

    /// The move of a file below the root, for a person to read.
    pub fn move_of<'a>(&'a self, from: &'a str, to: &'a str) -> Call<'a> {
        Call {
            alloc: self.rt.alloc(),
            act: "rename of",
            root: self.root(),
            name: from,
            to: Some(to),
        }
    }

    // Takes a folder as the root, and returns whether it is there.
    fn take(&mut self, path: &str) -> io::Result<bool>
        ensures { Opens result path.now (places_of self.old.opened.items) (places_of self.new.opened.items) }
    {
        let root = String::from_str(self.rt.alloc(), path)?;
        self.opened.insert(0, root).map_err(no_memory)?;
        Ok(is_folder(&self.rt, path))
    }

    /// Takes a folder as the root, and makes it where it is absent.
    pub fn open(&mut self, path: &str) -> io::Result<()>
        ensures { Opens result path.now (places_of self.old.opened.items) (places_of self.new.opened.items) }
    {
        if self.take(path)? {
            Ok(())
        } else {
            make_durable(&self.rt, path)
        }
    }

    /// Takes a folder that is there as the root.
    pub fn enter(&mut self, path: &str) -> io::Result<()>
        ensures { Opens result path.now (places_of self.old.opened.items) (places_of self.new.opened.items) }
    {
        if self.take(path)? {
            Ok(())
        } else {
            Err(io::Error::from(ErrorKind::NotFound))
        }
    }

    pub fn path_of(&self, name: &str) -> io::Result<String>
        ensures { IfOk result (IsPathBelow self.now.opened.items name.now) }
    {
        let root = self.root();
        Ok(format!(in self.rt.alloc(); "{root}/{name}")?)
    }

    /// Makes the name a new empty file; the folder that holds it is there. What was there is removed, so no link is
    /// followed, and a process that still writes to the old file doesn't write to this one.
    pub fn create(&self, name: &str) -> io::Result<File> {
        if let Some(file) = self.create_new(name)? {
            return Ok(file);
        }
        self.remove(name)?;
        match self.create_new(name)? {
            Some(file) => Ok(file),
            None => Err(io::Error::from(ErrorKind::AlreadyExists)),
        }
    }

    /// Makes the name an empty file where nothing is at it, and else returns None; the folder that holds it is
    /// there.
    pub fn create_new(&self, name: &str) -> io::Result<Option<File>> {
        let path = self.path_of(name)?;
        make_file(&self.rt, &path)
    }

    /// Opens a file that is there to write at its end.
    pub fn open_end(&self, name: &str) -> io::Result<File> {
        let mut how = OpenOptions::new();
        how.append(true);
        match self.open_file(&how, name)? {
            Some(file) => Ok(file),
            None => Err(io::Error::from(ErrorKind::NotFound)),
        }
    }

    /// Opens a file to read it: None where the name is absent.
    pub fn open_start(&self, name: &str) -> io::Result<Option<File>> {
        let mut how = OpenOptions::new();
        how.read(true);
        self.open_file(&how, name)
    }

    // None where the name is absent. Whoever replaces it meanwhile is waited for a few times.
    fn open_file(&self, how: &OpenOptions, name: &str) -> io::Result<Option<File>> {
        let path = self.path_of(name)?;
        for _ in 0..TRIES {
            match open_plain(&self.rt, how, &path)? {
                Opened::File(file) => return Ok(Some(file)),
                Opened::Absent => return Ok(None),
                Opened::Other => {}
            }
        }
        Err(io::Error::from(ErrorKind::ResourceBusy))
    }

    /// What is at the name itself, where that is a link: None where nothing is.
    pub fn look_at(&self, name: &str) -> io::Result<Option<Metadata>> {
        let path = self.path_of(name)?;
        unless_absent(fs::symlink_metadata(&self.rt, path.as_str()))
    }

    pub fn is_file(&self, name: &str) -> io::Result<bool> {
        Ok(self.look_at(name)?.is_some_and(|seen| seen.is_file()))
    }

    /// How many bytes a file has: None where the name is none.
    pub fn file_length(&self, name: &str) -> io::Result<Option<u64>> {
        match self.look_at(name)? {
            Some(seen) if seen.is_file() => Ok(Some(seen.len())),
            _ => Ok(None),
        }
    }

    fn demand_file(&self, name: &str) -> io::Result<()> {
        if self.is_file(name)? {
            Ok(())
        } else {
            Err(io::Error::from(ErrorKind::NotFound))
        }
    }

    /// Moves a file that is there.
    pub fn rename(&self, from: &str, to: &str) -> io::Result<()> {
        self.demand_file(from)?;
        let source = self.path_of(from)?;
        let target = self.path_of(to)?;
        fs::rename(&self.rt, source.as_str(), target.as_str())
    }

    /// Removes a file or a link, where it is there.
    pub fn remove(&self, name: &str) -> io::Result<()> {
        let path = self.path_of(name)?;
        unless_absent(fs::remove_file(&self.rt, path.as_str()))?;
        Ok(())
    }

    /// Removes an empty folder.
    pub fn remove_folder(&self, name: &str) -> io::Result<()> {
        let path = self.path_of(name)?;
        fs::remove_dir(&self.rt, path.as_str())
    }

    /// Makes a folder, unless it is there; the folder that holds it is.
    pub fn make_folder(&self, name: &str) -> io::Result<()> {
        if self.look_at(name)?.is_some_and(|seen| seen.is_dir()) {
            return Ok(());
        }
        let path = self.path_of(name)?;
        DirBuilder::new()
            .mode(FOLDER_MODE)
            .create(&self.rt, path.as_str())
    }

    /// Makes the folder that holds a name, and those that hold that.
    pub fn make_folders_for(&self, name: &str) -> io::Result<()> {
        let path = self.path_of(name)?;
        make_folders(&self.rt, folder_of(&path))
    }
}

/// What is done with a whole path, for a person to read.
pub fn call_of<'a>(rt: &HostRuntime, act: &'a str, path: &'a str) -> Call<'a> {
    Call {
        alloc: rt.alloc(),
        act,
        root: "",
        name: path,
        to: None,
    }
}

/// Makes a folder and those that hold it, where they are absent.
pub fn make_folders(rt: &HostRuntime, path: &str) -> io::Result<()> {
    let mut how = DirBuilder::new();
    how.mode(FOLDER_MODE).recursive(true).create(rt, path)
}

/// Makes the names in a folder durable, and returns the folder: None where it is absent. Some file systems can't; that
/// is a fault, whose text names the folder.
pub fn sync_folder(rt: &HostRuntime, path: &str) -> io::Result<Option<File>> {
    let Some(folder) = unless_absent(File::open(rt, path))? else {
        return Ok(None);
    };
    match folder.sync_all() {
        Ok(()) => Ok(Some(folder)),
        Err(e) => {
            let text = format!(in rt.alloc(); "{e}, of folder '{path}'")?;
            Err(io::Error::new(e.kind(), &text))
        }
    }
}

/// Makes an empty file where nothing is at the path, and else returns None.
pub fn make_file(rt: &HostRuntime, path: &str) -> io::Result<Option<File>> {
    let mut how = OpenOptions::new();
    how.write(true).create_new(true).mode(FILE_MODE);
    match how.open(rt, path) {
        Ok(file) => Ok(Some(file)),
        Err(e) if e.kind() == ErrorKind::AlreadyExists => Ok(None),
        Err(e) => Err(e),
    }
}

/// The result of opening a file.
#[derive(Drop)]
pub enum Opened {
    File(File),
    Absent,
    /// Another file came to be at the path meanwhile.
    Other,
}

/// Opens the file of a path. What is no file isn't opened: a pipe would wait for its other end, and a link may lead
/// anywhere. The system can't be asked for that at the opening itself, so it is looked at before and after it.
pub fn open_plain(rt: &HostRuntime, how: &OpenOptions, path: &str) -> io::Result<Opened> {
    let Some(seen) = unless_absent(fs::symlink_metadata(rt, path))? else {
        return Ok(Opened::Absent);
    };
    if !seen.is_file() {
        return Err(io::Error::new(ErrorKind::InvalidInput, "it is no plain file"));
    }
    let Some(file) = unless_absent(how.open(rt, path))? else {
        return Ok(Opened::Other);
    };
    if is_same(&seen, &file.metadata()?) {
        Ok(Opened::File(file))
    } else {
        Ok(Opened::Other)
    }
}

/// Whether both are of one node.
pub fn is_same(a: &Metadata, b: &Metadata) -> bool {
    a.dev() == b.dev() && a.ino() == b.ino()
}

/// None where a name is absent; a path through a file leads to no name.
pub fn unless_absent<T: Drop>(done: io::Result<T>) -> io::Result<Option<T>>
    ensures there { IfOk done (λ v. result ≡ Ok (Some v)) }
    ensures absent { IfErr done (λ e. IsAbsence (error_kind e) → result ≡ Ok None) }
    ensures error { IfErr done (λ e. WhereNoAbsence (error_kind e) (result ≡ Err e)) }
{
    match done {
        Ok(value) => Ok(Some(value)),
        Err(e) if e.kind() == ErrorKind::NotFound => Ok(None),
        Err(e) if e.kind() == ErrorKind::NotADirectory => Ok(None),
        Err(e) => Err(e),
    }
}

pub fn no_memory<T: Drop>(_: T) -> io::Error
    ensures { error_kind result ≡ ErrorKind.OutOfMemory }
{
    io::Error::from(ErrorKind::OutOfMemory)
}

/// Whether a path leads to a folder.
pub fn is_folder(rt: &HostRuntime, path: &str) -> bool {
    match fs::metadata(rt, path) {
        Ok(seen) => seen.is_dir(),
        Err(_) => false,
    }
}

/// The folder that holds a path's last element.
pub fn folder_of(path: &str) -> &str {
    match path.rsplit_once('/') {
        Some(("", _)) => "/",
        Some((folder, _)) => folder,
        None => ".",
    }
}

// Makes a folder and those that hold it, each with a durable name: no later call comes back to these.
fn make_durable(rt: &HostRuntime, path: &str) -> io::Result<()> {
    for end in 1..path.len() {
        if let Some((above, rest)) = path.split_at_checked(end) {
            if rest.starts_with('/') {
                make_one_durable(rt, above)?;
            }
        }
    }
    make_one_durable(rt, path)
}

fn make_one_durable(rt: &HostRuntime, path: &str) -> io::Result<()> {
    match DirBuilder::new().mode(FOLDER_MODE).create(rt, path) {
        Ok(()) => {
            sync_folder(rt, folder_of(path))?;
            Ok(())
        }
        Err(_) if is_folder(rt, path) => Ok(()),
        Err(e) => Err(e),
    }
}
