// Whether the devices hold what they are to hold.
use crate::node::Node;
use crate::world::{Want, World};
use base_devices::{DataFolder, DeviceError, Disk, FolderEntry, Found};
use memory_devices::{MemDataFolder, MemDisk, MemNode};
use std::alloc::{AllocError, Global};

// The folders in the repository's root that are listed.
const TOPS: &[&str] = &["archive", "backup", "demo", "lock", "pg", "repo", "tmp"];

/// What is at a path.
#[derive(Clone, Copy)]
enum There<'a> {
    Nothing,
    Folder,
    Link,
    File(&'a [u8]),
}

// What a disk has at a path.
fn in_disk<'a>(disk: &'a Option<MemDisk>, name: &str) -> There<'a> {
    match disk {
        Some(disk) => match disk.bytes(name) {
            Some(bytes) => There::File(bytes),
            None => There::Nothing,
        },
        None => There::Nothing,
    }
}

// What the data folder has at a path.
fn in_pg<'a>(pg: &'a Option<MemDataFolder>, name: &str) -> There<'a> {
    let node = match pg {
        Some(pg) => pg.node(name),
        None => None,
    };
    match node {
        Some(MemNode::File { bytes, .. }) => There::File(bytes),
        Some(MemNode::Folder) => There::Folder,
        Some(MemNode::Link) => There::Link,
        None => There::Nothing,
    }
}

fn fits(want: &Want, found: There) -> bool {
    match (&want.node, found) {
        (_, There::Nothing) => want.may,
        (Node::File(bytes), There::File(found)) => bytes.as_slice() == found,
        (Node::Any, There::File(_)) => true,
        (Node::Folder, There::Folder) => true,
        (Node::Link, There::Link) => true,
        _ => false,
    }
}

impl World {
    // What is at a path below `repo/`, `spool/` or `pg/`.
    fn represents_at(&self, path: &str) -> There<'_> {
        if let Some(name) = path.strip_prefix("repo/") {
            return in_disk(&self.repo, name);
        }
        if let Some(name) = path.strip_prefix("spool/") {
            return in_disk(&self.spool, name);
        }
        match path.strip_prefix("pg/") {
            Some(name) => in_pg(&self.pg, name),
            None => There::Nothing,
        }
    }

    /// Whether something is at a path.
    pub(crate) fn has(&self, path: &str) -> bool {
        !matches!(self.represents_at(path), There::Nothing)
    }

    /// Checks what the last command left, once.
    pub(crate) fn check(&mut self) -> Result<(), AllocError> {
        if !self.open {
            return Ok(());
        }
        self.open = false;
        self.check_wanted()?;
        let names = self.names()?;
        self.check_others(&names)?;
        self.check_calls()?;
        self.wanted.retain(|_, want| !want.may);
        Ok(())
    }

    fn check_wanted(&mut self) -> Result<(), AllocError> {
        let mut wrong = String::new(self.alloc);
        for (path, want) in &self.wanted {
            if !fits(want, self.represents_at(path)) {
                wrong.push_str(path)?;
                wrong.push_str(" isn't as it is wanted")?;
                break;
            }
        }
        self.tell(&wrong)
    }

    fn check_others(&mut self, names: &[String]) -> Result<(), AllocError> {
        let mut wrong = String::new(self.alloc);
        for name in names {
            if !self.wanted.contains_key(name) {
                wrong.push_str(name)?;
                wrong.push_str(" isn't wanted")?;
                break;
            }
        }
        self.tell(&wrong)
    }

    // No call of a command that succeeds was faulty.
    fn check_calls(&mut self) -> Result<(), AllocError> {
        let well = match &self.ran {
            Some(ran) => ran.status == 0,
            None => false,
        };
        let of_repo = match &self.repo {
            Some(repo) => repo.faulty_calls(),
            None => 0,
        };
        let of_pg = match &self.pg {
            Some(pg) => pg.faulty_calls(),
            None => 0,
        };
        if well && (of_repo != 0 || of_pg != 0) {
            return self.tell("a call was faulty");
        }
        Ok(())
    }

    // Whether something is required of the spool.
    fn asks_spool(&self) -> bool {
        self.wanted.keys().any(|path| path.starts_with("spool/"))
    }

    // The paths of the repository and of the data folder, and of the spool where something is required of it.
    fn names(&mut self) -> Result<Vec<String>, AllocError> {
        let mut names = Vec::new(self.alloc);
        let asks_spool = self.asks_spool();
        if let Some(repo) = &mut self.repo {
            for top in TOPS {
                add_found(self.alloc, repo, "repo/", top, &mut names)?;
            }
        }
        if let Some(spool) = &mut self.spool {
            if asks_spool {
                add_found(self.alloc, spool, "spool/", "archive", &mut names)?;
            }
        }
        if let Some(pg) = &mut self.pg {
            add_seen(self.alloc, pg, &mut names)?;
        }
        Ok(names)
    }
}

fn add_found(
    alloc: Global,
    disk: &mut MemDisk,
    root: &str,
    top: &str,
    names: &mut Vec<String>,
) -> Result<(), AllocError> {
    for Found { name, size: _ } in found_in(alloc, disk, top)? {
        names.push(below(alloc, root, &name)?)?;
    }
    Ok(())
}

fn add_seen(
    alloc: Global,
    pg: &mut MemDataFolder,
    names: &mut Vec<String>,
) -> Result<(), AllocError> {
    for FolderEntry { path, node: _ } in seen_in(alloc, pg)? {
        names.push(below(alloc, "pg/", &path)?)?;
    }
    Ok(())
}

fn below(alloc: Global, device: &str, name: &str) -> Result<String, AllocError> {
    let mut path = String::from_str(alloc, device)?;
    path.push_str(name)?;
    Ok(path)
}

// A listing, which is tried again where it was a call that is to fail.
fn found_in(alloc: Global, disk: &mut MemDisk, top: &str) -> Result<Vec<Found>, AllocError> {
    for _ in 0..3 {
        match disk.names(alloc, top) {
            Ok(found) => return Ok(found),
            Err(DeviceError::NoMemory) => return Err(AllocError),
            Err(DeviceError::Failed) => {}
        }
    }
    Ok(Vec::new(alloc))
}

fn seen_in(alloc: Global, pg: &mut MemDataFolder) -> Result<Vec<FolderEntry>, AllocError> {
    for _ in 0..3 {
        match pg.list(alloc) {
            Ok(seen) => return Ok(seen),
            Err(DeviceError::NoMemory) => return Err(AllocError),
            Err(DeviceError::Failed) => {}
        }
    }
    Ok(Vec::new(alloc))
}
