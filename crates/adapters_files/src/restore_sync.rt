// When what is written into a data folder reaches the disk: all of a restore where it is synced, and a single file where
// the file system reports some failures at a sync alone.
use crate::filesystem_sync::WholeSync;
use crate::handles::{Handles, Writes};
use crate::mounts::{kind_of_folder, may_hold_file_systems};
use crate::place::{Place, folder_of, sync_folder};
use crate::walk::{Listing, nodes_below};
use base_devices::{FolderEntry, Node};
use std::io;

// On these a byte that was written has its place: no failure is reported at the end alone.
const LOCAL: &[&str] = &["ext4", "xfs", "btrfs", "tmpfs"];

/// How the bytes of a data folder reach the disk.
#[derive(Drop)]
pub struct Restoring {
    // whether all of it is synced at the end
    is_on: bool,
    // of all files of a restore: None where none was written yet
    writes: Option<Writes>,
    // whether files were there before, which may stay
    keeps: bool,
    whole: WholeSync,
}

impl Restoring {
    pub fn new() -> Self {
        Restoring {
            is_on: false,
            writes: None,
            keeps: false,
            whole: WholeSync::new(),
        }
    }

    /// From now on all that is written is synced at the end.
    pub fn begin(&mut self) {
        self.is_on = true;
    }

    /// Another root is opened.
    pub fn forget(&mut self) {
        self.writes = None;
        self.keeps = false;
    }

    /// These nodes were there.
    pub fn see(&mut self, seen: &[FolderEntry]) {
        let is_file = |seen: &FolderEntry| matches!(&seen.node, Node::File { .. });
        self.keeps = self.keeps || seen.iter().any(is_file);
    }

    /// How the file of a path is written.
    pub fn writes(&mut self, place: &Place, path: &str) -> Writes {
        if self.is_on {
            self.writes_of_all(place)
        } else {
            writes_of_one(place, path)
        }
    }

    // All files of a restore are synced together where that can be believed.
    fn writes_of_all(&mut self, place: &Place) -> Writes {
        if let Some(writes) = self.writes {
            return writes;
        }
        let writes = if !may_hold_file_systems(place) && self.whole.serves(place) {
            Writes::Early
        } else {
            Writes::BeforeClose
        };
        self.writes = Some(writes);
        writes
    }

    /// Syncs all that was done.
    pub fn sync_all(&mut self, place: &Place, handles: &mut Handles) -> io::Result<()> {
        handles.demand_none_lost()?;
        if self.is_on && self.writes_of_all(place) == Writes::Early {
            return self.whole.demand(place);
        }
        handles.finish_all()?;
        let seen = nodes_below(place.rt.alloc(), place, "", Listing::whole())?;
        if self.keeps || !self.is_on {
            sync_files(place, handles, &seen)?;
        }
        sync_folders(place, &seen)
    }
}

/// Moves a file.
pub fn move_file(place: &Place, handles: &mut Handles, from: &str, to: &str) -> io::Result<()> {
    handles.close(from)?;
    handles.forget_name(to);
    place.rename(from, to)
}

/// Moves a file, and syncs both names. What failed has done nothing.
pub fn move_synced(place: &Place, handles: &mut Handles, from: &str, to: &str) -> io::Result<()> {
    move_file(place, handles, from, to)?;
    let mut done = sync_name(place, to);
    if done.is_ok() && folder_of(from) != folder_of(to) {
        done = sync_name(place, from);
    }
    if done.is_err() {
        let _ = place.rename(to, from);
    }
    done
}

/// Syncs the folder that holds a name.
pub fn sync_name(place: &Place, name: &str) -> io::Result<()> {
    let path = place.path_of(name)?;
    sync_folder(&place.rt, folder_of(&path))?;
    Ok(())
}

// Outside of a restore a single file is waited for only where it has to be.
fn writes_of_one(place: &Place, path: &str) -> Writes {
    let kind = kind_of_folder(place, path);
    if kind.is_some_and(|kind| LOCAL.contains(&kind.as_str())) {
        Writes::Sometime
    } else {
        Writes::BeforeClose
    }
}

// Those that this process wrote were synced before.
fn sync_files(place: &Place, handles: &mut Handles, seen: &[FolderEntry]) -> io::Result<()> {
    for seen in seen {
        if matches!(&seen.node, Node::File { .. }) {
            handles.sync_once(place, &seen.path)?;
        }
    }
    Ok(())
}

fn sync_folders(place: &Place, seen: &[FolderEntry]) -> io::Result<()> {
    for seen in seen {
        if seen.node == Node::Folder {
            sync_folder(&place.rt, &place.path_of(&seen.path)?)?;
        }
    }
    sync_folder(&place.rt, place.root())?;
    Ok(())
}
