// All that is below a folder, in byte order, and what is directly in one.
ghost use Rattle.std.specs.Prelude.{◌≡◌, ◌≢◌, [], ◌∷◌, ◌++◌, ℕ, IfOk, string_bytes};
ghost use Rattle.std.specs.Fs.{metadata_len, file_type, IsFile, IsDir, IsSymlink};

use crate::place::{Place, is_folder, no_memory, unless_absent};
use base_devices::{FolderEntry, Node};
use std::alloc::Global;
use std::fs::{DirEntry, Metadata};
use std::io::ErrorKind;
use std::os::unix::fs::MetadataExt;
use std::{fs, io};

/// How a data folder is listed.
#[derive(Clone, Copy)]
pub struct Listing {
    /// Below the folders whose content no backup takes, what can't be listed is passed over: a folder that can't be
    /// read, and a name that isn't UTF-8.
    pub pass_over: bool,
    /// The folder of the log is such a folder too, and an empty one where a link to it is in its place: so for the
    /// backup of a running server, whose log isn't taken from there.
    pub log_is_folder: bool,
}

impl Listing {
    /// Nothing is passed over.
    pub fn whole() -> Self {
        Listing {
            pass_over: false,
            log_is_folder: false,
        }
    }
}

#[derive(Clone, Copy)]
enum Within {
    Data(Listing),
    Repository,
}

const LOG: &str = "pg_wal";

// The folders that are empty in each backup.
const EMPTIED: &[&str] = &[
    "pg_dynshmem",
    "pg_notify",
    "pg_replslot",
    "pg_serial",
    "pg_snapshots",
    "pg_stat_tmp",
    "pg_subtrans",
];

impl Within {
    // Whether what can't be listed of a folder is passed over.
    fn passes(self, folder: &str) -> bool {
        let Within::Data(how) = self else {
            return false;
        };
        let top = folder.split('/').next().unwrap_or(folder);
        how.pass_over
            && (EMPTIED.iter().any(|name| *name == top) || (how.log_is_folder && top == LOG))
    }

    // Whether a name of a folder is passed over that isn't UTF-8. None of a repository is.
    fn passes_names(self, folder: &str) -> bool {
        matches!(self, Within::Repository) || self.passes(folder)
    }

    fn has_log_as_folder(self) -> bool {
        match self {
            Within::Data(how) => how.log_is_folder,
            Within::Repository => false,
        }
    }
}

/// Every node of a data folder at any depth, by its path from the root; no link is followed below the folder. What
/// disappears in the meantime is left out. A name that isn't UTF-8 is an error, where it isn't passed over.
pub fn nodes_below(
    alloc: Global,
    place: &Place,
    folder: &str,
    how: Listing,
) -> io::Result<Vec<FolderEntry>> {
    nodes_within(alloc, place, folder, Within::Data(how))
}

/// The same for a repository, where a name that isn't UTF-8 is passed over. A node that is neither file nor folder is
/// an error: what is there isn't known to be absent.
pub fn plain_nodes_below(
    alloc: Global,
    place: &Place,
    folder: &str,
) -> io::Result<Vec<FolderEntry>> {
    let seen = nodes_within(alloc, place, folder, Within::Repository)?;
    for seen in &seen {
        if matches!(seen.node, Node::Link | Node::Other) && !is_latest(&seen.path, &seen.node) {
            return Err(not_plain(alloc, &seen.path));
        }
    }
    Ok(seen)
}

fn nodes_within(
    alloc: Global,
    place: &Place,
    folder: &str,
    within: Within,
) -> io::Result<Vec<FolderEntry>> {
    let mut seen = Vec::new(alloc);
    add_nodes(alloc, place, folder, within, &mut seen)?;
    if within.has_log_as_folder() {
        take_log_as_folder(place, &mut seen)?;
    }
    for at in 0..usize::MAX {
        let Some(next) = seen.get(at) else {
            break;
        };
        if next.node == Node::Folder {
            let folder = next.path.clone()?;
            add_below(alloc, place, &folder, within, &mut seen)?;
        }
    }
    seen.sort_by(|a, b| a.path.cmp(&b.path))?;
    Ok(seen)
}

// A link to a folder in place of the log is one.
fn take_log_as_folder(place: &Place, seen: &mut Vec<FolderEntry>) -> io::Result<()> {
    let Some(log) = seen.iter_mut().find(|seen| seen.path.as_str() == LOG) else {
        return Ok(());
    };
    if log.node == Node::Link && is_folder(&place.rt, &place.path_of(LOG)?) {
        log.node = Node::Folder;
    }
    Ok(())
}

// Adds what is in a folder that was found. That after a link in place of the log is left out.
fn add_below(
    alloc: Global,
    place: &Place,
    folder: &str,
    within: Within,
    seen: &mut Vec<FolderEntry>,
) -> io::Result<()> {
    if folder == LOG && within.has_log_as_folder() {
        if place.look_at(LOG)?.is_some_and(|log| log.is_symlink()) {
            return Ok(());
        }
    }
    match add_nodes(alloc, place, folder, within, seen) {
        Err(e) if e.kind() != ErrorKind::OutOfMemory && within.passes(folder) => Ok(()),
        done => done,
    }
}

/// The nodes right within a folder below the root, in byte order of their paths; none where it isn't there. On the way to
/// it no link is followed, except one in place of the log. Nothing is passed over.
pub fn nodes_of_folder(alloc: Global, place: &Place, folder: &str) -> io::Result<Vec<FolderEntry>> {
    let mut seen = Vec::new(alloc);
    if leads_to_folder(place, folder)? {
        let within = Within::Data(Listing::whole());
        add_nodes(alloc, place, folder, within, &mut seen)?;
        seen.sort_by(|a, b| a.path.cmp(&b.path))?;
    }
    Ok(seen)
}

// Whether each element of a path is a folder. The root itself is no folder below it.
fn leads_to_folder(place: &Place, path: &str) -> io::Result<bool> {
    for end in 1..path.len() {
        if let Some((above, rest)) = path.split_at_checked(end) {
            if rest.starts_with('/') && !is_folder_at(place, above)? {
                return Ok(false);
            }
        }
    }
    Ok(!path.is_empty() && is_folder_at(place, path)?)
}

fn is_folder_at(place: &Place, path: &str) -> io::Result<bool> {
    let Some(known) = place.look_at(path)? else {
        return Ok(false);
    };
    if known.is_symlink() && path == LOG {
        return Ok(is_folder(&place.rt, &place.path_of(LOG)?));
    }
    Ok(known.is_dir())
}

// The original leaves a link of this name besides its backups.
fn is_latest(path: &str, node: &Node) -> bool {
    let mut elements = path.split('/');
    matches!(node, Node::Link)
        && elements.next() == Some("backup")
        && elements.next().is_some()
        && elements.next() == Some("latest")
        && elements.next().is_none()
}

fn not_plain(alloc: Global, path: &str) -> io::Error {
    match format!(in alloc; "neither a file nor a folder: '{path}'") {
        Ok(text) => io::Error::new(ErrorKind::InvalidInput, &text),
        Err(e) => io::Error::from(e),
    }
}

/// The own names of the folders that are directly in a folder of a repository. What disappears in the meantime is left
/// out, and a name that isn't UTF-8. A node that is neither file nor folder is an error.
pub fn folders_in(alloc: Global, place: &Place, folder: &str) -> io::Result<Vec<String>> {
    let mut nodes = Vec::new(alloc);
    add_nodes(alloc, place, folder, Within::Repository, &mut nodes)?;
    let mut found = Vec::new(alloc);
    for seen in nodes {
        if seen.node == Node::Folder {
            let name = own_name(&seen.path);
            found
                .push(String::from_str(alloc, name)?)
                .map_err(no_memory)?;
        } else if matches!(seen.node, Node::Link | Node::Other)
            && !is_latest(&seen.path, &seen.node)
        {
            return Err(not_plain(alloc, &seen.path));
        }
    }
    Ok(found)
}

fn own_name(path: &str) -> &str {
    match path.rsplit_once('/') {
        Some((_, name)) => name,
        None => path,
    }
}

// Adds the nodes that are in a folder.
fn add_nodes(
    alloc: Global,
    place: &Place,
    folder: &str,
    within: Within,
    seen: &mut Vec<FolderEntry>,
) -> io::Result<()> {
    let path = place.path_of(folder)?;
    let Some(entries) = unless_absent(fs::read_dir(&place.rt, path.as_str()))? else {
        return Ok(());
    };
    for entry in entries {
        match entry {
            Ok(entry) => add_entry(alloc, folder, &entry, seen)?,
            Err(e) if e.kind() == ErrorKind::InvalidFilename && within.passes_names(folder) => {}
            Err(e) => return Err(e),
        }
    }
    Ok(())
}

fn add_entry(
    alloc: Global,
    folder: &str,
    entry: &DirEntry,
    seen: &mut Vec<FolderEntry>,
) -> io::Result<()> {
    if let Some(found) = unless_absent(entry.metadata())? {
        let path = joined(alloc, folder, entry.file_name())?;
        let node = node_of(&found);
        seen.push(FolderEntry { path, node }).map_err(no_memory)?;
    }
    Ok(())
}

fn joined(alloc: Global, folder: &str, name: &str) -> io::Result<String>
    ensures root { folder.now ≡ [] → IfOk result (λ path. string_bytes path ≡ name.now) }
    ensures below { folder.now ≢ [] → IfOk result (λ path. string_bytes path ≡ folder.now ++ 47 ∷ name.now) }
{
    if folder.is_empty() {
        Ok(String::from_str(alloc, name)?)
    } else {
        Ok(format!(in alloc; "{folder}/{name}")?)
    }
}

fn node_of(known: &Metadata) -> Node
    ensures file { IsFile (file_type known.now) → (time : ℕ) × (result ≡ Node.File (metadata_len known.now) time) }
    ensures folder { IsDir (file_type known.now) → result ≡ Node.Folder }
    ensures link { IsSymlink (file_type known.now) → result ≡ Node.Link }
{
    if known.is_file() {
        let time = u64::try_from(known.mtime()).unwrap_or(0);
        Node::File {
            size: known.len(),
            time,
        }
    } else if known.is_dir() {
        Node::Folder
    } else if known.is_symlink() {
        Node::Link
    } else {
        Node::Other
    }
}
