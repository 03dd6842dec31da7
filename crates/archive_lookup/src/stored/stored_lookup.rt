// Under which paths a file is stored already.
ghost use Rattle.std.specs.Prelude.{◌≡◌, false, IfOk, IfErr, IsErrOf, OnOk, option_map};
ghost use Rattle.base_devices.specs.States.{OnlyReads, MakesDurable};
ghost use Rattle.base_devices.specs.Cause.{Rises};
ghost use Rattle.archive_lookup.specs.Listing.{Picks, ShowsSum, PassesSum, sum_after};
ghost use Rattle.archive_lookup.specs.OnlyReads.{LooksLike, IsDeviceFault, LiesBeside, LookFails, LookShows, LookShowsSegment};

use crate::stored::fault::ArchiveFault;
use crate::stored::names::FileNames;
use base_devices::{Disk, Found};
use base_disk::read_whole;
use base_text::{NoMemory, Sum};
use std::alloc::Global;

/// A history or backup history file has at most 1 MiB.
pub const HISTORY_LIMIT: u64 = 1 << 20;

/// A path at which a file is stored, its sum, and its length in bytes.
#[derive(Drop)]
pub struct StoredFile {
    pub path: String,
    pub sum: Sum,
    pub size: u64,
}

/// Whether a file is stored: under no path, under one, or under several, of which these are the first two.
#[derive(Drop)]
pub enum Look {
    Free,
    One(StoredFile),
    Two(String, String),
}

// The sum in a path; none where the path isn't that of the segment.
fn read_stored(path: &[u8], prefix: &[u8]) -> Option<Sum>
    ensures { option_map (λ s. s.0) result ≡ sum_after prefix.now path.now }
{
    Sum::read(path.strip_prefix(prefix)?)
}

/// Those of the names that are paths of the segment.
pub(crate) fn kept_among(
    alloc: Global,
    found: &[Found],
    prefix: &str,
) -> Result<Vec<StoredFile>, NoMemory>
    ensures { IfOk result (λ kept. Picks (ShowsSum prefix.now) (PassesSum prefix.now) found.now kept.items) }
{
    let mut kept = Vec::new(alloc);
    for Found { name, size } in found {
        if let Some(sum) = read_stored(name.as_bytes(), prefix.as_bytes()) {
            let path = String::from_str(alloc, name.as_str())?;
            kept.push(StoredFile {
                path,
                sum,
                size: *size,
            })?;
        }
    }
    Ok(kept)
}

/// What the paths that were kept, which are in byte order, say about the segment.
pub(crate) fn look_among(alloc: Global, kept: &[StoredFile]) -> Result<Look, NoMemory>
    ensures { IfOk result (LooksLike kept.now) }
{
    match kept {
        [] => Ok(Look::Free),
        [one] => Ok(Look::One(StoredFile {
            path: String::from_str(alloc, one.path.as_str())?,
            sum: one.sum,
            size: one.size,
        })),
        [first, second, ..] => Ok(Look::Two(
            String::from_str(alloc, first.path.as_str())?,
            String::from_str(alloc, second.path.as_str())?,
        )),
    }
}

/// Looks for a segment in its folder.
pub fn look_in_folder<D: Disk>(
    alloc: Global,
    d: &mut D,
    names: &FileNames,
) -> Result<Look, ArchiveFault>
    ensures shows { IfOk result (λ look. LookShowsSegment names.now (D.state d.old) look) }
    ensures looks { OnlyReads (D.state d.old) (D.state d.new) }
    ensures cause { IsErrOf result ArchiveFault.Disk → Rises (D.state d.old).faults (D.state d.new).faults }
    ensures stops { IfErr result IsDeviceFault }
{
    let found = d.names(alloc, names.folder.as_str())?;
    let kept = kept_among(alloc, &found, names.prefix.as_str())?;
    Ok(look_among(alloc, &kept)?)
}

// Looks at the one path of a file whose path has no sum, and reads it.
fn look_at<D: Disk>(alloc: Global, d: &mut D, names: &FileNames) -> Result<Look, ArchiveFault>
    requires { names.now.has_sum ≡ false }
    ensures shows { IfOk result (λ look. LookShows names.now (D.state d.old) look) }
    ensures cause { IfErr result (LookFails names.now (D.state d.old) (D.state d.new)) }
    ensures looks { OnlyReads (D.state d.old) (D.state d.new) }
{
    match read_whole(alloc, d, names.prefix.as_str(), HISTORY_LIMIT)? {
        None => Ok(Look::Free),
        Some(bytes) => Ok(Look::One(StoredFile {
            path: String::from_str(alloc, names.prefix.as_str())?,
            sum: Sum::of(&bytes),
            size: bytes.len() as u64,
        })),
    }
}

/// Looks for a file.
pub fn look_for<D: Disk>(alloc: Global, d: &mut D, names: &FileNames) -> Result<Look, ArchiveFault>
    ensures shows { IfOk result (λ look. LookShows names.now (D.state d.old) look) }
    ensures cause { IfErr result (LookFails names.now (D.state d.old) (D.state d.new)) }
    ensures looks { OnlyReads (D.state d.old) (D.state d.new) }
{
    if names.has_sum {
        look_in_folder(alloc, d, names)
    } else {
        look_at(alloc, d, names)
    }
}

/// Syncs the names of the file's folder and looks for the file there, so that a crash can't leave another answer.
pub fn look_synced<D: Disk>(
    alloc: Global,
    d: &mut D,
    names: &FileNames,
) -> Result<Look, ArchiveFault>
    ensures settled { OnOk result (MakesDurable (LiesBeside names.now) (D.state d.old) (D.state d.new)) }
    ensures shows { IfOk result (λ look. LookShows names.now (D.state d.old) look) }
    ensures cause { IfErr result (LookFails names.now (D.state d.old) (D.state d.new)) }
    ensures looks { OnlyReads (D.state d.old) (D.state d.new) }
{
    d.sync_directory(names.folder.as_str())?;
    look_for(alloc, d, names)
}
