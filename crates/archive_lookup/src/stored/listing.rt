// Lists all stored files.
ghost use Rattle.std.specs.Prelude.{◌≤◌, IfOk, IfErr, IfSome, length};
ghost use Rattle.base_devices.specs.States.{OnlyReads};
ghost use Rattle.archive_lookup.specs.Stored.{AreStored};
ghost use Rattle.archive_lookup.specs.Listing.{Picks, ShowsFile, PassesFile};
ghost use Rattle.archive_lookup.specs.Causes.{most_files, ListingFails};

use crate::stored::fault::ArchiveFault;
use crate::stored::files::Stored;
use crate::stored::paths::read_path;
use base_devices::{Disk, Found};
use base_text::NoMemory;
use std::alloc::Global;

const MOST_FILES: u64 = 4_000_000;

// Those of the names that are paths of archive files below this folder of ids, which ends in a slash.
fn files_among(alloc: Global, found: &[Found], folder: &str) -> Result<Vec<Stored>, NoMemory>
    ensures { IfOk result (λ files. Picks (ShowsFile folder.now) (PassesFile folder.now) found.now files.items) }
{
    let mut files = Vec::new(alloc);
    for Found { name, size } in found {
        if let Some(known) = read_path(name.as_bytes(), folder.as_bytes()) {
            let path = String::from_str(alloc, name.as_str())?;
            files.push(Stored {
                id: known.id,
                name: known.name,
                sum: known.sum,
                size: *size,
                path,
            })?;
        }
    }
    Ok(files)
}

/// All stored files of the stanza, in byte order of their paths. Other names below its folder of the archive are passed
/// over.
pub fn all<D: Disk>(alloc: Global, d: &mut D, stanza: &str) -> Result<Vec<Stored>, ArchiveFault>
    ensures all { IfOk result (λ files. IfSome (D.state d.old).view.now (λ f. AreStored stanza.now f files.items)) }
    ensures within { IfOk result (λ files. length files.items ≤ most_files) }
    ensures cause { IfErr result (ListingFails stanza.now (D.state d.old) (D.state d.new)) }
    ensures looks { OnlyReads (D.state d.old) (D.state d.new) }
{
    let folder = format!(in alloc; "archive/{stanza}")?;
    let found = d.names(alloc, folder.as_str())?;
    let prefix = format!(in alloc; "{folder}/")?;
    let files = files_among(alloc, &found, prefix.as_str())?;
    if files.len() as u64 > MOST_FILES {
        return Err(ArchiveFault::TooMany { limit: MOST_FILES });
    }
    Ok(files)
}
