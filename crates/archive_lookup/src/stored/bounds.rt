// Finds the stored whole segments that bound all others by two folders of the log.
ghost use Rattle.std.specs.Prelude.{◌≡◌, ◌↔◌, IfOk, IfErr, IfSome, IfNone, IsTrue, string_bytes};
ghost use Rattle.std.specs.List.Sorted.{IsSorted};
ghost use Rattle.std.specs.String.{string_cmp};
ghost use Rattle.base_devices.specs.States.{OnlyReads, ListsFolders};
ghost use Rattle.base_devices.specs.Cause.{Rises};
ghost use Rattle.base_model.specs.declared.wal.Segment.{Segment};
ghost use Rattle.base_model.specs.Text.{◌⫽◌};
ghost use Rattle.archive_lookup.specs.Ends.{IsPathOf, id_place, FindsEnds, FindsOfFirst, FindsWholeIn, IsLogFolder, PicksWhole};
ghost use Rattle.archive_lookup.specs.Causes.{EndsCause};

use crate::stored::fault::ArchiveFault;
use crate::stored::paths::read_path;
use base_devices::{Disk, Found};
use base_model::{ArchiveId, ArchiveName, Segment};
use base_text::NoMemory;
use std::alloc::Global;

// Whether a folder may be one of the log: 16 digits.
fn is_log_folder(name: &[u8]) -> bool
    ensures { IsTrue result ↔ IsLogFolder name.now }
{
    name.len() == 16
        && name
            .iter()
            .all(|byte| matches!(*byte, b'0'..=b'9' | b'A'..=b'F'))
}

// The whole segment under this id of which this is the path, after the stanza's folder with its slash.
fn read_whole_segment(path: &[u8], prefix: &[u8], id: ArchiveId) -> Option<Segment>
    ensures value { IfSome result (IsPathOf prefix.now id path.now) }
    ensures none { IfNone result ((s : Segment) → ¬ IsPathOf prefix.now id path.now s) }
{
    let known = read_path(path, prefix)?;
    if known.id != id {
        return None;
    }
    match known.name {
        ArchiveName::Segment(segment) => Some(segment),
        ArchiveName::Partial(_) | ArchiveName::History(_) | ArchiveName::Backup(..) => None,
    }
}

// The whole segments of which these are the paths.
fn whole_among(
    alloc: Global,
    found: &[Found],
    prefix: &str,
    id: ArchiveId,
) -> Result<Vec<Segment>, NoMemory>
    ensures { IfOk result (λ segments. PicksWhole prefix.now id found.now segments.items) }
{
    let mut segments = Vec::new(alloc);
    for Found { name, .. } in found {
        if let Some(segment) = read_whole_segment(name.as_bytes(), prefix.as_bytes(), id) {
            segments.push(segment)?;
        }
    }
    Ok(segments)
}

fn id_place(alloc: Global, stanza: &str, id: ArchiveId) -> Result<String, NoMemory>
    ensures { IfOk result (λ place. string_bytes place ≡ id_place stanza.now id) }
{
    let ArchiveId { version, number } = id;
    Ok(format!(in alloc; "archive/{stanza}/{version}-{number}")?)
}

fn log_place(alloc: Global, stanza: &str, id: ArchiveId, folder: &str) -> Result<String, NoMemory>
    ensures { IfOk result (λ place. string_bytes place ≡ id_place stanza.now id ⫽ folder.now) }
{
    let place = id_place(alloc, stanza, id)?;
    Ok(format!(in alloc; "{place}/{folder}")?)
}

// The stored whole segments in a folder of the log.
fn whole_in<D: Disk>(
    alloc: Global,
    d: &mut D,
    stanza: &str,
    id: ArchiveId,
    folder: &str,
) -> Result<Vec<Segment>, ArchiveFault>
    ensures whole { IfOk result (λ found. FindsWholeIn stanza.now id folder.now (D.state d.old) found.items) }
    ensures cause { IfErr result (EndsCause (Rises (D.state d.old).faults (D.state d.new).faults)) }
    ensures looks { OnlyReads (D.state d.old) (D.state d.new) }
{
    if !is_log_folder(folder.as_bytes()) {
        return Ok(Vec::new(alloc));
    }
    let place = log_place(alloc, stanza, id, folder)?;
    let found = d.names(alloc, place.as_str())?;
    let prefix = format!(in alloc; "archive/{stanza}/")?;
    Ok(whole_among(alloc, &found, prefix.as_str(), id)?)
}

// The stored whole segments in the first of these folders that has any.
fn of_first<D: Disk>(
    alloc: Global,
    d: &mut D,
    stanza: &str,
    id: ArchiveId,
    folders: &[String],
) -> Result<Vec<Segment>, ArchiveFault>
    ensures first { IfOk result (λ found. FindsOfFirst stanza.now id folders.now (D.state d.old) found.items) }
    ensures cause { IfErr result (EndsCause (Rises (D.state d.old).faults (D.state d.new).faults)) }
    ensures looks { OnlyReads (D.state d.old) (D.state d.new) }
{
    for folder in folders {
        let segments = whole_in(alloc, d, stanza, id, folder.as_str())?;
        if !segments.is_empty() {
            return Ok(segments);
        }
    }
    Ok(Vec::new(alloc))
}

// The names of the folders that are in the folder of the id, in byte order.
fn sorted_folders<D: Disk>(
    alloc: Global,
    d: &mut D,
    stanza: &str,
    id: ArchiveId,
) -> Result<Vec<String>, ArchiveFault>
    ensures folders { IfOk result
        (λ sorted. ListsFolders (id_place stanza.now id) (D.state d.old) sorted.items) }
    ensures sorted { IfOk result (λ sorted. IsSorted string_cmp sorted.items) }
    ensures cause { IfErr result (EndsCause (Rises (D.state d.old).faults (D.state d.new).faults)) }
    ensures looks { OnlyReads (D.state d.old) (D.state d.new) }
{
    let place = id_place(alloc, stanza, id)?;
    let mut folders = d.folders(alloc, place.as_str())?;
    folders.sort()?;
    Ok(folders)
}

/// Stored whole segments under this id that bound all of them: of each that is stored one is at or before it in byte
/// order of the names, and one at or after it. There are none only where none is stored. One may be reported twice.
/// Besides the folders of the log that hold no whole segment only the first and the last are listed.
pub fn ends<D: Disk>(
    alloc: Global,
    d: &mut D,
    stanza: &str,
    id: &ArchiveId,
) -> Result<Vec<Segment>, ArchiveFault>
    ensures ends { IfOk result (λ found. FindsEnds stanza.now id.now (D.state d.old) found.items) }
    ensures cause { IfErr result (EndsCause (Rises (D.state d.old).faults (D.state d.new).faults)) }
    ensures looks { OnlyReads (D.state d.old) (D.state d.new) }
{
    let id = *id;
    let mut folders = sorted_folders(alloc, d, stanza, id)?;
    let mut ends = of_first(alloc, d, stanza, id, &folders)?;
    folders.reverse();
    let last = of_first(alloc, d, stanza, id, &folders)?;
    ends.extend_from_slice(&last)?;
    Ok(ends)
}
