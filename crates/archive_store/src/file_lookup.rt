// Stored files are read and looked for.
ghost use Rattle.std.specs.Prelude.{◌≤◌, ◌^◌, true, false, Some, IfOk, IfErr, IsErrOf, OnOk, length};
ghost use Rattle.base_devices.specs.States.{OnlyReads, MakesDurable};
ghost use Rattle.base_devices.specs.Cause.{Rises};
ghost use Rattle.base_model.specs.declared.wal.ArchiveId.{ArchiveId};
ghost use Rattle.base_model.specs.declared.wal.ArchiveName.{ArchiveName};
ghost use Rattle.archive_lookup.specs.Paths.{has_sum};
ghost use Rattle.archive_store.specs.Pushes.{IsPathOf};
ghost use Rattle.archive_store.specs.Pushing.{HasPlaces};
ghost use Rattle.archive_store.specs.Getting.{FindsFile, GetFailsOf, HasBytesOf, StoresFile, HasStored, HasArchived, HasNoneOf, MakesAlike};
ghost use Rattle.archive_lookup.specs.OnlyReads.{AreNamesOf, IsStoredAs, IsDeviceFault};
ghost use Rattle.archive_lookup.specs.Causes.{OnAnswer, limit_of, GetFails, PresentFails, ReadFails};

use archive_lookup::{
    ArchiveFault, FileNames, HISTORY_LIMIT, Look, Stored, StoredFile, file_names, has_sum,
    look_in_folder, look_synced,
};
use base_devices::Disk;
use base_disk::read_whole;
use base_model::{ArchiveId, ArchiveName};
use base_text::Sum;
use std::alloc::Global;

// A segment has at most 1 GiB.
const SEGMENT_LIMIT: u64 = 1 << 30;

// The bytes at a path, which have the sum that it states. A file that was listed and isn't there any more is reported
// as out of memory: that it isn't archived would end a recovery.
fn read_kept<D: Disk>(alloc: Global, d: &mut D, kept: &StoredFile) -> Result<Vec<u8>, ArchiveFault>
    ensures whole { IfOk result (λ bytes. HasBytesOf kept.now (D.state d.old) bytes.items) }
    ensures within { IfOk result (λ bytes. length bytes.items ≤ 2 ^ 30) }
    ensures cause { IfErr result (ReadFails kept.now (D.state d.old) (D.state d.new)) }
    ensures looks { OnlyReads (D.state d.old) (D.state d.new) }
{
    let Some(bytes) = read_whole(alloc, d, kept.path.as_str(), SEGMENT_LIMIT)? else {
        return Err(ArchiveFault::NoMemory);
    };
    let found = Sum::of(&bytes);
    if found == kept.sum {
        Ok(bytes)
    } else {
        Err(ArchiveFault::SegmentDamaged {
            known: kept.sum,
            found,
        })
    }
}

fn get_segment<D: Disk>(
    alloc: Global,
    d: &mut D,
    names: &FileNames,
) -> Result<Vec<u8>, ArchiveFault>
    ensures got { IfOk result (λ bytes. HasStored names.now true (D.state d.old) bytes.items) }
    ensures within { IfOk result (λ bytes. length bytes.items ≤ 2 ^ 30) }
    ensures cause { IfErr result (GetFailsOf names.now true (D.state d.old) (D.state d.new)) }
    ensures looks { OnlyReads (D.state d.old) (D.state d.new) }
{
    match look_in_folder(alloc, d, names)? {
        Look::Free => Err(ArchiveFault::NotFound),
        Look::One(kept) => read_kept(alloc, d, &kept),
        Look::Two(first, second) => Err(ArchiveFault::Ambiguous { first, second }),
    }
}

// A file whose path has no sum.
fn get_other<D: Disk>(alloc: Global, d: &mut D, names: &FileNames) -> Result<Vec<u8>, ArchiveFault>
    ensures got { IfOk result (λ bytes. HasStored names.now false (D.state d.old) bytes.items) }
    ensures within { IfOk result (λ bytes. length bytes.items ≤ 2 ^ 20) }
    ensures cause { IfErr result (GetFailsOf names.now false (D.state d.old) (D.state d.new)) }
    ensures looks { OnlyReads (D.state d.old) (D.state d.new) }
{
    match read_whole(alloc, d, names.prefix.as_str(), HISTORY_LIMIT)? {
        None => Err(ArchiveFault::NotFound),
        Some(bytes) => Ok(bytes),
    }
}

// The names of a file, of which those in its folder are synced.
fn names_synced<D: Disk>(
    alloc: Global,
    d: &mut D,
    stanza: &str,
    id: ArchiveId,
    name: &ArchiveName,
) -> Result<FileNames, ArchiveFault>
    ensures names { IfOk result (AreNamesOf stanza.now id name.now) }
    ensures places { OnOk result (HasPlaces id name.now) }
    ensures settled { OnOk result (MakesDurable (IsPathOf stanza.now id name.now) (D.state d.old) (D.state d.new)) }
    ensures cause { IsErrOf result ArchiveFault.Disk → Rises (D.state d.old).faults (D.state d.new).faults }
    ensures stops { IfErr result IsDeviceFault }
    ensures looks { OnlyReads (D.state d.old) (D.state d.new) }
{
    let names = file_names(alloc, stanza, id, *name)?;
    d.sync_directory(names.folder.as_str())?;
    Ok(names)
}

/// The bytes of a stored file. Of a segment they have the sum that its name states. The names of its folder are synced
/// before.
pub fn get<D: Disk>(
    alloc: Global,
    d: &mut D,
    stanza: &str,
    id: &ArchiveId,
    name: &ArchiveName,
) -> Result<Vec<u8>, ArchiveFault>
    // They are stored with no other sum, and as a file of the repository.
    ensures got { IfOk result (λ bytes. StoresFile stanza.now id.now name.now (D.state d.old) bytes.items) }
    ensures within { IfOk result (λ bytes. length bytes.items ≤ limit_of name.now) }
    ensures archived { IfOk result (λ bytes. HasArchived stanza.now id.now name.now (D.state d.old) bytes.items) }
    ensures unarchived { IsErrOf result ArchiveFault.NotFound
        → HasNoneOf stanza.now id.now name.now (D.state d.old) }
    // All that a crash leaves is alike at the file's paths, so none removes the answer.
    ensures alike { OnAnswer result (MakesAlike stanza.now id.now name.now (D.state d.old) (D.state d.new)) }
    ensures cause { IfErr result (GetFails stanza.now id.now name.now (D.state d.old) (D.state d.new)) }
    ensures looks { OnlyReads (D.state d.old) (D.state d.new) }
{
    let names = names_synced(alloc, d, stanza, *id, name)?;
    if names.has_sum {
        get_segment(alloc, d, &names)
    } else {
        get_other(alloc, d, &names)
    }
}

fn stored_as(id: ArchiveId, name: ArchiveName, kept: StoredFile) -> Stored
    ensures { IsStoredAs id name kept result }
{
    let StoredFile { path, sum, size } = kept;
    let sum = if has_sum(&name) { Some(sum) } else { None };
    Stored {
        id,
        name,
        sum,
        size,
        path,
    }
}

/// Where a file is stored; None where it isn't. Only its names are looked at, and the bytes of a history or backup
/// history file. The names of its folder are synced before.
pub fn present<D: Disk>(
    alloc: Global,
    d: &mut D,
    stanza: &str,
    id: &ArchiveId,
    name: &ArchiveName,
) -> Result<Option<Stored>, ArchiveFault>
    ensures finds { IfOk result (λ file. FindsFile stanza.now id.now name.now (D.state d.old) file) }
    // All that a crash leaves is alike at the file's paths, so none removes the answer.
    ensures alike { OnOk result (MakesAlike stanza.now id.now name.now (D.state d.old) (D.state d.new)) }
    ensures cause { IfErr result (PresentFails stanza.now id.now name.now (D.state d.old) (D.state d.new)) }
    ensures looks { OnlyReads (D.state d.old) (D.state d.new) }
{
    let names = file_names(alloc, stanza, *id, *name)?;
    match look_synced(alloc, d, &names)? {
        Look::Free => Ok(None),
        Look::One(kept) => Ok(Some(stored_as(*id, *name, kept))),
        Look::Two(first, second) => Err(ArchiveFault::Ambiguous { first, second }),
    }
}
