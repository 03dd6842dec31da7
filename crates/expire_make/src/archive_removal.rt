// Removes the files of the archive that aren't needed.
ghost use Rattle.std.specs.Prelude.{◌≡◌, IfOk, IfErr, OnOk};
ghost use Rattle.base_devices.specs.Cause.{Rises};
ghost use Rattle.base_model.specs.Names.{archive_folder};
ghost use Rattle.expire_make.specs.Losing.{FolderBecomesDurable};
ghost use Rattle.expire_make.specs.Unneeded.{id_in, TakesFrom, TakesUnder, GoneFrom, GoneUnder, GoneUnderId, LostFrom, LostUnder};
ghost use Rattle.expire_make.specs.Fault.{IsDeviceFault};

use crate::fault::ExpireFault;
use crate::log_folders::remove_within;
use base_devices::Disk;
use base_model::{ArchiveId, ClusterId, Entry};
use expire_rules::{Rules, spans};
use std::alloc::Global;

// The id of a cluster's files.
fn id_of(cluster: &ClusterId) -> ArchiveId
    ensures { result ≡ id_in cluster.now }
{
    ArchiveId {
        version: cluster.version,
        number: cluster.id,
    }
}

// Removes the files of one cluster that aren't kept with these backups listed, and returns how many there were. The
// prefix is the stanza's folder of the archive with a slash.
fn forget_under<D: Disk>(
    alloc: Global,
    d: &mut D,
    prefix: &str,
    id: ArchiveId,
    entries: &[Entry],
    current: u32,
    rules: &Rules,
) -> Result<u64, ExpireFault>
    ensures takes { TakesUnder prefix.now rules.now current entries.now (D.state d.old) (D.state d.new) }
    ensures gone { OnOk result (GoneUnderId prefix.now rules.now current entries.now id (D.state d.new)) }
    ensures counts { IfOk result
        (LostUnder prefix.now rules.now current entries.now (D.state d.old) (D.state d.new)) }
    ensures cause { IfErr result (IsDeviceFault (Rises (D.state d.old).faults (D.state d.new).faults)) }
{
    let kept = spans(alloc, entries, &id, id.number == current, rules)?;
    if kept.all {
        return Ok(0);
    }
    let ArchiveId { version, number } = id;
    let place = format!(in alloc; "{prefix}{version}-{number}")?;
    let folders = d.folders(alloc, place.as_str())?;
    remove_within(alloc, d, place.as_str(), &folders, prefix, &kept)
}

// The same for all clusters.
fn forget_each<D: Disk>(
    alloc: Global,
    d: &mut D,
    prefix: &str,
    history: &[ClusterId],
    entries: &[Entry],
    current: u32,
    rules: &Rules,
) -> Result<u64, ExpireFault>
    ensures takes { TakesUnder prefix.now rules.now current entries.now (D.state d.old) (D.state d.new) }
    ensures gone { OnOk result (GoneUnder prefix.now rules.now current entries.now history.now (D.state d.new)) }
    ensures counts { IfOk result
        (LostUnder prefix.now rules.now current entries.now (D.state d.old) (D.state d.new)) }
    ensures cause { IfErr result (IsDeviceFault (Rises (D.state d.old).faults (D.state d.new).faults)) }
{
    let mut removed = 0u64;
    for cluster in history {
        let id = id_of(cluster);
        removed = removed.saturating_add(forget_under(
            alloc, d, prefix, id, entries, current, rules,
        )?);
    }
    Ok(removed)
}

/// Removes the files of these clusters that aren't kept with these backups listed, and syncs the stanza's folder
/// of the archive, so that a crash leaves there what the disk holds. Returns how many files there were.
pub(crate) fn forget<D: Disk>(
    alloc: Global,
    d: &mut D,
    stanza: &str,
    history: &[ClusterId],
    entries: &[Entry],
    current: u32,
    rules: &Rules,
) -> Result<u64, ExpireFault>
    ensures takes { TakesFrom stanza.now rules.now current entries.now (D.state d.old) (D.state d.new) }
    ensures gone { OnOk result (GoneFrom stanza.now rules.now current entries.now history.now (D.state d.new)) }
    ensures settled { OnOk result
        (FolderBecomesDurable (archive_folder stanza.now) (D.state d.old) (D.state d.new)) }
    ensures counts { IfOk result
        (LostFrom stanza.now rules.now current entries.now (D.state d.old) (D.state d.new)) }
    ensures cause { IfErr result (IsDeviceFault (Rises (D.state d.old).faults (D.state d.new).faults)) }
{
    let folder = format!(in alloc; "archive/{stanza}")?;
    let prefix = format!(in alloc; "archive/{stanza}/")?;
    let removed = forget_each(alloc, d, prefix.as_str(), history, entries, current, rules)?;
    d.sync_directories(folder.as_str())?;
    Ok(removed)
}
