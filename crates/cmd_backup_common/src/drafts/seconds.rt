// The second by which a label is named.
ghost use Rattle.std.specs.Prelude.{◌≡◌, ◌⊎◌, ◌≤◌, ◌<◌, ◌+◌, true, false, map, IfOk, IfErr};
ghost use Rattle.base_devices.specs.States.{last_second, OnlyReads, ShowsSecond};
ghost use Rattle.base_model.specs.Names.{backup_folder};
ghost use Rattle.base_model.specs.Text.{◌⫽◌};
ghost use Rattle.base_model.specs.Values.{entry_of, backup_info_of};
ghost use Rattle.backup_record.specs.Making.{labels_of};
ghost use Rattle.cmd_backup_common.specs.Seconds.{second_of, AreBefore, IsNext, ListsSecond, MayCount, ShowsFiles, StatesFar, DiskFails, ClockFails, SecondFails};

use crate::drafts::fault::{SecondFault, clock_fault, disk_fault};
use base_devices::{Clock, Disk};
use base_model::{BackupInfo, Entry, Label};
use repo_names::read_label;
use std::alloc::Global;

/// A label may be this many seconds ahead of the clock.
const AHEAD: u64 = 10;

// Whether the second is further ahead of the present one.
fn is_far(second: u64, present: u64) -> bool
    ensures far { result ≡ true → present + 10 < second }
    ensures near { result ≡ false → second ≤ present + 10 }
{
    second > present && second - present > AHEAD
}

// The later one of the two seconds that a label states.
fn second_of(label: &Label) -> u64
    ensures { result ≡ second_of label.now }
{
    match label.later {
        Some(later) => label.full.max(later.time),
        None => label.full,
    }
}

// The latest second that the label of a listed backup states, and 0 without one.
fn latest_listed(backups: &[Entry]) -> u64
    ensures before { AreBefore (labels_of (map entry_of backups.now)) (result + 1) }
    ensures listed { (result ≡ 0) ⊎ ListsSecond (labels_of (map entry_of backups.now)) result }
{
    let mut latest = 0;
    for entry in backups {
        let second = second_of(&entry.label);
        if second > latest {
            latest = second;
        }
    }
    latest
}

// Whether a file lies below the folder.
fn has_files<D: Disk>(
    alloc: Global,
    d: &mut D,
    stanza: &str,
    name: &str,
) -> Result<bool, SecondFault>
    ensures files { IfOk result (ShowsFiles (backup_folder stanza.now ⫽ name.now) (D.state d.old)) }
    ensures looks { OnlyReads (D.state d.old) (D.state d.new) }
    ensures fault { IfErr result (λ e. DiskFails e (D.state d.old).faults (D.state d.new).faults) }
{
    let folder = format!(in alloc; "backup/{stanza}/{name}")?;
    match d.names(alloc, &folder) {
        Ok(found) => Ok(!found.is_empty()),
        Err(error) => Err(disk_fault(error)),
    }
}

// This second, or the later one that the folder's name states, where it is the text of a label. What is too far ahead
// of the present second counts only where the folder has files.
fn later_of<D: Disk>(
    alloc: Global,
    d: &mut D,
    stanza: &str,
    name: &str,
    latest: u64,
    present: u64,
) -> Result<u64, SecondFault>
    ensures latest { IfOk result (λ later. latest ≤ later) }
    ensures named { IfOk result (MayCount stanza.now latest present (D.state d.old).view.now) }
    ensures looks { OnlyReads (D.state d.old) (D.state d.new) }
    ensures fault { IfErr result (λ e. DiskFails e (D.state d.old).faults (D.state d.new).faults) }
{
    let second = match read_label(name.as_bytes()) {
        Some(label) => second_of(&label),
        None => return Ok(latest),
    };
    if second <= latest {
        return Ok(latest);
    }
    if is_far(second, present) && !has_files(alloc, d, stanza, name)? {
        return Ok(latest);
    }
    Ok(second)
}

// The latest second that the names of these folders state, and at least this one.
fn latest_named<D: Disk>(
    alloc: Global,
    d: &mut D,
    stanza: &str,
    names: &[String],
    listed: u64,
    present: u64,
) -> Result<u64, SecondFault>
    ensures listed { IfOk result (λ latest. listed ≤ latest) }
    ensures named { IfOk result (MayCount stanza.now listed present (D.state d.old).view.now) }
    ensures looks { OnlyReads (D.state d.old) (D.state d.new) }
    ensures fault { IfErr result (λ e. DiskFails e (D.state d.old).faults (D.state d.new).faults) }
{
    let mut latest = listed;
    for name in names {
        latest = later_of(alloc, d, stanza, name, latest, present)?;
    }
    Ok(latest)
}

// The latest second that a label states: that of a listed backup, or of a folder that is among those of the backups.
fn latest_in<D: Disk>(
    alloc: Global,
    d: &mut D,
    stanza: &str,
    list: &BackupInfo,
    present: u64,
) -> Result<u64, SecondFault>
    ensures before { IfOk result (λ latest. AreBefore (labels_of (backup_info_of list.now).backups) (latest + 1)) }
    ensures stated { IfOk result (StatesFar stanza.now list.now present (D.state d.old)) }
    ensures looks { OnlyReads (D.state d.old) (D.state d.new) }
    ensures fault { IfErr result (λ e. DiskFails e (D.state d.old).faults (D.state d.new).faults) }
{
    let folder = format!(in alloc; "backup/{stanza}")?;
    let listed = latest_listed(&list.backups);
    match d.folders(alloc, &folder) {
        Ok(names) => latest_named(alloc, d, stanza, &names, listed, present),
        Err(error) => Err(disk_fault(error)),
    }
}

// The second of the clock, once it is past this one.
fn second_past<C: Clock>(clock: &mut C, latest: u64) -> Result<u64, SecondFault>
    ensures past { IfOk result (λ second. (latest < second) × (second ≤ last_second)) }
    ensures shows { IfOk result (λ second. ShowsSecond second (C.state clock.old) (C.state clock.new)) }
    ensures later { (C.state clock.old).faults ≤ (C.state clock.new).faults }
    ensures least { (C.state clock.old).least ≤ (C.state clock.new).least }
    ensures fault { IfErr result (λ e. ClockFails e (C.state clock.old) (C.state clock.new)) }
{
    clock.wait_past(latest).map_err(clock_fault)?;
    clock.now().map_err(clock_fault)
}

/// A second that the clock shows, past each that the label of a listed backup states, or a folder's among those of the
/// backups. It may wait until then, for at most ten seconds. A folder's label that is further ahead counts where the
/// folder has files.
pub fn next_second<D: Disk, C: Clock>(
    alloc: Global,
    d: &mut D,
    clock: &mut C,
    stanza: &str,
    list: &BackupInfo,
) -> Result<u64, SecondFault>
    ensures next { IfOk result (λ second. IsNext second (backup_info_of list.now)) }
    ensures shows { IfOk result (λ second. ShowsSecond second (C.state clock.old) (C.state clock.new)) }
    ensures looks { OnlyReads (D.state d.old) (D.state d.new) }
    ensures later { (C.state clock.old).faults ≤ (C.state clock.new).faults }
    ensures least { (C.state clock.old).least ≤ (C.state clock.new).least }
    ensures cause { IfErr result (SecondFails stanza.now list.now D.state d.old d.new C.state clock.old clock.new) }
{
    let present = clock.now().map_err(clock_fault)?;
    let latest = latest_in(alloc, d, stanza, list, present)?;
    if is_far(latest, present) {
        return Err(SecondFault::ClockBehind {
            latest,
            now: present,
        });
    }
    second_past(clock, latest)
}
