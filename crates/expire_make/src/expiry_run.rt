// An expiry: plans it, and carries it out.
ghost use Rattle.std.specs.Prelude.{◌≤◌, IfOk, IfErr, OnOk, length};
ghost use Rattle.std.specs.List.{AllByRecursion};
ghost use Rattle.base_devices.specs.States.{CallsProperly, OnlyReads};
ghost use Rattle.base_devices.specs.Cause.{Rises};
ghost use Rattle.base_disk.specs.Store.{ChangesOnly};
ghost use Rattle.base_model.specs.Values.{archive_info_of, backup_info_of};
ghost use Rattle.base_model.specs.InfoFiles.{IsBackupInfo, IsLabel, info_limit};
ghost use Rattle.base_crash_lists.specs.Beside.{StaysBeside};
ghost use Rattle.expire_make.specs.Expiry.{ExpiresPart, ExpiresAll, KeepsNeeded, AreCondemned, ChangesTouched};
ghost use Rattle.expire_make.specs.Losing.{MayExpire};
ghost use Rattle.expire_make.specs.Emptying.{EndsListed};
ghost use Rattle.expire_make.specs.Removed.{NumberGone};
ghost use Rattle.repo_stanza.specs.Judging.{HoldsList};
ghost use Rattle.expire_make.specs.Planning.{BackupPairAgrees, BackupPairLasts, list_text};
ghost use Rattle.expire_make.specs.Fault.{ExpiryFails, IfRefused, IsDeviceFault};

use crate::expiry_plan::{plan, read_list};
use crate::expiry_steps::carry_out;
use crate::fault::ExpireFault;
use base_devices::Disk;
use base_model::{ArchiveInfo, BackupInfo, Label};
use expire_rules::Rules;
use std::alloc::Global;

/// What an expiry removed: the labels of the backups, in the order of the list, and the number of archive files.
#[derive(Debug, Drop)]
pub struct Expired {
    pub labels: Vec<Label>,
    pub removed: u64,
}

/// Removes what the rules expire at a moment, in seconds since 1970 (pgBackRest command reference, "Expire Command").
/// First the backup pair is saved without the labels, then the folders of all labels that aren't listed are dropped,
/// and then the files of the archive that the remaining backups don't need. What an interrupted expiry leaves is
/// removed by the next. A cluster that is still to come is no longer listed by the backup pair then.
pub fn expire<D: Disk>(
    alloc: Global,
    d: &mut D,
    stanza: &str,
    rules: &Rules,
    moment: u64,
) -> Result<Expired, ExpireFault>
    // After every answer, and at each moment after a crash, the repository is as after a part of the expiry, and at Ok
    // as after all of it.
    ensures part { ExpiresPart stanza.now rules.now moment (D.state d.old) (D.state d.new) }
    ensures whole { OnOk result (ExpiresAll stanza.now rules.now moment (D.state d.old) (D.state d.new)) }
    // At each moment each backup that stays and each file that it needs have the bytes that they had.
    ensures keeps { KeepsNeeded stanza.now rules.now moment (D.state d.old) (D.state d.new) }
    ensures labels { IfOk result
        (λ e. AreCondemned stanza.now rules.now moment e.labels.items (D.state d.old)) }
    ensures are_labels { IfOk result (λ e. AllByRecursion IsLabel e.labels.items) }
    // Both members of the backup pair are alike then, and so they are in all that a crash leaves.
    ensures alike { OnOk result (BackupPairAgrees stanza.now (D.state d.old) (D.state d.new)) }
    ensures lasts { OnOk result (BackupPairLasts stanza.now (D.state d.old).view (D.state d.new).view) }
    ensures removed { IfOk result (λ e. NumberGone stanza.now e.removed (D.state d.old) (D.state d.new)) }
    // What is left then, whatever else lies in the repository.
    ensures leaves { OnOk result (EndsListed stanza.now rules.now moment (D.state d.old) (D.state d.new)) }
    // Where it is refused only was read.
    ensures refused { IfErr result (λ e. IfRefused e (OnlyReads (D.state d.old) (D.state d.new))) }
    // Nothing changes but the backup pair, folders of labels, and files of the archive that aren't histories of
    // timelines. Of these no folder of a label that stays in the list, and no file that the backups left need.
    ensures only { ChangesOnly (MayExpire stanza.now) (D.state d.old).view (D.state d.new).view }
    ensures touches { ChangesTouched stanza.now rules.now moment (D.state d.old) (D.state d.new) }
    ensures beside { StaysBeside stanza.now (D.state d.old).view (D.state d.new).view }
    ensures frame { CallsProperly (D.state d.old) (D.state d.new) }
    ensures cause { IfErr result (ExpiryFails stanza.now (D.state d.old) (D.state d.new)) }
{
    let (archive, list) = read_list(alloc, d, stanza)?;
    expire_list(alloc, d, stanza, rules, moment, archive, list)
}

/// The same where the value of the archive pair is known, and the list to which that of the backup pair validates.
pub fn expire_list<D: Disk>(
    alloc: Global,
    d: &mut D,
    stanza: &str,
    rules: &Rules,
    moment: u64,
    archive: ArchiveInfo,
    list: BackupInfo,
) -> Result<Expired, ExpireFault>
    requires list { HoldsList stanza.now (archive_info_of archive) (backup_info_of list) (D.state d.old) }
    requires valid { IsBackupInfo (backup_info_of list) }
    requires within { length (list_text (backup_info_of list)) ≤ info_limit }
    // After every answer, and at each moment after a crash, the repository is as after a part of the expiry, and at Ok
    // as after all of it.
    ensures part { ExpiresPart stanza.now rules.now moment (D.state d.old) (D.state d.new) }
    ensures whole { OnOk result (ExpiresAll stanza.now rules.now moment (D.state d.old) (D.state d.new)) }
    // At each moment each backup that stays and each file that it needs have the bytes that they had.
    ensures keeps { KeepsNeeded stanza.now rules.now moment (D.state d.old) (D.state d.new) }
    ensures labels { IfOk result
        (λ e. AreCondemned stanza.now rules.now moment e.labels.items (D.state d.old)) }
    ensures are_labels { IfOk result (λ e. AllByRecursion IsLabel e.labels.items) }
    // Both members of the backup pair are alike then, and so they are in all that a crash leaves.
    ensures alike { OnOk result (BackupPairAgrees stanza.now (D.state d.old) (D.state d.new)) }
    ensures lasts { OnOk result (BackupPairLasts stanza.now (D.state d.old).view (D.state d.new).view) }
    ensures removed { IfOk result (λ e. NumberGone stanza.now e.removed (D.state d.old) (D.state d.new)) }
    // What is left then, whatever else lies in the repository.
    ensures leaves { OnOk result (EndsListed stanza.now rules.now moment (D.state d.old) (D.state d.new)) }
    // Nothing changes but the backup pair, folders of labels, and files of the archive that aren't histories of
    // timelines. Of these no folder of a label that stays in the list, and no file that the backups left need.
    ensures only { ChangesOnly (MayExpire stanza.now) (D.state d.old).view (D.state d.new).view }
    ensures touches { ChangesTouched stanza.now rules.now moment (D.state d.old) (D.state d.new) }
    ensures beside { StaysBeside stanza.now (D.state d.old).view (D.state d.new).view }
    ensures frame { CallsProperly (D.state d.old) (D.state d.new) }
    ensures cause { IfErr result (IsDeviceFault (Rises (D.state d.old).faults (D.state d.new).faults)) }
{
    let planned = plan(alloc, archive, list, rules, moment)?;
    let removed = carry_out(alloc, d, stanza, rules, &planned)?;
    Ok(Expired {
        labels: planned.labels,
        removed,
    })
}
