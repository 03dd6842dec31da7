// Carries out what was planned: the backup pair first, then the folders, then the files of the archive.
ghost use Rattle.std.specs.Prelude.{◌≤◌, IfOk, IfErr, IsSome, OnOk, length};
ghost use Rattle.base_devices.specs.States.{CallsProperly};
ghost use Rattle.base_devices.specs.Cause.{Rises};
ghost use Rattle.base_model.specs.Values.{backup_info_of};
ghost use Rattle.base_model.specs.InfoFiles.{IsBackupInfo, info_limit};
ghost use Rattle.base_crash_lists.specs.Beside.{StaysBeside};
ghost use Rattle.expire_make.specs.Expiry.{CarriesOutPart, CarriesOutAll, ChangesPlanned};
ghost use Rattle.expire_make.specs.Emptying.{LeavesPlanned};
ghost use Rattle.expire_make.specs.Removed.{NumberGone};
ghost use Rattle.expire_make.specs.Planning.{BackupPairAgrees, BackupPairLasts, list_text};
ghost use Rattle.expire_make.specs.Fault.{IsDeviceFault};

use crate::archive_removal::forget;
use crate::backup_list::save_left;
use crate::expiry_plan::Planned;
use crate::fault::ExpireFault;
use crate::unlisted_folders::drop_unlisted;
use base_devices::Disk;
use expire_rules::Rules;
use std::alloc::Global;

/// Carries a plan out, and returns how many files of the archive were removed.
pub(crate) fn carry_out<D: Disk>(
    alloc: Global,
    d: &mut D,
    stanza: &str,
    rules: &Rules,
    plan: &Planned,
) -> Result<u64, ExpireFault>
    requires valid { IsBackupInfo (backup_info_of plan.now.left) }
    requires within { length (list_text (backup_info_of plan.now.left)) ≤ info_limit }
    ensures part { CarriesOutPart stanza.now rules.now plan.now (D.state d.old) (D.state d.new) }
    ensures whole { OnOk result (CarriesOutAll stanza.now rules.now plan.now (D.state d.old) (D.state d.new)) }
    ensures alike { OnOk result (BackupPairAgrees stanza.now (D.state d.old) (D.state d.new)) }
    ensures lasts { OnOk result (BackupPairLasts stanza.now (D.state d.old).view (D.state d.new).view) }
    ensures removed { IfOk result (λ k. NumberGone stanza.now k (D.state d.old) (D.state d.new)) }
    ensures leaves { OnOk result (LeavesPlanned stanza.now rules.now plan.now (D.state d.old) (D.state d.new)) }
    ensures known { IsSome (D.state d.old).view.now → IsSome (D.state d.new).view.now }
    ensures touches { ChangesPlanned stanza.now rules.now plan.now (D.state d.old) (D.state d.new) }
    ensures beside { StaysBeside stanza.now (D.state d.old).view (D.state d.new).view }
    ensures frame { CallsProperly (D.state d.old) (D.state d.new) }
    ensures cause { IfErr result (IsDeviceFault (Rises (D.state d.old).faults (D.state d.new).faults)) }
{
    save_left(alloc, d, stanza, &plan.left)?;
    drop_unlisted(alloc, d, stanza, &plan.left.backups)?;
    let archive = &plan.archive;
    forget(
        alloc,
        d,
        stanza,
        &archive.history,
        &plan.left.backups,
        archive.current,
        rules,
    )
}
