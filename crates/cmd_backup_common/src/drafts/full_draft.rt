// The draft of a full backup.
ghost use Rattle.std.specs.Prelude.{◌≡◌, ◌≤◌, None, Some, length, IfOk};
ghost use Rattle.base_model.specs.Fields.{at_number};
ghost use Rattle.base_model.specs.InfoFiles.{IsBackupInfo};
ghost use Rattle.base_model.specs.Text.{In};
ghost use Rattle.base_model.specs.Values.{backup_info_of};
ghost use Rattle.backup_plan.specs.Filter.{IsListing, HasFile, most_files};
ghost use Rattle.backup_plan.specs.Listed.{control_path};
ghost use Rattle.backup_plan.specs.Views.{taken_files, taken_folders};
ghost use Rattle.backup_make.specs.Draft.{IsDraft};
ghost use Rattle.cmd_backup_common.specs.Full.{IsFullOf};
ghost use Rattle.cmd_backup_common.specs.Seconds.{IsNext};

use backup_make::Draft;
use backup_plan::{Listing, PlanSettings, Taken, plan};
use base_model::{BackupInfo, Choices, Cluster, Label};
use std::alloc::{AllocError, Global};

/// Every file is copied to a name of its own.
const PLAIN: PlanSettings = PlanSettings {
    delta: false,
    bundle: false,
    bundle_size: 0,
    bundle_limit: 0,
};

/// The stanza's current cluster.
pub fn current_cluster(list: &BackupInfo) -> Cluster
    requires { IsBackupInfo (backup_info_of list.now) }
    ensures current { at_number (backup_info_of list.now).current (backup_info_of list.now).history ≡ Some result }
    ensures listed { In result (backup_info_of list.now).history }
{
    list.history[list.current as usize - 1]
}

/// No digest shows of any file that its bytes are those of an earlier backup.
pub fn none_equal(alloc: Global, files: &[Taken]) -> Result<Vec<bool>, AllocError>
    ensures { IfOk result (λ equal. length equal.items ≡ length files.now) }
{
    let mut equal = Vec::new(alloc);
    equal.resize(files.len(), false)?;
    Ok(equal)
}

/// The draft of a full backup of these files and folders, whose label is named by the second.
pub fn draft_of<'a>(
    alloc: Global,
    stanza: &'a str,
    second: u64,
    cluster: Cluster,
    listing: Listing,
    before: BackupInfo,
) -> Result<Draft<'a>, AllocError>
    requires listing { IsListing (taken_files listing) (taken_folders listing) }
    requires control { HasFile control_path (taken_files listing) }
    requires few { length (taken_files listing) ≤ most_files }
    requires list { IsBackupInfo (backup_info_of before) }
    requires next { IsNext second (backup_info_of before) }
    requires cluster { In cluster (backup_info_of before).history }
    ensures draft { IfOk result (λ d. IsDraft d) }
    ensures full { IfOk result (λ d. IsFullOf stanza.entry.now second cluster listing before d) }
{
    let equal = none_equal(alloc, &listing.files)?;
    let plan = plan(alloc, &listing.files, &[], &equal, &PLAIN)?;
    Ok(Draft {
        stanza,
        label: Label {
            full: second,
            later: None,
        },
        prior: None,
        old: &[],
        start: second,
        cluster,
        choices: Choices {
            bundle: false,
            delta: false,
        },
        listing,
        plan,
        before,
    })
}
