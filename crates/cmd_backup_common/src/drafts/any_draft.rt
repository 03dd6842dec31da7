// The draft of a backup of any kind.
ghost use Rattle.std.specs.Prelude.{◌≡◌, ◌≤◌, true, [], None, map, length, option_map, IfOk};
ghost use Rattle.base_devices.specs.Order.{are_in_order};
ghost use Rattle.base_model.specs.InfoFiles.{IsBackupInfo};
ghost use Rattle.base_model.specs.Text.{In};
ghost use Rattle.base_model.specs.Values.{backup_info_of, entry_of, file_entry_of};
ghost use Rattle.backup_plan.specs.Filter.{IsListing, HasFile, most_files};
ghost use Rattle.backup_plan.specs.Listed.{control_path};
ghost use Rattle.backup_plan.specs.Views.{taken_files, taken_folders};
ghost use Rattle.backup_make.specs.Draft.{IsDraft};
ghost use Rattle.cmd_backup_common.specs.Drafted.{KeepRules, prior_in, IsOrderedBy};
ghost use Rattle.cmd_backup_common.specs.Priors.{prior_for, made_label};
ghost use Rattle.cmd_backup_common.specs.Seconds.{IsNext};

use crate::drafts::prior_backup::{made_label, prior_of};
use backup_make::Draft;
use backup_plan::{Listing, PlanSettings, plan};
use base_model::{BackupInfo, BackupKind, Choices, Cluster, Entry, FileEntry, Label};
use std::alloc::{AllocError, Global};

/// How a backup is to be made, and of which stanza.
#[derive(Clone, Copy)]
pub struct DraftOrder<'a> {
    pub stanza: &'a str,
    /// the kind that is asked for
    pub kind: BackupKind,
    pub settings: PlanSettings,
    /// the files of the manifest of the backup that it is based on, and none without one
    pub old: &'a [FileEntry],
}

// The label of a backup, and that of the one which it is based on.
fn labels_of(
    kind: BackupKind,
    cluster: u32,
    backups: &[Entry],
    second: u64,
) -> (Label, Option<Label>)
    ensures own { result.0 ≡ made_label kind (prior_for kind cluster (map entry_of backups.now)) second }
    ensures prior { result.1 ≡ option_map (λ e. e.label) (prior_for kind cluster (map entry_of backups.now)) }
{
    let prior = prior_of(kind, cluster, backups);
    let label = made_label(kind, prior, second);
    match prior {
        Some(entry) => (label, Some(entry.label)),
        None => (label, None),
    }
}

/// The draft of a backup of these files and folders, named by the second, and based on the listed backup that its kind
/// asks for. Without one it is a full backup. `equal` gives for each file whether its digest is the one that `old`
/// has.
pub fn draft_ordered<'a>(
    alloc: Global,
    second: u64,
    cluster: Cluster,
    order: &DraftOrder<'a>,
    equal: &[bool],
    listing: Listing,
    before: BackupInfo,
) -> Result<Draft<'a>, AllocError>
    requires listing { IsListing (taken_files listing) (taken_folders listing) }
    requires control { HasFile control_path (taken_files listing) }
    requires few { length (taken_files listing) ≤ most_files }
    requires list { IsBackupInfo (backup_info_of before) }
    requires next { IsNext second (backup_info_of before) }
    requires cluster { In cluster (backup_info_of before).history }
    requires same { length equal.now ≡ length listing.files.items }
    requires order { are_in_order (map (λ e. e.path) (map file_entry_of order.now.old.now)) ≡ true }
    requires none { prior_in order.now cluster before ≡ None → order.now.old.now ≡ [] }
    requires old { KeepRules (map file_entry_of order.now.old.now) }
    ensures draft { IfOk result (λ d. IsDraft d) }
    ensures ordered { IfOk result (IsOrderedBy order.now second cluster equal.now listing before) }
{
    let (label, prior) = labels_of(order.kind, cluster.id, &before.backups, second);
    let plan = plan(alloc, &listing.files, order.old, equal, &order.settings)?;
    Ok(Draft {
        stanza: order.stanza,
        label,
        prior,
        old: order.old,
        start: second,
        cluster,
        choices: Choices {
            bundle: order.settings.bundle,
            delta: order.settings.delta,
        },
        listing,
        plan,
        before,
    })
}
