// Gives a stanza a further cluster, or keeps the one that it has.
ghost use Rattle.std.specs.Prelude.{◌≡◌, ◌+◌, ◌<◌, ◌≤◌, length, OnOk, IfOk, IfErr, IfSome, IfNone, IsSome};
ghost use Rattle.base_devices.specs.States.{CallsProperly};
ghost use Rattle.base_devices.specs.Moments.{LeavesNoMore};
ghost use Rattle.base_disk.specs.Store.{ChangesOnly};
ghost use Rattle.base_model.specs.InfoFiles.{IsArchiveInfo, IsBackupInfo, IsCluster};
ghost use Rattle.base_model.specs.Values.{archive_info_of, backup_info_of};
ghost use Rattle.repo_stanza.specs.declared.upgrade_fault.UpgradeFault.TheVariants.{TooMany};
ghost use Rattle.repo_stanza.specs.Judging.{HoldsList, IsOf};
ghost use Rattle.repo_stanza.specs.Making.{PairsAgreeAfter};
ghost use Rattle.repo_stanza.specs.Owned.{IsOfPairs};
ghost use Rattle.repo_stanza.specs.UpgradeCauses.{IsFull, UpgradeFails, OnLimit};
ghost use Rattle.repo_stanza.specs.Upgrading.{most_clusters, stated_next, IfAdded, IfKept, MayUpgrade, HasUpgraded, LengthensPairs, ImagesMayUpgrade, HasUpgradedSteady};

use crate::control::Control;
use crate::keeping::keep_stanza;
use crate::pair_rules::{PairValues, is_of};
use crate::pair_texts::longer_texts;
use crate::text_save::save_texts;
use crate::upgrade_fault::UpgradeFault;
use base_devices::Disk;
use base_model::{ArchiveInfo, BackupInfo, Cluster};
use std::alloc::Global;

/// No cluster is added to a history with this many.
const MOST_CLUSTERS: usize = 1_000;

/// How a cluster came to be a stanza's current one.
#[derive(Clone, Copy, Debug, PartialEq, Eq)]
pub enum Upgraded {
    /// it was added under this number
    New { number: u32 },
    /// it was the current one
    Same,
}

// The cluster under the next number, or none where the current one is of its system identifier and version.
fn next_cluster(archive: &ArchiveInfo, control: &Control) -> Result<Option<Cluster>, UpgradeFault>
    requires { IsArchiveInfo (archive_info_of archive.now) }
    ensures current { IfOk result (λ o. IfNone o (IsOf control.now (archive_info_of archive.now))) }
    ensures other { IfOk result (λ o. IfSome o (λ c. ¬ IsOf control.now (archive_info_of archive.now))) }
    ensures room { IfOk result (λ o. IfSome o (λ c. length archive.now.history.items < most_clusters)) }
    ensures next { IfOk result (λ o. IfSome o (λ c. c ≡ stated_next control.now (archive_info_of archive.now))) }
    ensures is_cluster { IfOk result (λ o. IfSome o IsCluster) }
    ensures full { IfErr result (λ e. IsFull control.now (archive_info_of archive.now)) }
    ensures limit { IfErr result (λ e. e ≡ TooMany most_clusters) }
{
    if is_of(archive, control) {
        return Ok(None);
    }
    let count = archive.history.len();
    if count >= MOST_CLUSTERS {
        return Err(UpgradeFault::TooMany {
            limit: MOST_CLUSTERS as u64,
        });
    }
    Ok(Some(Cluster {
        id: count as u32 + 1,
        system: control.system,
        version: control.version,
        control: control.control,
        catalog: control.catalog,
    }))
}

/// Makes the cluster the stanza's current one, under the next number. Where the current one is of its system identifier
/// and version, each member of the two pairs that isn't its value's text is written anew. The values are those of the
/// two pairs, the backup pair's without a cluster that is still to come. The backup pair is written first, and the main
/// member of the archive pair then upgrades the stanza. Nothing is written before every refusal is over.
pub fn upgrade<D: Disk>(
    alloc: Global,
    d: &mut D,
    stanza: &str,
    control: &Control,
    archive: ArchiveInfo,
    list: BackupInfo,
) -> Result<Upgraded, UpgradeFault>
    requires list { HoldsList stanza.now (archive_info_of archive) (backup_info_of list) (D.state d.old) }
    requires archive { IsArchiveInfo (archive_info_of archive) }
    requires backup { IsBackupInfo (backup_info_of list) }
    // `validate_list` gives such a list; of a disk whose contents aren't known the first clause doesn't say it.
    requires same { length list.history.items ≡ length archive.history.items }
    // After every answer, and after every crash, the stanza is as before or upgraded, and at Ok it is of the cluster.
    ensures part { MayUpgrade stanza.now control.now (D.state d.old) (D.state d.new) }
    ensures done { OnOk result (HasUpgraded stanza.now control.now (D.state d.old) (D.state d.new)) }
    ensures moves { ImagesMayUpgrade stanza.now control.now (D.state d.old) (D.state d.new) }
    ensures made { OnOk result (HasUpgradedSteady stanza.now control.now (D.state d.old) (D.state d.new)) }
    // The cluster is added only where the current one is another, and then the members have the longer values' texts.
    ensures same { IfOk result (λ u. IfKept u (IsOf control.now (archive_info_of archive))) }
    ensures new { IfOk result (λ u. IfAdded u (λ n. ¬ IsOf control.now (archive_info_of archive))) }
    ensures number { IfOk result (λ u. IfAdded u (λ n. n ≡ length archive.history.items + 1)) }
    ensures few { IfOk result (λ u. IfAdded u (λ n. n ≤ most_clusters)) }
    ensures members { IfOk result
        (LengthensPairs stanza.now control.now archive list (D.state d.old) (D.state d.new)) }
    ensures agrees { OnOk result (PairsAgreeAfter stanza.now (D.state d.old) (D.state d.new)) }
    ensures refused { IfErr result (λ e. OnLimit e ((D.state d.new).view.now ≡ (D.state d.old).view.now)) }
    ensures rests { IfErr result (λ e. OnLimit e (LeavesNoMore (D.state d.old).view (D.state d.new).view)) }
    ensures known { IsSome (D.state d.old).view.now → IsSome (D.state d.new).view.now }
    ensures only { ChangesOnly (IsOfPairs stanza.now) (D.state d.old).view (D.state d.new).view }
    ensures frame { CallsProperly (D.state d.old) (D.state d.new) }
    ensures cause { IfErr result
        (UpgradeFails stanza.now control.now archive list (D.state d.old) (D.state d.new)) }
{
    match next_cluster(&archive, control)? {
        None => {
            let kept = PairValues {
                archive,
                backup: list,
            };
            keep_stanza(alloc, d, stanza, &kept)?;
            Ok(Upgraded::Same)
        }
        Some(cluster) => {
            let texts = longer_texts(alloc, stanza, archive, list, &cluster)?;
            save_texts(alloc, d, stanza, &texts.backup, &texts.archive)?;
            Ok(Upgraded::New { number: cluster.id })
        }
    }
}
