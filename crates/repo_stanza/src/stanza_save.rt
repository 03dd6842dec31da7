// Saves the pairs of a new stanza.
ghost use Rattle.std.specs.Prelude.{◌≡◌, IfOk, OnOk, IsErrOf};
ghost use Rattle.base_devices.specs.States.{CallsProperly, DiskFailed};
ghost use Rattle.base_disk.specs.Store.{ChangesOnly};
ghost use Rattle.base_model.specs.Names.{archive_info, backup_info};
ghost use Rattle.base_model.specs.InfoFiles.{IsCluster};
ghost use Rattle.base_model.specs.Values.{archive_info_of, backup_info_of};
ghost use Rattle.base_model.specs.Create.{first_archive, first_backup};
ghost use Rattle.repo_pair.specs.Member.{IsOfPair};
ghost use Rattle.repo_stanza.specs.Owned.{IsOfPairs};
ghost use Rattle.repo_stanza.specs.Saved.{new_archive, new_backup, SavesPair, SavesPairNow, EndsPair, EndsPairNow, SavesPairs, SavesPairsNow, EndsPairs, EndsPairsNow};

use crate::names::{archive_info_name, backup_info_name};
use crate::pair_rules::identity_of;
use base_devices::Disk;
use base_model::{ArchiveInfo, BackupInfo, Cluster};
use repo_pair::{SaveFault, save_pair};
use std::alloc::{AllocError, Global};

fn first_backup(alloc: Global, cluster: &Cluster) -> Result<BackupInfo, AllocError>
    ensures { IfOk result (λ v. backup_info_of v ≡ first_backup cluster.now) }
{
    Ok(BackupInfo {
        current: 1,
        history: Vec::from_slice(alloc, &[*cluster])?,
        backups: Vec::new(alloc),
    })
}

fn first_archive(alloc: Global, cluster: &Cluster) -> Result<ArchiveInfo, AllocError>
    ensures { IfOk result (λ v. archive_info_of v ≡ first_archive cluster.now) }
{
    Ok(ArchiveInfo {
        current: 1,
        history: Vec::from_slice(alloc, &[identity_of(cluster)])?,
    })
}

// Saves the backup pair of a new stanza.
fn save_backup<D: Disk>(
    alloc: Global,
    d: &mut D,
    stanza: &str,
    cluster: &Cluster,
) -> Result<(), SaveFault>
    requires first { cluster.now.id ≡ 1 }
    requires is_cluster { IsCluster cluster.now }
    ensures crash { SavesPair (new_backup stanza.now cluster.now) (D.state d.old) (D.state d.new) }
    ensures whole { OnOk result
        (EndsPair (new_backup stanza.now cluster.now) (D.state d.old) (D.state d.new)) }
    ensures now_part { SavesPairNow (new_backup stanza.now cluster.now) (D.state d.old) (D.state d.new) }
    ensures now_whole { OnOk result
        (EndsPairNow (new_backup stanza.now cluster.now) (D.state d.old) (D.state d.new)) }
    ensures only { ChangesOnly (IsOfPair (backup_info stanza.now)) (D.state d.old).view (D.state d.new).view }
    ensures frame { CallsProperly (D.state d.old) (D.state d.new) }
    ensures cause { IsErrOf result SaveFault.Disk → DiskFailed (D.state d.old) (D.state d.new) }
{
    let name = backup_info_name(alloc, stanza)?;
    let value = first_backup(alloc, cluster)?;
    save_pair(alloc, d, name.as_str(), &value)?;
    Ok(())
}

// Saves the archive pair of a new stanza.
fn save_archive<D: Disk>(
    alloc: Global,
    d: &mut D,
    stanza: &str,
    cluster: &Cluster,
) -> Result<(), SaveFault>
    requires first { cluster.now.id ≡ 1 }
    requires is_cluster { IsCluster cluster.now }
    ensures crash { SavesPair (new_archive stanza.now cluster.now) (D.state d.old) (D.state d.new) }
    ensures whole { OnOk result
        (EndsPair (new_archive stanza.now cluster.now) (D.state d.old) (D.state d.new)) }
    ensures now_part { SavesPairNow (new_archive stanza.now cluster.now) (D.state d.old) (D.state d.new) }
    ensures now_whole { OnOk result
        (EndsPairNow (new_archive stanza.now cluster.now) (D.state d.old) (D.state d.new)) }
    ensures only { ChangesOnly (IsOfPair (archive_info stanza.now)) (D.state d.old).view (D.state d.new).view }
    ensures frame { CallsProperly (D.state d.old) (D.state d.new) }
    ensures cause { IsErrOf result SaveFault.Disk → DiskFailed (D.state d.old) (D.state d.new) }
{
    let name = archive_info_name(alloc, stanza)?;
    let value = first_archive(alloc, cluster)?;
    save_pair(alloc, d, name.as_str(), &value)?;
    Ok(())
}

/// Saves the backup pair, then the archive pair, whose main member makes the stanza.
pub(crate) fn save_pairs<D: Disk>(
    alloc: Global,
    d: &mut D,
    stanza: &str,
    cluster: &Cluster,
) -> Result<(), SaveFault>
    requires first { cluster.now.id ≡ 1 }
    requires is_cluster { IsCluster cluster.now }
    ensures crash { SavesPairs stanza.now cluster.now (D.state d.old) (D.state d.new) }
    ensures whole { OnOk result (EndsPairs stanza.now cluster.now (D.state d.old) (D.state d.new)) }
    ensures now_part { SavesPairsNow stanza.now cluster.now (D.state d.old) (D.state d.new) }
    ensures now_whole { OnOk result (EndsPairsNow stanza.now cluster.now (D.state d.old) (D.state d.new)) }
    ensures only { ChangesOnly (IsOfPairs stanza.now) (D.state d.old).view (D.state d.new).view }
    ensures frame { CallsProperly (D.state d.old) (D.state d.new) }
    ensures cause { IsErrOf result SaveFault.Disk → DiskFailed (D.state d.old) (D.state d.new) }
{
    save_backup(alloc, d, stanza, cluster)?;
    save_archive(alloc, d, stanza, cluster)?;
    Ok(())
}
