// The texts of a stanza's two pairs with a further cluster.
ghost use Rattle.std.specs.Prelude.{◌≡◌, ◌+◌, ◌≤◌, length, string_bytes, IfOk, IfErr};
ghost use Rattle.base_model.specs.InfoFiles.{IsArchiveInfo, IsBackupInfo, IsCluster, info_limit};
ghost use Rattle.base_model.specs.InfoText.{info_text};
ghost use Rattle.base_model.specs.Values.{archive_info_of, backup_info_of};
ghost use Rattle.repo_stanza.specs.LongerTexts.{archive_with, list_with, IsTooLong, LongerTooLong};
ghost use Rattle.repo_stanza.specs.Upgrading.{longer_archive, longer_list};

use crate::names::{archive_info_name, backup_info_name};
use crate::pair_rules::identity_of;
use crate::upgrade_fault::UpgradeFault;
use base_model::{ArchiveInfo, BackupInfo, Cluster};
use repo_info::ReadInfo;
use repo_ini::write_info_text;
use std::alloc::{AllocError, Global};

/// The texts of a stanza's two pairs.
#[derive(Drop)]
pub(crate) struct PairTexts {
    pub archive: Vec<u8>,
    pub backup: Vec<u8>,
}

fn longer_archive(mut archive: ArchiveInfo, cluster: &Cluster) -> Result<ArchiveInfo, AllocError>
    ensures { IfOk result (λ v. archive_info_of v ≡ longer_archive (archive_info_of archive) cluster.now) }
{
    archive.history.push(identity_of(cluster))?;
    archive.current = cluster.id;
    Ok(archive)
}

fn longer_list(mut list: BackupInfo, cluster: &Cluster) -> Result<BackupInfo, AllocError>
    ensures { IfOk result (λ v. backup_info_of v ≡ longer_list (backup_info_of list) cluster.now) }
{
    list.history.push(*cluster)?;
    list.current = cluster.id;
    Ok(list)
}

// The text of a value, whose main member has this name.
fn text_of<I: ReadInfo>(alloc: Global, name: String, value: &I) -> Result<Vec<u8>, UpgradeFault>
    requires { I.is_valid value.now }
    ensures text { IfOk result (λ t. t.items ≡ info_text (I.sections value.now)) }
    ensures within { IfOk result (λ t. length t.items ≤ I.limit) }
    ensures long { IfErr result (IsTooLong I.limit (string_bytes name) (info_text (I.sections value.now))) }
{
    let parts = value.parts(alloc)?;
    let text = write_info_text(alloc, &parts)?;
    let limit = I::limit();
    if text.len() as u64 > limit {
        return Err(UpgradeFault::TooLong { name, limit });
    }
    Ok(text)
}

/// The texts of the two values with this cluster, the backup pair's first.
pub(crate) fn longer_texts(
    alloc: Global,
    stanza: &str,
    archive: ArchiveInfo,
    list: BackupInfo,
    cluster: &Cluster,
) -> Result<PairTexts, UpgradeFault>
    requires archive { IsArchiveInfo (archive_info_of archive) }
    requires list { IsBackupInfo (backup_info_of list) }
    requires cluster { IsCluster cluster.now }
    requires next { cluster.now.id ≡ length archive.history.items + 1 }
    requires same { length list.history.items ≡ length archive.history.items }
    ensures archive { IfOk result (λ t. t.archive.items ≡ archive_with archive cluster.now) }
    ensures backup { IfOk result (λ t. t.backup.items ≡ list_with list cluster.now) }
    ensures archive_within { IfOk result (λ t. length (archive_with archive cluster.now) ≤ info_limit) }
    ensures backup_within { IfOk result (λ t. length (list_with list cluster.now) ≤ info_limit) }
    ensures long { IfErr result (LongerTooLong stanza.now archive list cluster.now) }
{
    let list = longer_list(list, cluster)?;
    let backup = text_of(alloc, backup_info_name(alloc, stanza)?, &list)?;
    let archive = longer_archive(archive, cluster)?;
    let archive = text_of(alloc, archive_info_name(alloc, stanza)?, &archive)?;
    Ok(PairTexts { archive, backup })
}
