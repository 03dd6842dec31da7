// What an expiry is going to leave in the backup pair.
ghost use Rattle.std.specs.Prelude.{◌≡◌, ◌≤◌, IfOk, IfErr, length};
ghost use Rattle.std.specs.List.{AllByRecursion};
ghost use Rattle.base_devices.specs.States.{OnlyReads};
ghost use Rattle.base_model.specs.Values.{archive_info_of, backup_info_of};
ghost use Rattle.base_model.specs.InfoFiles.{IsArchiveInfo, IsBackupInfo, IsLabel, info_limit};
ghost use Rattle.expire_rules.specs.Condemned.{condemned_labels};
ghost use Rattle.repo_stanza.specs.Judging.{HoldsList};
ghost use Rattle.expire_make.specs.Planning.{HoldsArchivePair, HoldsBackupPair, PlansFor, left_of, list_text};
ghost use Rattle.expire_make.specs.Fault.{ExpiryFails};

use crate::fault::ExpireFault;
use crate::labels::without;
use base_devices::Disk;
use base_model::{ArchiveInfo, BackupInfo, Label};
use base_text::NoMemory;
use expire_rules::{Rules, expired};
use repo_pair::load_pair;
use repo_stanza::{archive_info_name, backup_info_name, validate_list};
use std::alloc::Global;

/// The labels that expire, what is left of the backup pair's value, and the archive pair's value.
#[derive(Drop)]
pub(crate) struct Planned {
    pub labels: Vec<Label>,
    pub left: BackupInfo,
    pub archive: ArchiveInfo,
}

// The value without the backups that the rules expire, and their labels.
fn shorten(
    alloc: Global,
    value: BackupInfo,
    rules: &Rules,
    moment: u64,
) -> Result<(Vec<Label>, BackupInfo), NoMemory>
    requires valid { IsBackupInfo (backup_info_of value) }
    requires within { length (list_text (backup_info_of value)) ≤ info_limit }
    ensures labels { IfOk result (λ r. r.0.items
        ≡ condemned_labels rules.now moment (backup_info_of value).backups) }
    ensures are_labels { IfOk result (λ r. AllByRecursion IsLabel r.0.items) }
    ensures left { IfOk result (λ r. backup_info_of r.1 ≡ left_of rules.now moment (backup_info_of value)) }
    ensures valid { IfOk result (λ r. IsBackupInfo (backup_info_of r.1)) }
    ensures within { IfOk result (λ r. length (list_text (backup_info_of r.1)) ≤ info_limit) }
{
    let labels = expired(alloc, &value.backups, rules, moment)?;
    let backups = without(value.backups, &labels);
    let left = BackupInfo {
        current: value.current,
        history: value.history,
        backups,
    };
    Ok((labels, left))
}

// The value of the archive pair.
fn clusters<D: Disk>(alloc: Global, d: &mut D, stanza: &str) -> Result<ArchiveInfo, ExpireFault>
    ensures found { IfOk result (λ v. HoldsArchivePair stanza.now (archive_info_of v) (D.state d.old)) }
    ensures valid { IfOk result (λ v. IsArchiveInfo (archive_info_of v)) }
    ensures looks { OnlyReads (D.state d.old) (D.state d.new) }
    ensures cause { IfErr result (ExpiryFails stanza.now (D.state d.old) (D.state d.new)) }
{
    let name = archive_info_name(alloc, stanza)?;
    let value = load_pair::<D, ArchiveInfo>(alloc, d, name.as_str())?;
    Ok(value)
}

// The value of the backup pair.
fn backups<D: Disk>(alloc: Global, d: &mut D, stanza: &str) -> Result<BackupInfo, ExpireFault>
    ensures found { IfOk result (λ v. HoldsBackupPair stanza.now (backup_info_of v) (D.state d.old)) }
    ensures valid { IfOk result (λ v. IsBackupInfo (backup_info_of v)) }
    ensures within { IfOk result (λ v. length (list_text (backup_info_of v)) ≤ info_limit) }
    ensures looks { OnlyReads (D.state d.old) (D.state d.new) }
    ensures cause { IfErr result (ExpiryFails stanza.now (D.state d.old) (D.state d.new)) }
{
    let name = backup_info_name(alloc, stanza)?;
    let value = load_pair::<D, BackupInfo>(alloc, d, name.as_str())?;
    Ok(value)
}

/// The value of the archive pair, and the list to which that of the backup pair validates.
pub(crate) fn read_list<D: Disk>(
    alloc: Global,
    d: &mut D,
    stanza: &str,
) -> Result<(ArchiveInfo, BackupInfo), ExpireFault>
    ensures found { IfOk result
        (λ v. HoldsList stanza.now (archive_info_of v.0) (backup_info_of v.1) (D.state d.old)) }
    ensures valid { IfOk result (λ v. IsBackupInfo (backup_info_of v.1)) }
    ensures within { IfOk result (λ v. length (list_text (backup_info_of v.1)) ≤ info_limit) }
    ensures looks { OnlyReads (D.state d.old) (D.state d.new) }
    ensures cause { IfErr result (ExpiryFails stanza.now (D.state d.old) (D.state d.new)) }
{
    let archive = clusters(alloc, d, stanza)?;
    let backup = backups(alloc, d, stanza)?;
    let list = validate_list(&archive, backup)?;
    Ok((archive, list))
}

/// What an expiry at a moment is going to leave of a list.
pub(crate) fn plan(
    alloc: Global,
    archive: ArchiveInfo,
    list: BackupInfo,
    rules: &Rules,
    moment: u64,
) -> Result<Planned, NoMemory>
    requires valid { IsBackupInfo (backup_info_of list) }
    requires within { length (list_text (backup_info_of list)) ≤ info_limit }
    ensures labels { IfOk result (λ p. AllByRecursion IsLabel p.labels.items) }
    ensures valid { IfOk result (λ p. IsBackupInfo (backup_info_of p.left)) }
    ensures within { IfOk result (λ p. length (list_text (backup_info_of p.left)) ≤ info_limit) }
    ensures planned { IfOk result
        (λ p. PlansFor (archive_info_of archive) (backup_info_of list) rules.now moment p) }
{
    let (labels, left) = shorten(alloc, list, rules, moment)?;
    Ok(Planned {
        labels,
        left,
        archive,
    })
}
