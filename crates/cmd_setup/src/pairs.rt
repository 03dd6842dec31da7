// Reads or heals the stanza's info pairs.
ghost use Rattle.std.specs.Prelude.{◌≡◌, string_bytes, OnOk, IfOk, IfErr, IfSome};
ghost use Rattle.base_devices.specs.States.{CallsProperly, OnlyReads};
ghost use Rattle.base_model.specs.Names.{archive_info};
ghost use Rattle.archive_store.specs.Still.{IsStill};
ghost use Rattle.cmd_types.specs.declared.stages.plan.Pairs.TheVariants.{HealArchive as Healing};
ghost use Rattle.cmd_types.specs.Current.{AgreesAtPair, ArchiveCause, BackupCause};
ghost use Rattle.cmd_types.specs.Plans.{Heals, OnReading, AreHealed};
ghost use Rattle.cmd_types.specs.DisksEffect.{HealsPair};
ghost use Rattle.cmd_setup.specs.Readies.{has_archive, has_backup, FitsLimit, IfAsked, IsArchiveOf, IsBackupOf};
ghost use Rattle.cmd_setup.specs.Stages.{IsArchiveFault, ArchivePairCause, NoArchive, NoBackup, RepoCause};
ghost use Rattle.cmd_setup.specs.Calls.{ChangesPair, KeepsArchivePair, StaysSynced};

use base_devices::Disk;
use base_model::{ArchiveInfo, BackupInfo};
use cmd_types::{Halt, Object, Pairs, StageFault};
use repo_info::MemberFault;
use repo_pair::{InfoFault, heal_pair, load_pair};
use repo_stanza::{archive_info_name, backup_info_name};
use std::alloc::Global;

// How a call on the archive pair ends at this fault.
fn archive_fault(alloc: Global, stanza: &str, name: String, fault: InfoFault) -> Halt<StageFault>
    requires { string_bytes name ≡ archive_info stanza.now }
    ensures { IsArchiveFault stanza.now fault result }
{
    match fault {
        InfoFault::Missing => match String::from_str(alloc, stanza) {
            Ok(stanza) => Halt::Refused(StageFault::StanzaMissing { stanza }),
            Err(_) => Halt::NoMemory,
        },
        InfoFault::Damaged { main, copy } => {
            Halt::Refused(StageFault::InfoDamaged { name, main, copy })
        }
        InfoFault::Disk => Halt::Failed(Object::Repo),
        InfoFault::NoMemory => Halt::NoMemory,
    }
}

// The value of the archive pair, of which nothing is healed.
fn read_archive<D: Disk>(
    alloc: Global,
    repo: &mut D,
    stanza: &str,
) -> Result<ArchiveInfo, Halt<StageFault>>
    ensures found { IfOk result (IsArchiveOf stanza.now (D.state repo.old).view.now) }
    ensures looks { OnlyReads (D.state repo.old) (D.state repo.new) }
    ensures cause { IfErr result (RepoCause (ArchiveCause stanza.now) (D.state repo.old) (D.state repo.new)) }
{
    let name = archive_info_name(alloc, stanza)?;
    match load_pair(alloc, repo, name.as_str()) {
        Ok(info) => Ok(info),
        Err(fault) => Err(archive_fault(alloc, stanza, name, fault)),
    }
}

// The same for a pair that is healed.
fn heal_pair_at<D: Disk>(
    alloc: Global,
    repo: &mut D,
    stanza: &str,
    name: &str,
) -> Result<ArchiveInfo, InfoFault>
    requires { name.now ≡ archive_info stanza.now }
    ensures found { IfOk result (IsArchiveOf stanza.now (D.state repo.new).view.now) }
    ensures agrees { OnOk result (IfSome (D.state repo.new).view.now (AgreesAtPair stanza.now)) }
    ensures heals_pair { HealsPair stanza.now (D.state repo.old).view (D.state repo.new).view }
    ensures synced { StaysSynced stanza.now (D.state repo.old).view (D.state repo.new).view }
    ensures changes { ChangesPair stanza.now (D.state repo.old).view (D.state repo.new).view }
    ensures lasts { OnOk result (KeepsArchivePair stanza.now (D.state repo.old) (D.state repo.new)) }
    ensures only { OnOk result (Heals Healing stanza.now (D.state repo.old).view.now (D.state repo.new).view.now) }
    ensures frame { CallsProperly (D.state repo.old) (D.state repo.new) }
    ensures cause { IfErr result (ArchivePairCause stanza.now (D.state repo.old) (D.state repo.new)) }
{
    let info = heal_pair(alloc, repo, name)?;
    Ok(info)
}

// The value of the archive pair, which is healed.
fn heal_archive<D: Disk>(
    alloc: Global,
    repo: &mut D,
    stanza: &str,
) -> Result<ArchiveInfo, Halt<StageFault>>
    ensures found { IfOk result (IsArchiveOf stanza.now (D.state repo.new).view.now) }
    ensures agrees { OnOk result (IfSome (D.state repo.new).view.now (AgreesAtPair stanza.now)) }
    ensures heals_pair { HealsPair stanza.now (D.state repo.old).view (D.state repo.new).view }
    ensures synced { StaysSynced stanza.now (D.state repo.old).view (D.state repo.new).view }
    ensures changes { ChangesPair stanza.now (D.state repo.old).view (D.state repo.new).view }
    ensures lasts { OnOk result (KeepsArchivePair stanza.now (D.state repo.old) (D.state repo.new)) }
    ensures only { OnOk result (Heals Healing stanza.now (D.state repo.old).view.now (D.state repo.new).view.now) }
    ensures frame { CallsProperly (D.state repo.old) (D.state repo.new) }
    ensures cause { IfErr result (RepoCause (ArchiveCause stanza.now) (D.state repo.old) (D.state repo.new)) }
{
    let name = archive_info_name(alloc, stanza)?;
    match heal_pair_at(alloc, repo, stanza, name.as_str()) {
        Ok(info) => Ok(info),
        Err(fault) => Err(archive_fault(alloc, stanza, name, fault)),
    }
}

// The value of the backup pair, of which nothing is healed. It is missed where neither member is there.
fn read_backup<D: Disk>(
    alloc: Global,
    repo: &mut D,
    stanza: &str,
) -> Result<BackupInfo, Halt<StageFault>>
    ensures found { IfOk result (IsBackupOf stanza.now (D.state repo.old).view.now) }
    ensures fits { IfOk result FitsLimit }
    ensures looks { OnlyReads (D.state repo.old) (D.state repo.new) }
    ensures cause { IfErr result (RepoCause (BackupCause stanza.now) (D.state repo.old) (D.state repo.new)) }
{
    let name = backup_info_name(alloc, stanza)?;
    match load_pair(alloc, repo, name.as_str()) {
        Ok(info) => Ok(info),
        Err(InfoFault::Missing) => Err(Halt::Refused(StageFault::InfoDamaged {
            name,
            main: MemberFault::Absent,
            copy: MemberFault::Absent,
        })),
        Err(InfoFault::Damaged { main, copy }) => {
            Err(Halt::Refused(StageFault::InfoDamaged { name, main, copy }))
        }
        Err(InfoFault::Disk) => Err(Halt::Failed(Object::Repo)),
        Err(InfoFault::NoMemory) => Err(Halt::NoMemory),
    }
}

/// The value of the archive pair, where it is asked for.
pub(crate) fn archive_by<D: Disk>(
    alloc: Global,
    repo: &mut D,
    stanza: &str,
    pairs: Pairs,
) -> Result<Option<ArchiveInfo>, Halt<StageFault>>
    ensures found { IfOk result (IfAsked (has_archive pairs) (IsArchiveOf stanza.now (D.state repo.new).view.now)) }
    ensures healed { OnOk result (IfSome (D.state repo.new).view.now (AreHealed pairs stanza.now)) }
    ensures heals { OnOk result (Heals pairs stanza.now (D.state repo.old).view.now (D.state repo.new).view.now) }
    ensures heals_pair { HealsPair stanza.now (D.state repo.old).view (D.state repo.new).view }
    ensures synced { StaysSynced stanza.now (D.state repo.old).view (D.state repo.new).view }
    ensures changes { ChangesPair stanza.now (D.state repo.old).view (D.state repo.new).view }
    ensures lasts { OnOk result (KeepsArchivePair stanza.now (D.state repo.old) (D.state repo.new)) }
    ensures still { OnReading pairs (IsStill (D.state repo.old).view (D.state repo.new).view) }
    ensures frame { CallsProperly (D.state repo.old) (D.state repo.new) }
    ensures cause { IfErr result (RepoCause (NoArchive pairs stanza.now) (D.state repo.old) (D.state repo.new)) }
{
    match pairs {
        Pairs::Unread => Ok(None),
        Pairs::ReadArchive | Pairs::ReadBoth => Ok(Some(read_archive(alloc, repo, stanza)?)),
        Pairs::HealArchive => Ok(Some(heal_archive(alloc, repo, stanza)?)),
    }
}

/// The value of the backup pair, where it is asked for.
pub(crate) fn backup_by<D: Disk>(
    alloc: Global,
    repo: &mut D,
    stanza: &str,
    pairs: Pairs,
) -> Result<Option<BackupInfo>, Halt<StageFault>>
    ensures found { IfOk result (IfAsked (has_backup pairs) (IsBackupOf stanza.now (D.state repo.old).view.now)) }
    ensures fits { IfOk result (IfAsked (has_backup pairs) FitsLimit) }
    ensures looks { OnlyReads (D.state repo.old) (D.state repo.new) }
    ensures cause { IfErr result (RepoCause (NoBackup pairs stanza.now) (D.state repo.old) (D.state repo.new)) }
{
    match pairs {
        Pairs::ReadBoth => Ok(Some(read_backup(alloc, repo, stanza)?)),
        Pairs::Unread | Pairs::ReadArchive | Pairs::HealArchive => Ok(None),
    }
}
