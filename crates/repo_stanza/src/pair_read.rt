// Reads the two pairs of a stanza, which fit together or are refused.
ghost use Rattle.std.specs.Prelude.{IfOk, IfErr, IfSome, IfNone};
ghost use Rattle.base_devices.specs.States.{OnlyReads};
ghost use Rattle.base_model.specs.Pair.{PairAbsent};
ghost use Rattle.base_model.specs.Values.{archive_info_of, backup_info_of};
ghost use Rattle.base_model.specs.InfoFiles.{IsArchiveInfo, IsBackupInfo, IsLabel};
ghost use Rattle.repo_stanza.specs.Pairs.{LacksStanza};
ghost use Rattle.repo_stanza.specs.Judging.{Refuses, StateNothing, KeepsValues, AreKept, PairHolds};
ghost use Rattle.repo_stanza.specs.Causes.{CreateFails, ReadFails, IfLost};

use crate::control::Control;
use crate::fault::StanzaFault;
use crate::names::{archive_info_name, backup_info_name};
use crate::pair_rules::{PairValues, fit, lists_nothing};
use base_devices::Disk;
use base_model::{ArchiveInfo, BackupInfo};
use repo_info::{MemberFault, ReadInfo};
use repo_pair::{InfoFault, load_pair};
use std::alloc::Global;

// The value of a pair, or none where neither member is there.
fn read_pair<D: Disk, I: ReadInfo>(
    alloc: Global,
    d: &mut D,
    name: &str,
) -> Result<Option<I>, StanzaFault>
    ensures found { IfOk result (λ o. IfSome o (λ v. PairHolds I.IsText name.now (D.state d.old) (I.value v))) }
    ensures missing { IfOk result (λ o. IfNone o (IfSome (D.state d.old).view.now (λ f. PairAbsent f name.now))) }
    ensures valid { IfOk result (λ o. IfSome o I.is_valid) }
    ensures looks { OnlyReads (D.state d.old) (D.state d.new) }
    ensures cause { IfErr result
        (ReadFails I.IsText I.IsForm I.limit name.now (D.state d.old) (D.state d.new)) }
    ensures label { IfErr result (λ e. IfLost e IsLabel) }
{
    match load_pair::<D, I>(alloc, d, name) {
        Ok(value) => Ok(Some(value)),
        Err(InfoFault::Missing) => Ok(None),
        Err(InfoFault::Damaged { main, copy }) => Err(StanzaFault::InfoDamaged {
            name: String::from_str(alloc, name)?,
            main,
            copy,
        }),
        Err(InfoFault::Disk) => Err(StanzaFault::Disk),
        Err(InfoFault::NoMemory) => Err(StanzaFault::NoMemory),
    }
}

// What the two values state; the name is that of the backup pair's main member.
fn judge(
    archive: Option<ArchiveInfo>,
    backup: Option<BackupInfo>,
    name: String,
    known: &Control,
) -> Result<Option<PairValues>, StanzaFault>
    requires archive { IfSome archive (λ a. IsArchiveInfo (archive_info_of a)) }
    requires backup { IfSome backup (λ b. IsBackupInfo (backup_info_of b)) }
    ensures nothing { IfOk result (λ o. IfNone o (StateNothing archive backup)) }
    ensures kept { IfOk result (λ o. IfSome o (KeepsValues known.now archive backup)) }
    ensures archive { IfOk result (λ o. IfSome o (λ k. IsArchiveInfo (archive_info_of k.archive))) }
    ensures backup { IfOk result (λ o. IfSome o (λ k. IsBackupInfo (backup_info_of k.backup))) }
    ensures refused { IfErr result (Refuses known.now archive backup name) }
    ensures label { IfErr result (λ e. IfLost e IsLabel) }
{
    match (archive, backup) {
        (None, None) => Ok(None),
        (None, Some(backup)) => {
            lists_nothing(&backup)?;
            Ok(None)
        }
        (Some(_), None) => Err(StanzaFault::InfoDamaged {
            name,
            main: MemberFault::Absent,
            copy: MemberFault::Absent,
        }),
        (Some(archive), Some(backup)) => Ok(Some(fit(archive, backup, known)?)),
    }
}

/// What is kept of the stanza's two pairs, or none where there is no stanza. Nothing is written.
pub(crate) fn look<D: Disk>(
    alloc: Global,
    d: &mut D,
    stanza: &str,
    known: &Control,
) -> Result<Option<PairValues>, StanzaFault>
    ensures lacking { IfOk result (λ o. IfNone o (IfSome (D.state d.old).view.now (LacksStanza stanza.now))) }
    ensures kept { IfOk result (λ o. IfSome o (AreKept stanza.now known.now (D.state d.old))) }
    ensures archive { IfOk result (λ o. IfSome o (λ k. IsArchiveInfo (archive_info_of k.archive))) }
    ensures backup { IfOk result (λ o. IfSome o (λ k. IsBackupInfo (backup_info_of k.backup))) }
    ensures looks { OnlyReads (D.state d.old) (D.state d.new) }
    ensures cause { IfErr result (CreateFails stanza.now known.now (D.state d.old) (D.state d.new)) }
    ensures label { IfErr result (λ e. IfLost e IsLabel) }
{
    let archive_name = archive_info_name(alloc, stanza)?;
    let backup_name = backup_info_name(alloc, stanza)?;
    let archive = read_pair::<D, ArchiveInfo>(alloc, d, archive_name.as_str())?;
    let backup = read_pair::<D, BackupInfo>(alloc, d, backup_name.as_str())?;
    judge(archive, backup, backup_name, known)
}
