// expire: removes what the rules expire.
ghost use Rattle.std.specs.Prelude.{◌≡◌, ◌∷◌, [], ◌≤◌, false, length, IfOk, IfErr, OnOk};
ghost use Rattle.std.specs.List.{AllByRecursion};
ghost use Rattle.base_devices.specs.States.{DiskFailed, CallsProperly};
ghost use Rattle.base_disk.specs.Store.{ChangesOnly};
ghost use Rattle.base_model.specs.InfoFiles.{IsArchiveInfo, IsBackupInfo, IsLabel, info_limit};
ghost use Rattle.base_model.specs.Values.{archive_info_of, backup_info_of};
ghost use Rattle.base_crash_lists.specs.Beside.{StaysBeside};
ghost use Rattle.expire_make.specs.Expiry.{KeepsNeeded, ChangesTouched};
ghost use Rattle.expire_make.specs.Losing.{MayExpire};
ghost use Rattle.repo_stanza.specs.Judging.{HoldsList};
ghost use Rattle.expire_make.specs.Planning.{BackupPairLasts, list_text};
ghost use Rattle.cmd_types.specs.declared.stages.halt.Halt.TheVariants.{NoMemory as WithoutMemory};
ghost use Rattle.cmd_types.specs.declared.stages.object.Object.TheVariants.{Repo as TheRepo};
ghost use Rattle.cmd_types.specs.Halts.{HaltCause, Never, Only};
ghost use Rattle.cmd_types.specs.Plans.{backup_lock};
ghost use Rattle.cmd_types.specs.Reached.{OnFinished, reached_by};
ghost use Rattle.cmd_types.specs.DisksEffect.{OnNone};
ghost use Rattle.cmd_setup.specs.Readies.{IsArchiveOf, IsBackupOf, FitsLimit};
ghost use Rattle.cmd_expire.specs.Faults.{expire_early, ExpireCommandFails};
ghost use Rattle.cmd_expire.specs.Pruning.{counts_days, Differs, Prunes, ValidatesTo, IsNoLonger, DoesExpiry, FinishesExpired, StaysIfRefused};
ghost use Rattle.cmd_expire.specs.Texts.{lines_of};

use crate::fault::{ExpireCommandFault, of_expire, of_stanza};
use crate::lines::lines_of;
use crate::moment::moment_for;
use base_devices::{Clock, Disk, Locks};
use base_model::{ArchiveInfo, BackupInfo};
use cmd_types::{Halt, Outcome};
use expire_make::{Expired, expire_list};
use expire_rules::Rules;
use repo_stanza::validate_list;
use std::alloc::Global;

/// The values of the two info pairs.
#[derive(Drop)]
pub struct InfoValues {
    pub archive: ArchiveInfo,
    pub backup: BackupInfo,
}

// The list to which the backup pair's value validates.
fn settled(
    archive: &ArchiveInfo,
    backup: BackupInfo,
) -> Result<BackupInfo, Halt<ExpireCommandFault>>
    requires archive { IsArchiveInfo (archive_info_of archive.now) }
    requires backup { IsBackupInfo (backup_info_of backup) }
    ensures settled { IfOk result (ValidatesTo archive.now backup) }
    ensures valid { IfOk result (λ w. IsBackupInfo (backup_info_of w)) }
    ensures shorter { IfOk result (λ w. IsNoLonger w backup) }
    ensures cause { IfErr result
        (HaltCause (Differs (archive_info_of archive.now) (backup_info_of backup)) (λ _. ⊥)) }
{
    match validate_list(archive, backup) {
        Ok(list) => Ok(list),
        Err(fault) => Err(of_stanza(fault)),
    }
}

// How an expiry ends that removed this.
fn ended(alloc: Global, gone: &Expired) -> Result<Outcome, Halt<ExpireCommandFault>>
    requires { AllByRecursion IsLabel gone.now.labels.items }
    ensures lines { IfOk result (λ o. OnFinished o
        (λ lines. lines ≡ lines_of gone.now.labels.items gone.now.removed)) }
    ensures starved { IfErr result (λ h. h ≡ WithoutMemory) }
{
    match lines_of(alloc, gone) {
        Ok(lines) => Ok(Outcome::Finished { lines }),
        Err(_) => Err(Halt::NoMemory),
    }
}

// An expiry at a moment, with the lines that say what was removed.
fn expire_at<D: Disk>(
    alloc: Global,
    repo: &mut D,
    stanza: &str,
    rules: &Rules,
    moment: u64,
    archive: ArchiveInfo,
    list: BackupInfo,
) -> Result<Outcome, Halt<ExpireCommandFault>>
    requires list { HoldsList stanza.now (archive_info_of archive) (backup_info_of list) (D.state repo.old) }
    requires valid { IsBackupInfo (backup_info_of list) }
    requires within { length (list_text (backup_info_of list)) ≤ info_limit }
    ensures does { DoesExpiry stanza.now rules.now moment (D.state repo.old) (D.state repo.new) result }
    ensures back { OnNone (reached_by expire_early result) ⊥ }
    ensures pruned { IfOk result
        (FinishesExpired stanza.now rules.now moment (D.state repo.old) (D.state repo.new)) }
    ensures keeps { KeepsNeeded stanza.now rules.now moment (D.state repo.old) (D.state repo.new) }
    ensures touches { ChangesTouched stanza.now rules.now moment (D.state repo.old) (D.state repo.new) }
    ensures lasts { OnOk result (BackupPairLasts stanza.now (D.state repo.old).view (D.state repo.new).view) }
    ensures only { ChangesOnly (MayExpire stanza.now) (D.state repo.old).view (D.state repo.new).view }
    ensures beside { StaysBeside stanza.now (D.state repo.old).view (D.state repo.new).view }
    ensures frame { CallsProperly (D.state repo.old) (D.state repo.new) }
    ensures cause { IfErr result
        (HaltCause Never (Only TheRepo (DiskFailed (D.state repo.old) (D.state repo.new)))) }
{
    match expire_list(alloc, repo, stanza, rules, moment, archive, list) {
        Ok(gone) => ended(alloc, &gone),
        Err(fault) => Err(of_expire(fault)),
    }
}

/// Removes the backups that the rules expire, and the files of the archive that the backups left don't need, and
/// reports what was removed: a line for each backup, in the list's order, and one for the files. The clock is read
/// where the rules count days. As long as it has the lock nobody can release it.
pub fn expire_stanza<D: Disk, C: Clock, K: Locks>(
    alloc: Global,
    repo: &mut D,
    clock: &mut C,
    _locks: &K,
    stanza: &str,
    rules: &Rules,
    pairs: InfoValues,
) -> Result<Outcome, Halt<ExpireCommandFault>>
    requires locked { (K.state _locks.now).taken ≡ backup_lock stanza.now ∷ [] }
    requires archive { IsArchiveOf stanza.now (D.state repo.old).view.now pairs.archive }
    requires backup { IsBackupOf stanza.now (D.state repo.old).view.now pairs.backup }
    requires fits { FitsLimit pairs.backup }
    // In the log it is an expiry by these rules, at the moment that the clock showed.
    ensures pruned { Prunes stanza.now rules.now (C.state clock.old) (C.state clock.new) (D.state repo.old).view
        (D.state repo.new).view result }
    ensures refused { StaysIfRefused (D.state repo.old) (D.state repo.new) result }
    // Nothing changes but the backup pair, folders of labels, and files of the archive that aren't histories of
    // timelines.
    ensures only { ChangesOnly (MayExpire stanza.now) (D.state repo.old).view (D.state repo.new).view }
    ensures beside { StaysBeside stanza.now (D.state repo.old).view (D.state repo.new).view }
    ensures frame { CallsProperly (D.state repo.old) (D.state repo.new) }
    ensures unread { counts_days rules.now.full ≡ false → clock.new ≡ clock.old }
    ensures later { (C.state clock.old).faults ≤ (C.state clock.new).faults }
    ensures least { (C.state clock.old).least ≤ (C.state clock.new).least }
    ensures cause { IfErr result (ExpireCommandFails stanza.now (D.state repo.old) (D.state repo.new)
        (C.state clock.old) (C.state clock.new)) }
{
    let InfoValues { archive, backup } = pairs;
    let list = settled(&archive, backup)?;
    let moment = moment_for(clock, rules)?;
    expire_at(alloc, repo, stanza, rules, moment, archive, list)
}
