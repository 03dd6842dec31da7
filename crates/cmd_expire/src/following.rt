// The expiry that follows a backup.
ghost use Rattle.std.specs.Prelude.{◌≡◌, ◌∷◌, [], ◌≤◌, false, IfOk, IfErr, OnOk, OnErr, string_bytes};
ghost use Rattle.std.specs.List.{AllByRecursion};
ghost use Rattle.base_devices.specs.Cause.{Rises};
ghost use Rattle.base_devices.specs.States.{ClockFailed, CallsProperly};
ghost use Rattle.base_disk.specs.Store.{ChangesOnly};
ghost use Rattle.base_model.specs.InfoFiles.{IsLabel};
ghost use Rattle.base_crash_lists.specs.Beside.{StaysBeside};
ghost use Rattle.expire_make.specs.Expiry.{ExpiresPart, ExpiresAll, ChangesTouched};
ghost use Rattle.expire_make.specs.Planning.{BackupPairLasts};
ghost use Rattle.expire_make.specs.Losing.{MayExpire};
ghost use Rattle.cmd_types.specs.Plans.{backup_lock};
ghost use Rattle.cmd_expire.specs.declared.fault.FollowUpFault.TheVariants.{NoMemory as WithoutMemory};
ghost use Rattle.cmd_expire.specs.FollowUp.{AddsReport, AddsExpiry, FollowUpFails, ClockCause, Follows};
ghost use Rattle.cmd_expire.specs.Pruning.{counts_days, ShowsMoment};

use crate::fault::{FollowUpFault, of_after};
use crate::lines::lines_of;
use crate::moment::moment_for;
use base_devices::{Clock, Disk, Locks};
use cmd_types::Halt;
use expire_make::{Expired, expire};
use expire_rules::Rules;
use std::alloc::Global;

// The moment by which the rules are read.
fn moment_after<C: Clock>(clock: &mut C, rules: &Rules) -> Result<u64, FollowUpFault>
    ensures known { IfOk result (ShowsMoment rules.now.full (C.state clock.old) (C.state clock.new)) }
    ensures unread { counts_days rules.now.full ≡ false → clock.new ≡ clock.old }
    ensures later { (C.state clock.old).faults ≤ (C.state clock.new).faults }
    ensures least { (C.state clock.old).least ≤ (C.state clock.new).least }
    ensures cause { IfErr result (ClockCause (Rises (C.state clock.old).faults (C.state clock.new).faults)) }
{
    match moment_for(clock, rules) {
        Ok(moment) => Ok(moment),
        Err(Halt::NoMemory) => Err(FollowUpFault::NoMemory),
        Err(Halt::Refused(_) | Halt::Failed(_)) => Err(FollowUpFault::Clock),
    }
}

// Adds the lines that say what was removed.
fn add_lines(alloc: Global, gone: &Expired, lines: &mut String) -> Result<(), FollowUpFault>
    requires { AllByRecursion IsLabel gone.now.labels.items }
    ensures adds { OnOk result (AddsReport gone.now lines.old lines.new) }
    ensures stays { OnErr result (string_bytes lines.new ≡ string_bytes lines.old) }
    ensures starved { IfErr result (λ fault. fault ≡ WithoutMemory) }
{
    let more = match lines_of(alloc, gone) {
        Ok(more) => more,
        Err(_) => return Err(FollowUpFault::NoMemory),
    };
    match lines.push_str(&more) {
        Ok(()) => Ok(()),
        Err(_) => Err(FollowUpFault::NoMemory),
    }
}

// An expiry at a moment, after a backup.
fn after_at<D: Disk>(
    alloc: Global,
    repo: &mut D,
    stanza: &str,
    rules: &Rules,
    moment: u64,
    lines: &mut String,
) -> Result<(), FollowUpFault>
    ensures part { ExpiresPart stanza.now rules.now moment (D.state repo.old) (D.state repo.new) }
    ensures whole { OnOk result (ExpiresAll stanza.now rules.now moment (D.state repo.old) (D.state repo.new)) }
    ensures pruned { OnOk result
        (AddsExpiry stanza.now rules.now moment (D.state repo.old) (D.state repo.new) lines.old lines.new) }
    ensures stays { OnErr result (string_bytes lines.new ≡ string_bytes lines.old) }
    ensures touches { ChangesTouched stanza.now rules.now moment (D.state repo.old) (D.state repo.new) }
    ensures lasts { OnOk result (BackupPairLasts stanza.now (D.state repo.old).view (D.state repo.new).view) }
    ensures only { ChangesOnly (MayExpire stanza.now) (D.state repo.old).view (D.state repo.new).view }
    ensures beside { StaysBeside stanza.now (D.state repo.old).view (D.state repo.new).view }
    ensures frame { CallsProperly (D.state repo.old) (D.state repo.new) }
    ensures cause { IfErr result (FollowUpFails stanza.now (D.state repo.old) (D.state repo.new) ⊥) }
{
    match expire(alloc, repo, stanza, rules, moment) {
        Ok(gone) => add_lines(alloc, &gone, lines),
        Err(fault) => Err(of_after(fault)),
    }
}

/// Removes what the rules expire, after a backup that succeeded and left the whole stanza synced: both pairs are
/// read anew, and the clock where the rules count days. What was removed is reported after the lines. As long as it has
/// the lock nobody can release it.
pub fn expire_after<D: Disk, C: Clock, K: Locks>(
    alloc: Global,
    repo: &mut D,
    clock: &mut C,
    _locks: &K,
    stanza: &str,
    rules: &Rules,
    lines: &mut String,
) -> Result<(), FollowUpFault>
    requires locked { (K.state _locks.now).taken ≡ backup_lock stanza.now ∷ [] }
    // In the log it is an expiry by these rules, at the moment that the clock showed. Of the list that the backup left
    // it touches no folder of a label that stays, and no file that is needed then.
    ensures follows { Follows stanza.now rules.now (C.state clock.old) (C.state clock.new) (D.state repo.old).view
        (D.state repo.new).view (string_bytes lines.old) (string_bytes lines.new) result }
    // Nothing changes but the backup pair, folders of labels, and files of the archive that aren't histories of
    // timelines.
    ensures only { ChangesOnly (MayExpire stanza.now) (D.state repo.old).view (D.state repo.new).view }
    ensures beside { StaysBeside stanza.now (D.state repo.old).view (D.state repo.new).view }
    ensures frame { CallsProperly (D.state repo.old) (D.state repo.new) }
    ensures unread { counts_days rules.now.full ≡ false → clock.new ≡ clock.old }
    ensures later { (C.state clock.old).faults ≤ (C.state clock.new).faults }
    ensures least { (C.state clock.old).least ≤ (C.state clock.new).least }
    ensures cause { IfErr result (FollowUpFails stanza.now (D.state repo.old) (D.state repo.new)
        (ClockFailed (C.state clock.old) (C.state clock.new))) }
{
    let moment = moment_after(clock, rules)?;
    after_at(alloc, repo, stanza, rules, moment, lines)
}
