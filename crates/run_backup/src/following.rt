// The expiry that follows a backup.
ghost use Rattle.std.specs.Prelude.{◌≡◌, ◌≤◌, ◌∷◌, []};
ghost use Rattle.base_devices.specs.States.{CallsProperly};
ghost use Rattle.cmd_types.specs.Plans.{backup_lock};
ghost use Rattle.run_backup.specs.Followed.{FollowsBackup};

use crate::fault::{BackupCommandFault, of_backup};
use base_devices::{Clock, Disk, Locks};
use cmd_expire::expire_after;
use cmd_types::{Halt, Outcome};
use expire_rules::Rules;
use std::alloc::Global;

/// Where there are rules, and the backup ended with lines: removes what the rules expire, and reports it after these
/// lines. Otherwise nothing is done, and the command ends as the backup did. As long as it has the lock nobody can
/// release it.
pub(crate) fn expire_next<D: Disk, C: Clock, K: Locks, E>(
    alloc: Global,
    repo: &mut D,
    clock: &mut C,
    locks: &K,
    stanza: &str,
    expires: &Option<Rules>,
    made: Result<Outcome, Halt<E>>,
) -> Result<Outcome, Halt<BackupCommandFault<E>>>
    requires locked { (K.state locks.now).taken ≡ backup_lock stanza.now ∷ [] }
    ensures followed { FollowsBackup stanza.now expires.now made D.state repo.old repo.new C.state clock.old clock.new
        result }
    ensures frame { CallsProperly (D.state repo.old) (D.state repo.new) }
    ensures later { (C.state clock.old).faults ≤ (C.state clock.new).faults }
{
    let mut lines = match made {
        Ok(Outcome::Finished { lines }) => lines,
        Ok(Outcome::Absent { name }) => return Ok(Outcome::Absent { name }),
        Ok(Outcome::FindingsFound { lines, count }) => {
            return Ok(Outcome::FindingsFound { lines, count });
        }
        Err(halt) => return Err(of_backup(halt)),
    };
    let Some(rules) = expires else {
        return Ok(Outcome::Finished { lines });
    };
    match expire_after(alloc, repo, clock, locks, stanza, rules, &mut lines) {
        Ok(()) => Ok(Outcome::Finished { lines }),
        Err(fault) => Err(Halt::Refused(BackupCommandFault::FollowUp { lines, fault })),
    }
}
