// Makes the backup.
ghost use Rattle.std.specs.Prelude.{◌≡◌, ◌≤◌, ◌<◌, ◌^◌, vec_len, IfOk, IfErr, OnOk};
ghost use Rattle.base_devices.specs.States.{CallsProperly};
ghost use Rattle.base_model.specs.InfoFiles.{IsBackupInfo};
ghost use Rattle.base_model.specs.Values.{backup_info_of};
ghost use Rattle.base_crash_lists.specs.Beside.{StaysBeside};
ghost use Rattle.worker_pool.specs.Pools.{links_in};
ghost use Rattle.worker_pool.specs.Run.{AreReady};
ghost use Rattle.cmd_backup_offline.specs.Basis.{IsBasisAt, MayBeBasis};
ghost use Rattle.cmd_backup_offline.specs.Tasks.{DoesBackup, MakesBackup, MakingHalts};
ghost use Rattle.cmd_backup_offline.specs.Touching.{CopiesLast, TouchesOne};

use crate::offline_draft::draft_offline;
use crate::order::BackupBasis;
use base_devices::{Clock, Disk, Link, Scheduler};
use cmd_backup_common::{BackupFault, Begun, finish};
use cmd_types::{Halt, Outcome};
use std::alloc::Global;
use worker_pool::Pool;

/// Makes the backup of what the listing shows, besides those of the list, on this basis.
pub(crate) fn make_offline<D: Disk, L: Link, U: Scheduler, C: Clock>(
    alloc: Global,
    repo: &mut D,
    pool: &mut Pool<L, U>,
    clock: &mut C,
    basis: &BackupBasis<'_>,
    begun: Begun,
) -> Result<Outcome, Halt<BackupFault>>
    requires few { vec_len pool.old.links < 2 ^ 32 }
    requires ready { AreReady (links_in L.link_state pool.old) }
    requires list { IsBackupInfo (backup_info_of begun.list) }
    requires old { MayBeBasis basis.now begun.list }
    requires from { IsBasisAt basis.now begun.list (D.state repo.old) }
    // In the log it is a backup of what the links read, and, unless it is a full one, of what its prior has.
    ensures does { DoesBackup basis.now L.link_state pool.old result D.state repo.old repo.new }
    ensures made { IfOk result (MakesBackup basis.now begun L.link_state pool.old D.state repo.old repo.new
        C.state clock.old clock.new) }
    ensures only { TouchesOne basis.now.stanza.now (D.state repo.old).view (D.state repo.new).view }
    ensures lasts { OnOk result (CopiesLast basis.now.stanza.now (D.state repo.old).view (D.state repo.new).view) }
    ensures beside { StaysBeside basis.now.stanza.now (D.state repo.old).view (D.state repo.new).view }
    ensures frame { CallsProperly (D.state repo.old) (D.state repo.new) }
    ensures later { (C.state clock.old).faults ≤ (C.state clock.new).faults }
    ensures least { (C.state clock.old).least ≤ (C.state clock.new).least }
    ensures cause { IfErr result (MakingHalts basis.now begun L.link_state pool.old D.state repo.old repo.new
        C.state clock.old clock.new) }
{
    let Begun { list, seen } = begun;
    let (draft, lines) = draft_offline(alloc, repo, pool, clock, basis, &seen, list)?;
    finish(alloc, repo, pool, clock, draft, lines)
}
