// Makes a backup: its bytes, its manifest, and the stanza's list.
ghost use Rattle.std.specs.Prelude.{◌≡◌, ◌<◌, ◌≤◌, ◌^◌, vec_len, IfErr, OnOk};
ghost use Rattle.base_devices.specs.States.{CallsProperly};
ghost use Rattle.base_crash_lists.specs.Beside.{StaysBeside};
ghost use Rattle.worker_pool.specs.Pools.{LeavesLinksAfter, ReportsLosses, links_in};
ghost use Rattle.worker_pool.specs.Run.{AreReady};
ghost use Rattle.backup_make.specs.Draft.{IsDraft, jobs_in, main_of};
ghost use Rattle.backup_make.specs.Made.{LeavesAlike};
ghost use Rattle.backup_make.specs.Storing.{MakesOutcome, MakingFails};
ghost use Rattle.backup_make.specs.Touched.{TouchesBackup};

use crate::backup_close::close;
use crate::draft::Draft;
use crate::draft_jobs::fetch;
use crate::fault::MakeFault;
use crate::list_entry::publish;
use base_devices::{Clock, Disk, Link, Scheduler};
use std::alloc::Global;
use worker_pool::Pool;

/// Stores what the draft's jobs ask for in the folder of its label, saves the label's manifest, and then the stanza's
/// list with the backup.
pub fn make<D: Disk, L: Link, U: Scheduler, C: Clock>(
    alloc: Global,
    d: &mut D,
    pool: &mut Pool<L, U>,
    clock: &mut C,
    draft: Draft<'_>,
) -> Result<(), MakeFault>
    requires draft { IsDraft draft }
    requires few { vec_len pool.old.links < 2 ^ 32 }
    requires ready { AreReady (links_in L.link_state pool.old) }

    // The stanza's list is unchanged, or the backup is listed, of the bytes that the links read; and so it is in what a
    // crash leaves, at each moment. At Ok both members of the list's pair have it, and at an error it may be listed
    // only where the disk failed or memory ran out. It is listed with a second of its stop that the clock showed.
    // Nothing is changed that isn't of this backup, or of the list's pair.
    ensures made { MakesOutcome result draft.entry L.link_state pool.old D.state d.old d.new
        C.state clock.old clock.new }
    ensures alike { OnOk result (LeavesAlike (main_of draft.entry) (D.state d.old) (D.state d.new)) }
    ensures only { TouchesBackup draft.entry (D.state d.old) (D.state d.new) }
    ensures beside { StaysBeside draft.entry.stanza.now (D.state d.old).view (D.state d.new).view }
    ensures frame { CallsProperly (D.state d.old) (D.state d.new) }
    ensures later { (C.state clock.old).faults ≤ (C.state clock.new).faults }
    ensures least { (C.state clock.old).least ≤ (C.state clock.new).least }

    // Each link that was lost is reported, and at Ok the others are left.
    ensures left { OnOk result (LeavesLinksAfter (jobs_in draft.entry) L.link_state pool.old pool.new) }
    ensures known { ReportsLosses (jobs_in draft.entry) L.link_state pool.old pool.new }
    ensures fault { IfErr result (MakingFails draft.entry L.link_state pool.old pool.new D.state d.old d.new
        C.state clock.old clock.new) }
{
    let fetched = fetch(alloc, d, pool, draft)?;
    let closed = close(clock, fetched)?;
    publish(alloc, d, closed)
}
