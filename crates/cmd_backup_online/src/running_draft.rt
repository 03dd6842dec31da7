// What the backup is to be made of.
ghost use Rattle.std.specs.Prelude.{◌≡◌, ◌<◌, ◌^◌, vec_len, IfOk, IfErr, OnOk};
ghost use Rattle.base_devices.specs.States.{CallsProperly};
ghost use Rattle.base_model.specs.InfoFiles.{IsBackupInfo, IsLabel};
ghost use Rattle.base_model.specs.Repository.{id_of};
ghost use Rattle.base_model.specs.Values.{backup_info_of};
ghost use Rattle.worker_pool.specs.Pools.{LeavesLinks, LeavesLinksAfter, ReportsLosses, links_in};
ghost use Rattle.worker_pool.specs.Run.{AreReady};
ghost use Rattle.base_crash_lists.specs.Beside.{StaysBeside};
ghost use Rattle.backup_make.specs.Draft.{IsDraft, IsFree, jobs_in};
ghost use Rattle.backup_make.specs.Made.{LeavesList};
ghost use Rattle.backup_make.specs.Staged.{IsFetched, fetched_draft};
ghost use Rattle.backup_make.specs.Storing.{FetchingFails, StagesDraft};
ghost use Rattle.backup_make.specs.Touched.{TouchesBackup};
ghost use Rattle.cmd_backup_common.specs.Seconds.{IsNext};
ghost use Rattle.cmd_backup_offline.specs.Basis.{AreLinesOf, MayBeBasis};
ghost use Rattle.cmd_backup_offline.specs.Drafting.{IsPlannedBy};
ghost use Rattle.cmd_backup_online.specs.Halting.{UndraftedHalts};
ghost use Rattle.cmd_backup_online.specs.Running.{IsRunningBy};

use crate::order::NextBackup;
use crate::past_listing::{PastListing, nodes_of};
use backup_make::{Draft, Fetched, MakeFault, fetch};
use backup_plan::filter;
use base_devices::{Disk, Link, Scheduler};
use base_model::{ArchiveId, Label};
use cmd_backup_common::{BackupFault, of_plan};
use cmd_backup_offline::{BackupBasis, draft_listed, find_equal};
use cmd_types::Halt;
use server_talk::Begun;
use std::alloc::Global;
use worker_pool::Pool;

/// The draft of a running server's backup. Nothing but `fetch_running` has its files read.
#[derive(Drop)]
pub(crate) struct RunningDraft<'a> {
    draft: Draft<'a>,
}

/// The draft of the next backup, of what a running server's listing shows, and the lines that state its kind and its
/// label. With delta workers report first which files have the digests of those of the basis, while the server is in
/// its backup.
pub(crate) fn draft_running<'a, L: Link, U: Scheduler>(
    alloc: Global,
    pool: &mut Pool<L, U>,
    _server: &Begun,
    basis: &BackupBasis<'a>,
    seen: &PastListing,
    next: NextBackup,
) -> Result<(RunningDraft<'a>, String), Halt<BackupFault>>
    requires few { vec_len pool.old.links < 2 ^ 32 }
    requires ready { AreReady (links_in L.link_state pool.old) }
    requires list { IsBackupInfo (backup_info_of next.list) }
    requires next { IsNext next.second (backup_info_of next.list) }
    requires old { MayBeBasis basis.now next.list }
    ensures draft { IfOk result (λ d. IsDraft d.0.draft) }
    ensures later { IfOk result (λ d. IsRunningBy basis.now next seen.now.nodes.items d.0.draft) }
    ensures planned { IfOk result (λ d. IsPlannedBy (links_in L.link_state pool.old) basis.now.order d.0.draft) }
    ensures free { IfOk result (λ d. IsFree d.0.draft) }
    ensures label { IfOk result (λ d. IsLabel d.0.draft.label) }
    ensures lines { IfOk result (λ d. AreLinesOf basis.now next.list d.0.draft d.1) }
    ensures left { OnOk result (LeavesLinks L.link_state pool.old pool.new) }
    ensures few { OnOk result (vec_len pool.new.links < 2 ^ 32) }
    ensures ready { OnOk result (AreReady (links_in L.link_state pool.new)) }
    ensures cause { IfErr result (UndraftedHalts basis.now seen.now.nodes.items L.link_state pool.old) }
{
    let listing = match filter(alloc, nodes_of(seen), true) {
        Ok(listing) => listing,
        Err(fault) => return Err(of_plan(fault)),
    };
    let delta = basis.order.settings.delta;
    let equal = find_equal(alloc, pool, delta, &listing, basis.old)?;
    let NextBackup { list, second } = next;
    match draft_listed(alloc, basis, second, &equal, listing, list) {
        Ok((draft, lines)) => Ok((RunningDraft { draft }, lines)),
        Err(_) => Err(Halt::NoMemory),
    }
}

/// The draft's label, and the id under which its cluster's log is archived.
pub(crate) fn named(running: &RunningDraft<'_>) -> (Label, ArchiveId)
    ensures label { result.0 ≡ running.now.draft.label }
    ensures id { result.1 ≡ id_of running.now.draft.cluster }
{
    let cluster = running.draft.cluster;
    let id = ArchiveId {
        version: cluster.version,
        number: cluster.id,
    };
    (running.draft.label, id)
}

/// Has the draft's files read and stored in the folder of its label, while the server is in its backup.
pub(crate) fn fetch_running<'a, D: Disk, L: Link, U: Scheduler>(
    alloc: Global,
    d: &mut D,
    pool: &mut Pool<L, U>,
    _server: &Begun,
    draft: RunningDraft<'a>,
) -> Result<Fetched<'a>, MakeFault>
    requires draft { IsDraft draft.draft }
    requires few { vec_len pool.old.links < 2 ^ 32 }
    requires ready { AreReady (links_in L.link_state pool.old) }
    ensures of { IfOk result (λ f. fetched_draft f ≡ draft.entry.draft) }
    ensures fetched { IfOk result IsFetched }
    ensures staged { IfOk result (StagesDraft draft.entry.draft L.link_state pool.old (D.state d.new)) }
    ensures unlisted { LeavesList draft.entry.draft (D.state d.old).view (D.state d.new).view }
    ensures only { TouchesBackup draft.entry.draft (D.state d.old) (D.state d.new) }
    ensures beside { StaysBeside draft.entry.draft.stanza.now (D.state d.old).view (D.state d.new).view }
    ensures frame { CallsProperly (D.state d.old) (D.state d.new) }
    ensures left { OnOk result (LeavesLinksAfter (jobs_in draft.entry.draft) L.link_state pool.old pool.new) }
    ensures known { ReportsLosses (jobs_in draft.entry.draft) L.link_state pool.old pool.new }
    ensures fault { IfErr result (FetchingFails draft.entry.draft L.link_state pool.old pool.new
        D.state d.old d.new) }
{
    fetch(alloc, d, pool, draft.draft)
}
