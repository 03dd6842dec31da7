// Has the jobs of a draft done.
ghost use Rattle.std.specs.Prelude.{◌≡◌, ◌<◌, ◌^◌, vec_len, string_bytes, IfOk, IfErr, OnOk};
ghost use Rattle.base_devices.specs.States.{CallsProperly};
ghost use Rattle.base_model.specs.InfoFiles.{IsLabel};
ghost use Rattle.base_model.specs.Names.{label_folder};
ghost use Rattle.worker_pool.specs.Pools.{LeavesLinksAfter, ReportsLosses, links_in};
ghost use Rattle.worker_pool.specs.Run.{AreReady};
ghost use Rattle.backup_sink.specs.Relation.{Touches};
ghost use Rattle.backup_sink.specs.Sealed.{IsSealed};
ghost use Rattle.base_crash_lists.specs.Beside.{StaysBeside};
ghost use Rattle.backup_make.specs.Draft.{IsDraft, jobs_in, is_own_of};
ghost use Rattle.backup_make.specs.Made.{LeavesList};
ghost use Rattle.backup_make.specs.Touched.{TouchesBackup};
ghost use Rattle.backup_make.specs.Staged.{IsFetched, fetched_draft};
ghost use Rattle.backup_make.specs.Storing.{FetchingFails, StagesDraft, StoresEnds};

use crate::backup_bytes::store;
use crate::draft::Draft;
use crate::fault::MakeFault;
use backup_record::names_of;
use backup_sink::EndedItem;
use base_devices::{Disk, Link, Scheduler};
use base_model::Label;
use base_text::NoMemory;
use repo_names::label_text;
use std::alloc::Global;
use worker_pool::Pool;

/// The folder of a label.
pub(crate) fn folder_name(alloc: Global, stanza: &str, label: &Label) -> Result<String, NoMemory>
    requires { IsLabel label.now }
    ensures { IfOk result (λ name. string_bytes name ≡ label_folder stanza.now label.now) }
{
    let label = label_text(alloc, label)?;
    Ok(format!(in alloc; "backup/{stanza}/{label}")?)
}

// Has the draft's jobs done, and stores the result of them in the label's folder, durably.
fn gather<D: Disk, L: Link, U: Scheduler>(
    alloc: Global,
    d: &mut D,
    pool: &mut Pool<L, U>,
    draft: &Draft<'_>,
) -> Result<Vec<Vec<EndedItem>>, MakeFault>
    requires draft { IsDraft draft.now }
    requires few { vec_len pool.old.links < 2 ^ 32 }
    requires ready { AreReady (links_in L.link_state pool.old) }
    ensures touches { Touches (is_own_of draft.now) (D.state d.old).view (D.state d.new).view }
    ensures sealed { OnOk result (IsSealed (is_own_of draft.now) (D.state d.new).view) }
    ensures stored { IfOk result (StoresEnds draft.now L.link_state pool.old (D.state d.new)) }
    ensures frame { CallsProperly (D.state d.old) (D.state d.new) }
    ensures left { OnOk result (LeavesLinksAfter (jobs_in draft.now) L.link_state pool.old pool.new) }
    ensures known { ReportsLosses (jobs_in draft.now) L.link_state pool.old pool.new }
    ensures fault { IfErr result (FetchingFails draft.now L.link_state pool.old pool.new D.state d.old d.new) }
{
    let folder = folder_name(alloc, draft.stanza, &draft.label)?;
    let names = names_of(alloc, &folder, &draft.plan)?;
    let keep = store(alloc, d, pool, &folder, &draft.plan.jobs, &names)?;
    Ok(keep.into_ends(alloc)?)
}

/// A draft whose jobs are done: the result of them lies in the folder of its label, and isn't listed yet.
#[derive(Drop)]
pub struct Fetched<'a> {
    pub(crate) draft: Draft<'a>,
    pub(crate) ends: Vec<Vec<EndedItem>>,
}

/// Has the draft's jobs done, and stores the result of them in the label's folder, durably. The stanza's list stays
/// unchanged, in what a crash leaves too, and so does all that isn't of this backup.
pub fn fetch<'a, D: Disk, L: Link, U: Scheduler>(
    alloc: Global,
    d: &mut D,
    pool: &mut Pool<L, U>,
    draft: Draft<'a>,
) -> Result<Fetched<'a>, MakeFault>
    requires draft { IsDraft draft }
    requires few { vec_len pool.old.links < 2 ^ 32 }
    requires ready { AreReady (links_in L.link_state pool.old) }
    ensures of { IfOk result (λ f. fetched_draft f ≡ draft.entry) }
    ensures fetched { IfOk result IsFetched }
    ensures staged { IfOk result (StagesDraft draft.entry L.link_state pool.old (D.state d.new)) }
    ensures unlisted { LeavesList draft.entry (D.state d.old).view (D.state d.new).view }
    ensures only { TouchesBackup draft.entry (D.state d.old) (D.state d.new) }
    ensures beside { StaysBeside draft.entry.stanza.now (D.state d.old).view (D.state d.new).view }
    ensures frame { CallsProperly (D.state d.old) (D.state d.new) }

    // Each link that was lost is reported, and at Ok the others are left.
    ensures left { OnOk result (LeavesLinksAfter (jobs_in draft.entry) L.link_state pool.old pool.new) }
    ensures known { ReportsLosses (jobs_in draft.entry) L.link_state pool.old pool.new }
    ensures fault { IfErr result (FetchingFails draft.entry L.link_state pool.old pool.new D.state d.old d.new) }
{
    let ends = gather(alloc, d, pool, &draft)?;
    Ok(Fetched { draft, ends })
}
