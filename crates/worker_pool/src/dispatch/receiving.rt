// Receives from busy links, and loses some.
ghost use Rattle.std.specs.Prelude.{◌≡◌, ◌<◌, None, All, length, vec_len, slice_set, IfErr, OnOk, OnErr};
ghost use Rattle.worker_protocol.specs.Frames.{FitsJob};
ghost use Rattle.worker_protocol.specs.Views.{job_of};
ghost use Rattle.worker_protocol.specs.PartSinkState.{Clears};
ghost use Rattle.worker_pool.specs.Dispatch.{Has, IsBusy, after_drop};
ghost use Rattle.worker_pool.specs.DispatchFaults.{IsQuiet};
ghost use Rattle.worker_pool.specs.Slots.{slot_states, LeavesOne};
ghost use Rattle.worker_pool.specs.Run.{Changed};
ghost use Rattle.worker_pool.specs.Running.{IsRunning, RunReceivesOn, RunAdvances, FrameRefused, RunShowsLosses, ReportsLoss, MayReportLoss};

use crate::dispatch::fault::{DispatchFault, Lost};
use crate::dispatch::job_run::Run;
use crate::dispatch::slots::receive_at;
use crate::replies::{ReplyFault, Verdict};
use base_devices::Link;
use std::alloc::Global;
use worker_protocol::{Job, LostCause, PartSink};

/// Empties a job, which is to begin anew.
fn begin_again<W, K: PartSink<W>>(keep: &mut K, on: &mut W, job: u32) -> Result<(), DispatchFault>
    requires within { job < length (K.kept keep.old on.old).kept }
    requires agrees { K.agrees keep.old on.old }
    ensures later { K.later keep.old on.old keep.new on.new }
    ensures agrees { OnOk result (K.agrees keep.new on.new) }
    ensures quiet { IfErr result (λ e. IsQuiet e (K.kept keep.old on.old).faults (K.kept keep.new on.new).faults) }
    ensures kept { OnOk result (Changed Clears job (K.kept keep.old on.old) (K.kept keep.new on.new)) }
{
    keep.again(on, job)?;
    Ok(())
}

/// Loses a busy link: it is reported, its box is dropped, and its job waits again.
pub(crate) fn drop_link<L: Link, W, K: PartSink<W>>(
    run: &mut Run<L>,
    i: u32,
    job: u32,
    keep: &mut K,
    on: &mut W,
    cause: LostCause,
) -> Result<(), DispatchFault>
    requires has { Has run.old.job_table i job }
    requires slot { i < vec_len run.old.links.slots }
    requires within { job < length (K.kept keep.old on.old).kept }
    requires agrees { K.agrees keep.old on.old }
    ensures later { K.later keep.old on.old keep.new on.new }
    ensures agrees { OnOk result (K.agrees keep.new on.new) }
    ensures quiet { IfErr result (λ e. IsQuiet e (K.kept keep.old on.old).faults (K.kept keep.new on.new).faults) }
    ensures length { vec_len run.new.links.slots ≡ vec_len run.old.links.slots }
    ensures job_table { OnOk result (run.new.job_table ≡ after_drop run.old.job_table i job) }
    ensures slots { OnOk result (run.new.links.slots.items ≡ slice_set run.old.links.slots.items i None) }
    ensures kept { OnOk result (Changed Clears job (K.kept keep.old on.old) (K.kept keep.new on.new)) }
    ensures lost { OnOk result (ReportsLoss i cause run.old.lost.items run.new.lost.items) }
    ensures known { OnErr result (MayReportLoss i cause run.old.lost.items run.new.lost.items) }
    ensures receivings { run.new.links.receivings.items ≡ run.old.links.receivings.items }
{
    run.lost.push(Lost { place: i, cause })?;
    run.links.slots[i as usize] = None;
    begin_again(keep, on, job)?;
    run.job_table.drop_worker(i);
    Ok(())
}

/// Leaves only the link of a number.
fn keep_only<L: Link>(slots: &mut Vec<Option<L>>, i: u32)
    requires { i < vec_len slots.old }
    ensures { LeavesOne i (slot_states L.link_state slots.old.items) (slot_states L.link_state slots.new.items) }
{
    slots.swap(0, i as usize);
    slots.truncate(1);
}

/// Receives a frame from a busy link.
pub(crate) fn receive_job<L: Link, W, K: PartSink<W>>(
    alloc: Global,
    jobs: &[Job],
    run: &mut Run<L>,
    i: u32,
    keep: &mut K,
    on: &mut W,
) -> Result<(), DispatchFault>
    requires busy { IsBusy run.old.job_table i }
    requires runs { IsRunning L.link_state K.kept jobs.now run.old keep.old on.old }
    requires fits { All (λ j. FitsJob (job_of j)) jobs.now }
    requires agrees { K.agrees keep.old on.old }
    ensures later { K.later keep.old on.old keep.new on.new }
    ensures agrees { OnOk result (K.agrees keep.new on.new) }
    ensures length { OnOk result (vec_len run.new.links.slots ≡ vec_len run.old.links.slots) }
    ensures going { RunReceivesOn result L.link_state K.kept jobs.now run.old keep.old on.old run.new keep.new on.new }
    ensures advances { RunAdvances result L.link_state K.kept jobs.now run.old keep.old on.old run.new keep.new on.new }
    ensures fault { FrameRefused result L.link_state K.kept jobs.now run.old keep.old on.old run.new keep.new on.new }
    ensures known { RunShowsLosses result L.link_state K.kept jobs.now run.old keep.old on.old run.new }
{
    let Some(job) = run.job_table.job(i) else {
        return Ok(());
    };
    match receive_at(alloc, &mut run.links, i, &jobs[job as usize], job, keep, on) {
        Ok(Verdict::More) => {
            run.job_table.note_frame(i, false);
            Ok(())
        }
        Ok(Verdict::Ended) => {
            run.job_table.note_frame(i, true);
            Ok(())
        }
        Ok(Verdict::Lost(cause)) => drop_link(run, i, job, keep, on, cause),
        Err(ReplyFault::Unread { item }) => {
            keep_only(&mut run.links.slots, i);
            Err(DispatchFault::Unread { job, item })
        }
        Err(ReplyFault::PartSink) => Err(DispatchFault::PartSink),
        Err(ReplyFault::NoMemory) => Err(DispatchFault::NoMemory),
    }
}
