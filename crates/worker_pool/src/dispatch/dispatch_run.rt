// A run of jobs, a frame a round.
ghost use Rattle.std.specs.Prelude.{◌≡◌, ◌<◌, ◌^◌, ℕ, All, vec_len, OnOk};
ghost use Rattle.worker_protocol.specs.Frames.{FitsJob};
ghost use Rattle.worker_protocol.specs.Views.{job_of};
ghost use Rattle.worker_pool.specs.Dispatch.{IsIdle, NoneWaits, AllEnded};
ghost use Rattle.worker_pool.specs.Run.{NoneBusy};
ghost use Rattle.worker_pool.specs.Running.{IsRunningOn, HasStarted, RunReceivesOn, MakesRound, RunEndsEarly, RunShowsLossesOn};
ghost use Rattle.worker_pool.specs.Running.{RunsFromStart, StartEndsEarly, RunAddsLosses};

use crate::dispatch::fault::DispatchFault;
use crate::dispatch::job_handout::give_all;
use crate::dispatch::job_run::Run;
use crate::dispatch::receiving::receive_job;
use base_devices::{Link, Scheduler};
use std::alloc::Global;
use worker_protocol::{Job, PartSink};

/// Receives a frame from the busy link that is picked, and gives jobs to all idle links. Returns whether each job has
/// ended.
fn round<L: Link, W, U: Scheduler, K: PartSink<W>>(
    alloc: Global,
    jobs: &[Job],
    run: &mut Run<L>,
    scheduler: &mut U,
    keep: &mut K,
    on: &mut W,
) -> Result<bool, DispatchFault>
    requires few { vec_len run.old.links.slots < 2 ^ 32 }
    requires runs { IsRunningOn L.link_state K.kept jobs.now run.old keep.old on.old }
    requires fits { All (λ j. FitsJob (job_of j)) jobs.now }
    requires idle { (k : ℕ) → IsIdle run.old.job_table k → NoneWaits run.old.job_table }
    requires agrees { K.agrees keep.old on.old }
    ensures later { K.later keep.old on.old keep.new on.new }
    ensures agrees { OnOk result (K.agrees keep.new on.new) }
    ensures length { OnOk result (vec_len run.new.links.slots ≡ vec_len run.old.links.slots) }
    ensures going { RunReceivesOn result L.link_state K.kept jobs.now run.old keep.old on.old run.new keep.new on.new }
    ensures turned { MakesRound result L.link_state K.kept jobs.now run.old keep.old on.old run.new keep.new on.new }
    ensures fault { RunEndsEarly result L.link_state K.kept jobs.now run.old keep.old on.old run.new keep.new on.new }
    ensures known { RunShowsLossesOn result L.link_state K.kept jobs.now run.old keep.old on.old run.new }
{
    let busy = run.job_table.busy(alloc)?;
    if busy.is_empty() {
        if run.job_table.finished() {
            return Ok(true);
        }
        return Err(DispatchFault::WorkersLost);
    }
    let at = scheduler.pick(busy.len() as u64);
    let link = busy[at as usize];
    receive_job(alloc, jobs, run, link, keep, on)?;
    give_all(alloc, jobs, run, keep, on)?;
    Ok(false)
}

/// Has each job done, where each idle link was given one or none waits.
fn run_rounds<L: Link, W, U: Scheduler, K: PartSink<W>>(
    alloc: Global,
    jobs: &[Job],
    run: &mut Run<L>,
    scheduler: &mut U,
    keep: &mut K,
    on: &mut W,
) -> Result<(), DispatchFault>
    requires few { vec_len run.old.links.slots < 2 ^ 32 }
    requires runs { IsRunningOn L.link_state K.kept jobs.now run.old keep.old on.old }
    requires fits { All (λ j. FitsJob (job_of j)) jobs.now }
    requires idle { (k : ℕ) → IsIdle run.old.job_table k → NoneWaits run.old.job_table }
    requires agrees { K.agrees keep.old on.old }
    ensures later { K.later keep.old on.old keep.new on.new }
    ensures agrees { OnOk result (K.agrees keep.new on.new) }
    // The keeper hasn't failed.
    ensures faults { OnOk result ((K.kept keep.new on.new).faults ≡ (K.kept keep.old on.old).faults) }
    ensures going { RunReceivesOn result L.link_state K.kept jobs.now run.old keep.old on.old run.new keep.new on.new }
    ensures over { OnOk result (AllEnded run.new.job_table.jobs × NoneBusy run.new.job_table) }
    ensures fault { RunEndsEarly result L.link_state K.kept jobs.now run.old keep.old on.old run.new keep.new on.new }
    ensures known { RunShowsLossesOn result L.link_state K.kept jobs.now run.old keep.old on.old run.new }
{
    let mut done = false;
    'rounds: while !done {
        match round(alloc, jobs, run, scheduler, keep, on) {
            Ok(over) => done = over,
            Err(e) => return Err(e),
        }
    }
    Ok(())
}

/// Has each job done over links none of which was given one.
pub(crate) fn run_slots<L: Link, W, U: Scheduler, K: PartSink<W>>(
    alloc: Global,
    jobs: &[Job],
    run: &mut Run<L>,
    scheduler: &mut U,
    keep: &mut K,
    on: &mut W,
) -> Result<(), DispatchFault>
    requires few { vec_len run.old.links.slots < 2 ^ 32 }
    requires starts { HasStarted L.link_state K.kept jobs.now run.old keep.old on.old }
    requires fits { All (λ j. FitsJob (job_of j)) jobs.now }
    requires agrees { K.agrees keep.old on.old }
    ensures later { K.later keep.old on.old keep.new on.new }
    ensures agrees { OnOk result (K.agrees keep.new on.new) }
    // The keeper hasn't failed.
    ensures faults { OnOk result ((K.kept keep.new on.new).faults ≡ (K.kept keep.old on.old).faults) }
    ensures going { RunsFromStart result L.link_state K.kept jobs.now run.old keep.old on.old run.new keep.new on.new }
    ensures over { OnOk result (AllEnded run.new.job_table.jobs × NoneBusy run.new.job_table) }
    ensures fault { StartEndsEarly result L.link_state K.kept jobs.now run.old keep.old on.old run.new keep.new on.new }
    ensures known { RunAddsLosses L.link_state jobs.now run.old run.new }
{
    give_all(alloc, jobs, run, keep, on)?;
    run_rounds(alloc, jobs, run, scheduler, keep, on)
}
