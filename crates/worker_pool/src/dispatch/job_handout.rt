// Gives jobs to idle links.
ghost use Rattle.std.specs.Prelude.{◌≡◌, ◌<◌, ◌^◌, ℕ, All, length, vec_len, IfErr, OnOk};
ghost use Rattle.worker_protocol.specs.Frames.{FitsJob};
ghost use Rattle.worker_protocol.specs.Views.{job_of};
ghost use Rattle.worker_pool.specs.Dispatch.{IsIdle, NoneWaits};
ghost use Rattle.worker_pool.specs.DispatchFaults.{IsQuiet};
ghost use Rattle.worker_pool.specs.Run.{Settles};
ghost use Rattle.worker_pool.specs.Running.{IsRunning, RunGoesOn, GivesJobs, RunShowsLosses};

use crate::dispatch::fault::DispatchFault;
use crate::dispatch::job_run::Run;
use crate::dispatch::receiving::drop_link;
use crate::dispatch::slots::send_at;
use crate::replies::Receiving;
use base_devices::{DeviceError, Link};
use std::alloc::Global;
use worker_protocol::{Job, LostCause, PartSink, encode_job};

/// Gives an idle link the lowest job that waits, if any does.
fn give_job<L: Link, W, K: PartSink<W>>(
    alloc: Global,
    jobs: &[Job],
    run: &mut Run<L>,
    i: u32,
    keep: &mut K,
    on: &mut W,
) -> Result<(), DispatchFault>
    requires idle { IsIdle run.old.job_table i }
    requires runs { IsRunning L.link_state K.kept jobs.now run.old keep.old on.old }
    requires fits { All (λ j. FitsJob (job_of j)) jobs.now }
    requires agrees { K.agrees keep.old on.old }
    ensures later { K.later keep.old on.old keep.new on.new }
    ensures agrees { OnOk result (K.agrees keep.new on.new) }
    ensures quiet { IfErr result (λ e. IsQuiet e (K.kept keep.old on.old).faults (K.kept keep.new on.new).faults) }
    ensures length { vec_len run.new.links.slots ≡ vec_len run.old.links.slots }
    ensures going { RunGoesOn result L.link_state K.kept jobs.now run.old keep.old on.old run.new keep.new on.new }
    ensures gave { GivesJobs result L.link_state K.kept jobs.now run.old keep.old on.old run.new keep.new on.new }
    ensures settles { OnOk result (Settles run.old.job_table run.new.job_table i) }
    ensures known { RunShowsLosses result L.link_state K.kept jobs.now run.old keep.old on.old run.new }
{
    let Some(job) = run.job_table.give(i) else {
        return Ok(());
    };
    let Ok(frame) = encode_job(alloc, &jobs[job as usize]) else {
        return Err(DispatchFault::NoMemory);
    };
    match send_at(&mut run.links.slots, i, &frame) {
        Ok(()) => {
            run.links.receivings[i as usize] = Receiving::new();
            Ok(())
        }
        Err(DeviceError::NoMemory) => Err(DispatchFault::NoMemory),
        Err(DeviceError::Failed) => drop_link(run, i, job, keep, on, LostCause::Device),
    }
}

/// Gives the link a job, if it is idle and one waits.
pub(crate) fn give_idle<L: Link, W, K: PartSink<W>>(
    alloc: Global,
    jobs: &[Job],
    run: &mut Run<L>,
    i: u32,
    keep: &mut K,
    on: &mut W,
) -> Result<(), DispatchFault>
    requires within { i < length run.old.job_table.links }
    requires runs { IsRunning L.link_state K.kept jobs.now run.old keep.old on.old }
    requires fits { All (λ j. FitsJob (job_of j)) jobs.now }
    requires agrees { K.agrees keep.old on.old }
    ensures later { K.later keep.old on.old keep.new on.new }
    ensures agrees { OnOk result (K.agrees keep.new on.new) }
    ensures quiet { IfErr result (λ e. IsQuiet e (K.kept keep.old on.old).faults (K.kept keep.new on.new).faults) }
    ensures length { vec_len run.new.links.slots ≡ vec_len run.old.links.slots }
    ensures going { RunGoesOn result L.link_state K.kept jobs.now run.old keep.old on.old run.new keep.new on.new }
    ensures gave { GivesJobs result L.link_state K.kept jobs.now run.old keep.old on.old run.new keep.new on.new }
    ensures settles { OnOk result (Settles run.old.job_table run.new.job_table i) }
    ensures known { RunShowsLosses result L.link_state K.kept jobs.now run.old keep.old on.old run.new }
{
    if run.job_table.is_idle(i) {
        return give_job(alloc, jobs, run, i, keep, on);
    }
    Ok(())
}

/// Gives jobs to all idle links.
pub(crate) fn give_all<L: Link, W, K: PartSink<W>>(
    alloc: Global,
    jobs: &[Job],
    run: &mut Run<L>,
    keep: &mut K,
    on: &mut W,
) -> Result<(), DispatchFault>
    requires few { vec_len run.old.links.slots < 2 ^ 32 }
    requires runs { IsRunning L.link_state K.kept jobs.now run.old keep.old on.old }
    requires fits { All (λ j. FitsJob (job_of j)) jobs.now }
    requires agrees { K.agrees keep.old on.old }
    ensures later { K.later keep.old on.old keep.new on.new }
    ensures agrees { OnOk result (K.agrees keep.new on.new) }
    ensures quiet { IfErr result (λ e. IsQuiet e (K.kept keep.old on.old).faults (K.kept keep.new on.new).faults) }
    ensures length { vec_len run.new.links.slots ≡ vec_len run.old.links.slots }
    ensures going { RunGoesOn result L.link_state K.kept jobs.now run.old keep.old on.old run.new keep.new on.new }
    ensures gave { GivesJobs result L.link_state K.kept jobs.now run.old keep.old on.old run.new keep.new on.new }
    ensures idle { OnOk result ((k : ℕ) → IsIdle run.new.job_table k → NoneWaits run.new.job_table) }
    ensures known { RunShowsLosses result L.link_state K.kept jobs.now run.old keep.old on.old run.new }
{
    for i in 0..run.links.slots.len() {
        give_idle(alloc, jobs, run, i as u32, keep, on)?;
    }
    Ok(())
}
