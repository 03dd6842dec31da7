// Has jobs done over links.
ghost use Rattle.std.specs.Prelude.{◌≡◌, ◌<◌, ◌^◌, ◌⊎◌, [], Err, All, map, length, vec_len, IfOk, IfErr, OnOk};
ghost use Rattle.worker_protocol.specs.Frames.{FitsJob};
ghost use Rattle.worker_protocol.specs.Views.{job_of};
ghost use Rattle.worker_pool.specs.Holdings.{HoldsNothing};
ghost use Rattle.worker_pool.specs.Pools.{links_in, JobsDone, JobsByFile, LeavesLinksAfter, PoolReadsRise, ReportsLosses, EndsEarly};
ghost use Rattle.worker_pool.specs.Run.{AreReady, IsUnread};

use crate::dispatch::dispatch_run::run_slots;
use crate::dispatch::fault::DispatchFault;
use crate::dispatch::job_run::{Run, Slots};
use crate::dispatch::slot_setup::{free_slots, slot_all};
use crate::jobs::JobTable;
use crate::pool::Pool;
use crate::replies::Receiving;
use base_devices::{Link, Scheduler};
use std::alloc::{AllocError, Global};
use worker_protocol::{Job, PartSink};

/// Nothing was received from this many links.
fn start_all(alloc: Global, count: usize) -> Result<Vec<Receiving>, AllocError>
    ensures { IfOk result (λ v. length v.items ≡ count) }
{
    let mut receivings = Vec::new(alloc);
    for _ in 0..count {
        receivings.push(Receiving::new())?;
    }
    Ok(receivings)
}

/// Has each job done, and gives back the links that are left.
fn run_links<L: Link, W, U: Scheduler, K: PartSink<W>>(
    alloc: Global,
    jobs: &[Job],
    pool: &mut Pool<L, U>,
    keep: &mut K,
    on: &mut W,
) -> Result<(), DispatchFault>
    requires few { vec_len pool.old.links < 2 ^ 32 }
    requires few_jobs { length jobs.now < 2 ^ 32 }
    requires fits { All (λ j. FitsJob (job_of j)) jobs.now }
    requires ready { AreReady (links_in L.link_state pool.old) }
    // The keeper is for these jobs, and holds nothing of them.
    requires keeps { (K.kept keep.old on.old).jobs ≡ map job_of jobs.now }
    requires empty { HoldsNothing (map job_of jobs.now) (K.kept keep.old on.old) }
    requires agrees { K.agrees keep.old on.old }
    ensures later { K.later keep.old on.old keep.new on.new }
    ensures agrees { OnOk result (K.agrees keep.new on.new) }
    // The keeper hasn't failed.
    ensures faults { OnOk result ((K.kept keep.new on.new).faults ≡ (K.kept keep.old on.old).faults) }
    // Each job has ended once, with what the link that ended it read.
    ensures done { OnOk result (JobsDone (map job_of jobs.now) L.link_state pool.old (K.kept keep.new on.new)) }
    // The links that weren't lost are left, idle, each with as many new jobs as it may have. Each of the others is
    // reported, and no steady worker is.
    ensures left { OnOk result (LeavesLinksAfter (map job_of jobs.now) L.link_state pool.old pool.new) }
    ensures some { OnOk result (0 < length pool.old.links.items → 0 < length pool.new.links.items) }
    // Where no link could be lost, the counts of read jobs rose by exactly these jobs.
    ensures reads { OnOk result (PoolReadsRise (map job_of jobs.now) L.link_state pool.old pool.new) }
    // Whatever the result, no entry is removed, and each further one is of a link that isn't a steady worker.
    ensures known { ReportsLosses (map job_of jobs.now) L.link_state pool.old pool.new }
    ensures fault { EndsEarly result L.link_state K.kept jobs.now pool.old keep.old on.old pool.new keep.new on.new }
{
    let job_table = JobTable::new(alloc, jobs.len() as u32, pool.links.len() as u32)?;
    let receivings = start_all(alloc, pool.links.len())?;
    let slots = slot_all(alloc, &mut pool.links)?;
    let lost = std::mem::replace(&mut pool.lost, Vec::new(alloc));
    let mut run = Run {
        links: Slots { slots, receivings },
        job_table,
        lost,
    };
    let done = run_slots(alloc, jobs, &mut run, &mut pool.scheduler, keep, on);
    pool.lost = run.lost;
    let links = run.links;
    match done {
        Ok(()) => {
            free_slots(&mut pool.links, links.slots)?;
            Ok(())
        }
        Err(DispatchFault::Unread { job, item }) => {
            free_slots(&mut pool.links, links.slots)?;
            Err(DispatchFault::Unread { job, item })
        }
        Err(DispatchFault::WorkersLost) => Err(DispatchFault::WorkersLost),
        Err(DispatchFault::PartSink) => Err(DispatchFault::PartSink),
        Err(DispatchFault::NoMemory) => Err(DispatchFault::NoMemory),
    }
}

/// Refuses, and drops all links.
fn refuse<L: Link>(links: &mut Vec<L>, fault: DispatchFault) -> Result<(), DispatchFault>
    ensures result { result ≡ Err fault }
    ensures links { links.new.items ≡ [] }
{
    links.clear();
    Err(fault)
}

/// Has each job done by some link, in any order. After Unread the one link that answered so is left, after any other
/// refusal none is.
pub fn run_jobs<L: Link, W, U: Scheduler, K: PartSink<W>>(
    alloc: Global,
    jobs: &[Job],
    pool: &mut Pool<L, U>,
    keep: &mut K,
    on: &mut W,
) -> Result<(), DispatchFault>
    requires few { vec_len pool.old.links < 2 ^ 32 }
    requires few_jobs { length jobs.now < 2 ^ 32 }
    requires fits { All (λ j. FitsJob (job_of j)) jobs.now }
    requires ready { AreReady (links_in L.link_state pool.old) }
    // The keeper is for these jobs, and holds nothing of them.
    requires keeps { (K.kept keep.old on.old).jobs ≡ map job_of jobs.now }
    requires empty { HoldsNothing (map job_of jobs.now) (K.kept keep.old on.old) }
    requires agrees { K.agrees keep.old on.old }
    ensures later { K.later keep.old on.old keep.new on.new }
    ensures agrees { OnOk result (K.agrees keep.new on.new) }
    // The keeper hasn't failed.
    ensures faults { OnOk result ((K.kept keep.new on.new).faults ≡ (K.kept keep.old on.old).faults) }
    // Each job has ended once, with what the link that ended it read.
    ensures done { OnOk result (JobsDone (map job_of jobs.now) L.link_state pool.old (K.kept keep.new on.new)) }
    // Where all links read the same files, each item of each job ended as its file is.
    ensures payload { OnOk result (JobsByFile (map job_of jobs.now) L.link_state pool.old (K.kept keep.new on.new)) }
    // The links that weren't lost are left, idle, each with as many new jobs as it may have. Each of the others is
    // reported, and no steady worker is.
    ensures left { OnOk result (LeavesLinksAfter (map job_of jobs.now) L.link_state pool.old pool.new) }
    ensures some { OnOk result (0 < length pool.old.links.items → 0 < length pool.new.links.items) }
    // Where no link could be lost, the counts of read jobs rose by exactly these jobs.
    ensures reads { OnOk result (PoolReadsRise (map job_of jobs.now) L.link_state pool.old pool.new) }
    // Whatever the result, no entry is removed, and each further one is of a link that isn't a steady worker.
    ensures known { ReportsLosses (map job_of jobs.now) L.link_state pool.old pool.new }
    ensures fault { EndsEarly result L.link_state K.kept jobs.now pool.old keep.old on.old pool.new keep.new on.new }
    ensures refused { IfErr result (λ e. IsUnread e ⊎ (pool.new.links.items ≡ [])) }
{
    match run_links(alloc, jobs, pool, keep, on) {
        Ok(()) => Ok(()),
        Err(DispatchFault::Unread { job, item }) => Err(DispatchFault::Unread { job, item }),
        Err(DispatchFault::WorkersLost) => refuse(&mut pool.links, DispatchFault::WorkersLost),
        Err(DispatchFault::PartSink) => refuse(&mut pool.links, DispatchFault::PartSink),
        Err(DispatchFault::NoMemory) => refuse(&mut pool.links, DispatchFault::NoMemory),
    }
}
