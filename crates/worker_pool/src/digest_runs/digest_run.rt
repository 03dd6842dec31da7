// Digest jobs of one item each are done.
ghost use Rattle.std.specs.Prelude.{◌≡◌, ◌<◌, ◌≤◌, ◌^◌, All, map, take, length, vec_len, IfOk, IfErr, OnOk};
ghost use Rattle.base_model.specs.Values.{file_entry_of};
ghost use Rattle.worker_protocol.specs.Frames.{FitsJob};
ghost use Rattle.worker_protocol.specs.Views.{job_of};
ghost use Rattle.worker_pool.specs.Pools.{links_in, LeavesLinks, JobsEndEarly};
ghost use Rattle.worker_pool.specs.Run.{AreReady};
ghost use Rattle.worker_pool.specs.Holdings.{done_item, state_of};
ghost use Rattle.worker_pool.specs.Digests.{first_end, end_of, is_equal, AreDigests, AreEnds};

use crate::digest_runs::memory_keeper::{Holder, ReadItem};
use crate::dispatch::{DispatchFault, run_jobs};
use crate::pool::Pool;
use base_devices::{Link, Scheduler};
use base_model::FileEntry;
use std::alloc::{AllocError, Global};
use worker_protocol::{ItemEnd, Job};

// How the first item ended.
fn first_of(ended: &[ReadItem]) -> Option<ItemEnd>
    ensures { result ≡ first_end (map done_item ended.now) }
{
    match ended {
        [first, ..] => Some(first.how),
        [] => None,
    }
}

// How the items of this many jobs ended.
fn ends_of(
    alloc: Global,
    keep: &Holder<'_>,
    count: usize,
) -> Result<Vec<Option<ItemEnd>>, AllocError>
    requires { count ≤ length (state_of keep.now).kept }
    ensures { IfOk result (λ ends. ends.items ≡ map end_of (take count (state_of keep.now).kept)) }
{
    let mut ends = Vec::new(alloc);
    for job in 0..count {
        ends.push(first_of(keep.ended(job)))?;
    }
    Ok(ends)
}

/// Whether an item ended with the number and the digest of this entry.
pub fn is_equal(file: &FileEntry, end: &Option<ItemEnd>) -> bool
    ensures { result ≡ is_equal (file_entry_of file.now) end.now }
{
    match end {
        Some(ItemEnd::Whole { length, sum }) => *length == file.size && *sum == file.sum,
        Some(ItemEnd::Vanished) | None => false,
    }
}

/// Has these digest jobs of one item each done, and returns how each item ended.
pub fn run_digests<L: Link, U: Scheduler>(
    alloc: Global,
    jobs: &[Job],
    pool: &mut Pool<L, U>,
) -> Result<Vec<Option<ItemEnd>>, DispatchFault>
    requires few { vec_len pool.old.links < 2 ^ 32 }
    requires few_jobs { length jobs.now < 2 ^ 32 }
    requires fits { All (λ j. FitsJob (job_of j)) jobs.now }
    requires ready { AreReady (links_in L.link_state pool.old) }
    requires digests { AreDigests (map job_of jobs.now) }
    ensures ends { IfOk result (λ ends. AreEnds (links_in L.link_state pool.old) (map job_of jobs.now) ends.items) }
    ensures left { OnOk result (LeavesLinks L.link_state pool.old pool.new) }
    ensures fault { IfErr result (JobsEndEarly (map job_of jobs.now) L.link_state pool.old pool.new 0 0) }
{
    let mut keep = Holder::new(alloc, jobs)?;
    run_jobs(alloc, jobs, pool, &mut keep, &mut ())?;
    Ok(ends_of(alloc, &keep, jobs.len())?)
}
