// Has files read by workers and written.
ghost use Rattle.std.specs.Prelude.{◌≡◌, ◌<◌, ◌≤◌, ◌^◌, All, map, length, vec_len, IfOk, IfErr, OnOk};
ghost use Rattle.worker_protocol.specs.Frames.{FitsJob};
ghost use Rattle.worker_protocol.specs.Views.{job_of};
ghost use Rattle.worker_pool.specs.Pools.{links_in, LeavesLinks, PoolReadsRise, ReportsLosses};
ghost use Rattle.worker_pool.specs.Run.{AreReady};
ghost use Rattle.restore_steps.specs.Apart.{AreApart};
ghost use Rattle.restore_steps.specs.Keeping.{IsNoneOf, HaveFolders};
ghost use Rattle.restore_steps.specs.Trees.{ProperWhere, SameWhere};
ghost use Rattle.restore_make.specs.Written.{AreJobsOf};
ghost use Rattle.restore_make.specs.Jobs.{WritesAll, RunEndsEarly};

use base_devices::{DataFolder, Link, Scheduler};
use restore_steps::{FileKeeper, Filed, Wanted};
use std::alloc::Global;
use worker_pool::{DispatchFault, Pool, run_jobs};
use worker_protocol::Job;

/// Files that are to be written, each with the job that reads it.
#[derive(Clone, Copy)]
pub struct FileJobs<'a> {
    pub jobs: &'a [Job],
    pub wanted: &'a [Wanted<'a>],
}

/// Has each file read by a worker and written, and returns how each ended. Where one didn't end as requested, the
/// result of it lies under its temporary name.
pub(crate) fn run_files<'a, T: DataFolder, L: Link, U: Scheduler>(
    alloc: Global,
    asked: &FileJobs<'a>,
    pool: &mut Pool<L, U>,
    tree: &mut T,
) -> Result<Vec<Filed<'a>>, DispatchFault>
    requires few { vec_len pool.old.links < 2 ^ 32 }
    requires few_jobs { length asked.now.jobs.now < 2 ^ 32 }
    requires fits { All (λ j. FitsJob (job_of j)) asked.now.jobs.now }
    requires ready { AreReady (links_in L.link_state pool.old) }
    requires jobs { AreJobsOf asked.now.wanted.now (map job_of asked.now.jobs.now) }
    requires apart { AreApart (map (λ w. w.path.now) asked.now.wanted.now) }
    // Each file whose item ended as requested has bytes that a link read, and this many, with this digest.
    ensures written { IfOk result (λ files. WritesAll asked.now L.link_state pool.old (T.state tree.new) files.items) }
    // Whatever the result, only these files and their temporary names have changed.
    ensures others { SameWhere (IsNoneOf asked.now.wanted.now) (T.state tree.old) (T.state tree.new) }
    // Where the files have their folders, no call is faulty.
    ensures proper { ProperWhere (HaveFolders asked.now.wanted.now) (T.state tree.old) (T.state tree.new) }
    ensures opened { (T.state tree.new).opened ≡ (T.state tree.old).opened }
    ensures later { (T.state tree.old).faults ≤ (T.state tree.new).faults }
    ensures left { OnOk result (LeavesLinks L.link_state pool.old pool.new) }
    ensures some { OnOk result (0 < length pool.old.links.items → 0 < length pool.new.links.items) }
    ensures reads { OnOk result (PoolReadsRise (map job_of asked.now.jobs.now) L.link_state pool.old pool.new) }
    ensures known { ReportsLosses (map job_of asked.now.jobs.now) L.link_state pool.old pool.new }
    ensures fault { IfErr result (RunEndsEarly asked.now L.link_state pool.old pool.new T.state tree.old tree.new) }
{
    let mut keep = FileKeeper::new(alloc, asked.jobs, asked.wanted, tree)?;
    run_jobs(alloc, asked.jobs, pool, &mut keep, tree)?;
    Ok(keep.into_files())
}
