// Has files written by workers, or reports the first that isn't.
ghost use Rattle.std.specs.Prelude.{◌≡◌, ◌<◌, ◌≤◌, ◌^◌, All, map, length, vec_len, IfErr, OnOk};
ghost use Rattle.worker_protocol.specs.Frames.{FitsJob};
ghost use Rattle.worker_protocol.specs.Views.{job_of};
ghost use Rattle.worker_pool.specs.Pools.{links_in, LeavesLinks, PoolReadsRise, ReportsLosses};
ghost use Rattle.worker_pool.specs.Run.{AreReady};
ghost use Rattle.restore_steps.specs.Apart.{AreApart};
ghost use Rattle.restore_steps.specs.Keeping.{IsNoneOf, HaveFolders};
ghost use Rattle.restore_steps.specs.Trees.{ProperWhere, SameWhere};
ghost use Rattle.restore_make.specs.Written.{AreJobsOf};
ghost use Rattle.restore_make.specs.Jobs.{FetchesAll, FailsToWrite};

use crate::fault::FillFault;
use crate::file_jobs::{FileJobs, run_files};
use crate::file_results::{check_files, named};
use base_devices::{DataFolder, Link, Scheduler};
use std::alloc::Global;
use worker_pool::Pool;

/// Has each file read by its job and written. A file whose bytes aren't those that are requested is refused after all
/// were read.
pub fn write_files<'a, T: DataFolder, L: Link, U: Scheduler>(
    alloc: Global,
    asked: &FileJobs<'a>,
    pool: &mut Pool<L, U>,
    tree: &mut T,
) -> Result<(), FillFault>
    requires few { vec_len pool.old.links < 2 ^ 32 }
    requires few_jobs { length asked.now.jobs.now < 2 ^ 32 }
    requires fits { All (λ j. FitsJob (job_of j)) asked.now.jobs.now }
    requires ready { AreReady (links_in L.link_state pool.old) }
    requires jobs { AreJobsOf asked.now.wanted.now (map job_of asked.now.jobs.now) }
    requires apart { AreApart (map (λ w. w.path.now) asked.now.wanted.now) }
    // Each file has bytes that a link read, with the number and the digest that are requested.
    ensures fetched { OnOk result (FetchesAll asked.now L.link_state pool.old (T.state tree.new)) }
    // Whatever the result, only these files and their temporary names have changed.
    ensures others { SameWhere (IsNoneOf asked.now.wanted.now) (T.state tree.old) (T.state tree.new) }
    // Where the files have their folders, no call is faulty.
    ensures proper { ProperWhere (HaveFolders asked.now.wanted.now) (T.state tree.old) (T.state tree.new) }
    ensures opened { (T.state tree.new).opened ≡ (T.state tree.old).opened }
    ensures later { (T.state tree.old).faults ≤ (T.state tree.new).faults }
    // The links that weren't lost are left at Ok, and each of the others is reported.
    ensures left { OnOk result (LeavesLinks L.link_state pool.old pool.new) }
    ensures some { OnOk result (0 < length pool.old.links.items → 0 < length pool.new.links.items) }
    ensures reads { OnOk result (PoolReadsRise (map job_of asked.now.jobs.now) L.link_state pool.old pool.new) }
    ensures known { ReportsLosses (map job_of asked.now.jobs.now) L.link_state pool.old pool.new }
    ensures fault { IfErr result (FailsToWrite asked.now L.link_state pool.old pool.new T.state tree.old tree.new) }
{
    match run_files(alloc, asked, pool, tree) {
        Ok(files) => check_files(alloc, &files),
        Err(fault) => Err(named(alloc, asked.wanted, fault)?),
    }
}
