// Stores the bytes of a backup.
ghost use Rattle.std.specs.Prelude.{◌≡◌, ◌<◌, ◌^◌, All, map, length, vec_len, string_bytes, IfOk, IfErr, OnOk};
ghost use Rattle.base_devices.specs.States.{CallsProperly};
ghost use Rattle.worker_protocol.specs.Frames.{FitsJob};
ghost use Rattle.worker_protocol.specs.Views.{job_of};
ghost use Rattle.worker_pool.specs.Pools.{LeavesLinksAfter, ReportsLosses, links_in};
ghost use Rattle.worker_pool.specs.Run.{AreReady};
ghost use Rattle.backup_sink.specs.Keeping.{IsPlan, Agrees, is_own};
ghost use Rattle.backup_sink.specs.Keeper.{names_of, progress_in};
ghost use Rattle.backup_sink.specs.Relation.{Touches};
ghost use Rattle.backup_sink.specs.Sealed.{IsSealed};
ghost use Rattle.backup_make.specs.Storing.{HasDone, HasPayloads, HasPlaced, IsPathAt, StoringFails};

use crate::fault::MakeFault;
use backup_sink::{BackupKeeper, seal};
use base_devices::{Disk, Link, Scheduler};
use std::alloc::{AllocError, Global};
use worker_pool::{DispatchFault, Pool, run_jobs};
use worker_protocol::Job;

// The path of an item of a job.
fn path_at(alloc: Global, job: &Job, item: u32) -> Result<String, AllocError>
    requires { item < vec_len job.now.items }
    ensures { IfOk result (λ path. IsPathAt (job_of job.now) item (string_bytes path)) }
{
    String::from_str(alloc, &job.items[item as usize].path)
}

/// Has the jobs done, and stores the bytes of each at its name below the folder, durably. What is stored may be partial
/// where it fails.
pub fn store<'a, D: Disk, L: Link, U: Scheduler>(
    alloc: Global,
    d: &mut D,
    pool: &mut Pool<L, U>,
    folder: &'a str,
    jobs: &'a [Job],
    names: &'a [String],
) -> Result<BackupKeeper<'a>, MakeFault>
    requires plan { IsPlan folder.now (map string_bytes names.now) }
    requires same { length jobs.now ≡ length names.now }
    requires few { vec_len pool.old.links < 2 ^ 32 }
    requires few_jobs { length jobs.now < 2 ^ 32 }
    requires fits { All (λ j. FitsJob (job_of j)) jobs.now }
    requires ready { AreReady (links_in L.link_state pool.old) }

    // No name but those of the folder's backup is touched. At Ok a crash leaves each of them unchanged, and so each
    // item with bytes lies at its job's name, after the items before it.
    ensures touches { Touches (is_own folder.now) (D.state d.old).view (D.state d.new).view }
    ensures sealed { OnOk result (IsSealed (is_own folder.now) (D.state d.new).view) }
    ensures placed { IfOk result (HasPlaced (D.state d.new)) }
    ensures frame { CallsProperly (D.state d.old) (D.state d.new) }

    // Each job's bytes lie at its name, as many as the keeper reports, and they are what the links read.
    ensures names { IfOk result (λ k. names_of k ≡ map string_bytes names.now) }
    ensures agrees { IfOk result (λ k. Agrees (names_of k) (progress_in k) (D.state d.new).view.now) }
    ensures done { IfOk result (HasDone jobs.now L.link_state pool.old (D.state d.new)) }
    ensures payload { IfOk result (HasPayloads jobs.now L.link_state pool.old (D.state d.new)) }

    // The links that weren't lost are left at Ok, and each of the others is reported.
    ensures left { OnOk result (LeavesLinksAfter (map job_of jobs.now) L.link_state pool.old pool.new) }
    ensures known { ReportsLosses (map job_of jobs.now) L.link_state pool.old pool.new }
    ensures fault { IfErr result (StoringFails jobs.now L.link_state pool.old pool.new D.state d.old d.new) }
{
    let mut keep = BackupKeeper::new(alloc, folder, jobs, names)?;
    match run_jobs(alloc, jobs, pool, &mut keep, d) {
        Ok(()) => {
            seal(alloc, d, folder)?;
            Ok(keep)
        }
        Err(DispatchFault::WorkersLost) => Err(MakeFault::WorkersLost),
        Err(DispatchFault::Unread { job, item }) => {
            let path = path_at(alloc, &jobs[job as usize], item)?;
            Err(MakeFault::Unread { path })
        }
        Err(DispatchFault::PartSink) => Err(MakeFault::Disk),
        Err(DispatchFault::NoMemory) => Err(MakeFault::NoMemory),
    }
}
