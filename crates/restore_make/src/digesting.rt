// Has workers digest files of the data folder.
ghost use Rattle.std.specs.Prelude.{◌≡◌, ◌<◌, ◌^◌, map, length, vec_len, IfOk, OnOk};
ghost use Rattle.base_model.specs.Text.{In};
ghost use Rattle.base_model.specs.Values.{FileEntry as Entry, file_entry_of};
ghost use Rattle.worker_protocol.specs.Views.{job_of};
ghost use Rattle.worker_pool.specs.Pools.{links_in, LeavesLinks};
ghost use Rattle.worker_pool.specs.Run.{AreReady};
ghost use Rattle.restore_steps.specs.Sources.{IsEntry};
ghost use Rattle.restore_make.specs.Kept.{digesting};
ghost use Rattle.restore_make.specs.Digested.{file_of, AreEnds, NamesCandidate};
ghost use Rattle.restore_make.specs.Candidates.{DigestsFail};
ghost use Rattle.restore_make.specs.Faults.{HasItsFile};

use crate::candidates::Candidate;
use crate::fault::FillFault;
use base_devices::{Link, Scheduler};
use base_model::FileEntry;
use base_text::NoMemory;
use std::alloc::{AllocError, Global};
use worker_pool::{DispatchFault, Pool, run_digests};
use worker_protocol::{Item, ItemEnd, Job, JobKind, Root};

// The job that digests a file of the data folder.
fn digest_job(alloc: Global, file: &FileEntry) -> Result<Job, AllocError>
    ensures { IfOk result (λ job. job_of job ≡ digesting (file_entry_of file.now)) }
{
    let mut items = Vec::new(alloc);
    items.push(Item {
        root: Root::DataFolder,
        path: file.path.clone()?,
        at: 0,
        size: file.size,
    })?;
    Ok(Job {
        kind: JobKind::Digest,
        items,
    })
}

// A job for each candidate. 2^32 jobs or more count as out of memory.
fn digest_jobs(alloc: Global, candidates: &[Candidate<'_>]) -> Result<Vec<Job>, NoMemory>
    ensures few { IfOk result (λ jobs. length jobs.items < 2 ^ 32) }
    ensures jobs { IfOk result (λ jobs. map job_of jobs.items ≡ map digesting (map file_of candidates.now)) }
{
    let mut jobs = Vec::new(alloc);
    for candidate in candidates {
        jobs.push(digest_job(alloc, candidate.file)?)?;
    }
    if jobs.len() > u32::MAX as usize {
        return Err(NoMemory);
    }
    Ok(jobs)
}

/// The fault of a run of jobs in memory, by the name of the candidate's file.
pub(crate) fn named(
    alloc: Global,
    candidates: &[Candidate<'_>],
    fault: DispatchFault,
) -> Result<FillFault, AllocError>
    requires { HasItsFile fault (length candidates.now) }
    ensures { IfOk result (λ e. NamesCandidate candidates.now fault e) }
{
    match fault {
        DispatchFault::WorkersLost => Ok(FillFault::WorkersLost),
        DispatchFault::Unread { job, .. } => {
            let file = candidates[job as usize].file;
            Ok(FillFault::Unread {
                path: file.path.clone()?,
            })
        }
        DispatchFault::PartSink | DispatchFault::NoMemory => Ok(FillFault::NoMemory),
    }
}

/// Has the candidates digested in the data folder, and returns how each ended.
pub(crate) fn digest<L: Link, U: Scheduler>(
    alloc: Global,
    candidates: &[Candidate<'_>],
    pool: &mut Pool<L, U>,
) -> Result<Vec<Option<ItemEnd>>, FillFault>
    requires few { vec_len pool.old.links < 2 ^ 32 }
    requires ready { AreReady (links_in L.link_state pool.old) }
    requires entries { (e : Entry) → In e (map file_of candidates.now) → IsEntry e }
    ensures ends { IfOk result (λ ends. AreEnds (links_in L.link_state pool.old) candidates.now ends.items) }
    ensures left { OnOk result (LeavesLinks L.link_state pool.old pool.new) }
    ensures fault { DigestsFail result (map file_of candidates.now) L.link_state pool.old pool.new }
{
    let jobs = digest_jobs(alloc, candidates)?;
    match run_digests(alloc, &jobs, pool) {
        Ok(ends) => Ok(ends),
        Err(fault) => Err(named(alloc, candidates, fault)?),
    }
}
