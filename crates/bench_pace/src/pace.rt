// How fast workers are, and one sum.
ghost use Rattle.std.specs.Prelude.{All, IfOk, IfSome, ◌<◌, ◌^◌, length, vec_len};
ghost use Rattle.worker_protocol.specs.Frames.{FitsJob, FitsRoots};
ghost use Rattle.worker_protocol.specs.Views.{job_of, roots_of};

use crate::Asked;
use crate::worker_frames::{read_job, roots_at};
use adapters_process::{RealLink, RoundRobin};
use base_text::Sum;
use memory_workers::MemPartSink;
use std::alloc::{AllocError, Global};
use std::io;
use std::time::Instant;
use worker_pool::{Pool, run_jobs, setup};
use worker_protocol::{Job, Roots};

// A job for each file; none where one can't be asked for.
fn read_jobs(alloc: Global, files: u32, size: u64) -> Result<Option<Vec<Job>>, AllocError>
    ensures fits { IfOk result (λ r. IfSome r (λ jobs. All (λ j. FitsJob (job_of j)) jobs.items)) }
    ensures count { IfOk result (λ r. IfSome r (λ jobs. length jobs.items < 2 ^ 32)) }
{
    let mut jobs = Vec::new(alloc);
    for number in 0..files {
        let path = format!(in alloc; "{number}")?;
        match read_job(alloc, &path, size)? {
            Some(job) => jobs.push(job)?,
            None => return Ok(None),
        }
    }
    Ok(Some(jobs))
}

fn worker(rt: HostRuntime, program: &str) -> Result<RealLink, AllocError> {
    let alloc = rt.alloc();
    let arguments = vec![in alloc; String::from_str(alloc, "local")?]?;
    Ok(RealLink::new(rt, String::from_str(alloc, program)?, arguments))
}

/// How many bytes the workers read of these jobs; none where one of them failed.
pub fn read_all(
    alloc: Global,
    jobs: &[Job],
    roots: &Roots,
    pool: &mut Pool<RealLink, RoundRobin>,
) -> Result<Option<u64>, AllocError>
    requires few { vec_len pool.old.links < 2 ^ 32 }
    requires jobs { (length jobs.now < 2 ^ 32) × All (λ j. FitsJob (job_of j)) jobs.now }
    requires roots { FitsRoots (roots_of roots.now) }
{
    if setup(alloc, pool, roots).is_err() {
        return Ok(None);
    }
    let mut keep = MemPartSink::counting(alloc, jobs)?;
    let ending = run_jobs(alloc, jobs, pool, &mut keep, &mut ());
    if ending.is_err() || !pool.lost.is_empty() {
        return Ok(None);
    }
    let mut bytes = 0u64;
    for job in 0..jobs.len() {
        for item in keep.ended(job) {
            bytes = bytes.saturating_add(item.count);
        }
    }
    Ok(Some(bytes))
}

/// How many bytes two workers read, and in how many microseconds; none where not all was read.
pub fn pace(rt: HostRuntime, asked: &Asked) -> io::Result<Option<(u64, u128)>> {
    let alloc = rt.alloc();
    let Some(jobs) = read_jobs(alloc, asked.files, asked.size)? else {
        return Ok(None);
    };
    let Some(roots) = roots_at(alloc, &asked.folder)? else {
        return Ok(None);
    };
    let mut pool = Pool {
        links: vec![in alloc; worker(rt, &asked.program)?, worker(rt, &asked.program)?]?,
        scheduler: RoundRobin::new(),
        lost: Vec::new(alloc),
    };
    let begun = Instant::now(&rt)?;
    let Some(bytes) = read_all(alloc, &jobs, &roots, &mut pool)? else {
        return Ok(None);
    };
    Ok(Some((bytes, begun.elapsed(&rt)?.as_micros())))
}

/// Bytes that are summed at once.
pub const PIECE: usize = 1 << 20;

/// How many microseconds one pass of SHA-1 takes over this many bytes in memory, in pieces of 1 MiB.
pub fn sum_pace(rt: &HostRuntime, bytes: u64) -> io::Result<u128> {
    let piece = vec![in rt.alloc(); 7u8; PIECE]?;
    let mut last = None;
    let begun = Instant::now(rt)?;
    for _ in 0..bytes / PIECE as u64 {
        last = Some(Sum::of(&piece));
    }
    let ever_taken = begun.elapsed(rt)?.as_micros();
    // the sums are made though nobody asks for them
    if last == Some(Sum::of(&[])) {
        return Ok(0);
    }
    Ok(ever_taken)
}
