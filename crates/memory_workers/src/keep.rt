// A keeper in memory, of all bytes or of their number alone.
ghost use Rattle.std.specs.Prelude.{◌≡◌, ◌<◌, ◌+◌, ◌^◌, Bool, true, false, [], None, ⊤, length, map, slice_get, All, IfOk, OnOk, IfErr};
ghost use Rattle.std.proofs.Common.{refl, ◌∙◌};
ghost use Rattle.worker_protocol.specs.Views.{job_of};
ghost use Rattle.worker_protocol.specs.PartSinkState.{KeepLeaves, Adds, Ends, Clears, IsNext, HasRoom};
ghost use Rattle.worker_pool.specs.Holdings.{HoldsNothing};
ghost use Rattle.memory_workers.specs.Counts.{is_to_fail, counted, FailsWhere, IsUnfailing};
ghost use Rattle.memory_workers.specs.Keeps.{kept_of, state_of, HaveEnded, IsEmpty};
ghost use Rattle.base_devices.specs.declared.device_error.DeviceError.TheVariants.{NoMemory};

use crate::failing::Failing;
use base_devices::DeviceError;
use std::alloc::{AllocError, Global};
use worker_protocol::{ItemEnd, Job, PartSink};

/// An item that has ended: how many bytes were received of it, those that were held, and how it ended.
#[derive(Debug, Drop)]
pub struct HeldItem {
    pub count: u64,
    pub bytes: Vec<u8>,
    pub how: ItemEnd,
}

// What is held of a job: the items that have ended, in order, and the number and the bytes of the next.
#[derive(Drop)]
struct KeptJob {
    ended: Vec<HeldItem>,
    count: u64,
    bytes: Vec<u8>,
}

/// Keeps all bytes of the jobs that it is for, or counts them.
#[derive(Drop)]
pub struct MemPartSink<'a> {
    alloc: Global,
    jobs: &'a [Job],
    holds: bool,
    kept: Vec<KeptJob>,
    failing: Failing,
}

fn fresh_jobs(alloc: Global, count: usize) -> Result<Vec<KeptJob>, AllocError>
    ensures { IfOk result (λ jobs. (length jobs.items ≡ count) × All IsEmpty jobs.items) }
{
    let mut jobs = Vec::new(alloc);
    for _ in 0..count {
        jobs.push(KeptJob {
            ended: Vec::new(alloc),
            count: 0,
            bytes: Vec::new(alloc),
        })?;
    }
    Ok(jobs)
}

// Takes bytes of the next item, which are held where that is asked for. A number that isn't a `u64` can't be kept.
fn take_part(kept: &mut KeptJob, holds: bool, bytes: &[u8]) -> Result<(), DeviceError>
    ensures adds { OnOk result (Adds bytes.now (kept_of holds kept.old) (kept_of holds kept.new)) }
    ensures memory { IfErr result (λ e. e ≡ NoMemory) }
{
    let Some(count) = kept.count.checked_add(bytes.len() as u64) else {
        return Err(DeviceError::NoMemory);
    };
    if holds {
        kept.bytes.extend_from_slice(bytes)?;
    }
    kept.count = count;
    Ok(())
}

impl<'a> MemPartSink<'a> {
    /// It holds all bytes, and nothing of the jobs yet. `fail` has the numbers of the calls that are to fail, the first
    /// being 0.
    pub fn new(alloc: Global, jobs: &'a [Job], fail: Vec<u64>) -> Result<Self, AllocError>
        ensures jobs { IfOk result (λ k. (state_of k).jobs ≡ map job_of jobs.now) }
        ensures empty { IfOk result (λ k. HoldsNothing (map job_of jobs.now) (state_of k)) }
        ensures holds { IfOk result (λ k. k.holds ≡ true) }
        ensures counts { IfOk result (λ k. k.failing ≡ record { fail = fail; calls = 0; faults = 0 }) }
    {
        Ok(MemPartSink {
            alloc,
            jobs,
            holds: true,
            kept: fresh_jobs(alloc, jobs.len())?,
            failing: Failing::new(fail),
        })
    }

    /// It counts the bytes, and has none of the jobs yet. No call fails.
    pub fn counting(alloc: Global, jobs: &'a [Job]) -> Result<Self, AllocError>
        ensures jobs { IfOk result (λ k. (state_of k).jobs ≡ map job_of jobs.now) }
        ensures empty { IfOk result (λ k. HoldsNothing (map job_of jobs.now) (state_of k)) }
        ensures holds { IfOk result (λ k. k.holds ≡ false) }
        ensures counts { IfOk result (λ k. IsUnfailing k.failing) }
    {
        Ok(MemPartSink {
            alloc,
            jobs,
            holds: false,
            kept: fresh_jobs(alloc, jobs.len())?,
            failing: Failing::new(Vec::new(alloc)),
        })
    }

    /// The items of a job that have ended, in order: none of a job that there isn't.
    pub fn ended(&self, job: usize) -> &[HeldItem]
        ensures items { HaveEnded self.now job result.now }
        ensures none { slice_get (state_of self.now).kept job ≡ None → result.now ≡ [] }
    {
        match self.kept.get(job) {
            Some(kept) => &kept.ended,
            None => &[],
        }
    }
}

impl<'a> PartSink<()> for MemPartSink<'a> {
    ghost kept = { λ k _. state_of k };

    ghost agrees = { λ _ _. ⊤ };

    ghost later = { λ a _ b _. (b.jobs ≡ a.jobs) × (b.holds ≡ a.holds) };

    fn part(&mut self, _on: &mut (), job: u32, item: u32, bytes: &[u8]) -> Result<(), DeviceError>
        requires room { HasRoom (state_of self.old) job item bytes.now }
        ensures agrees { OnOk result ⊤ }
        ensures later { (self.new.jobs ≡ self.old.jobs) × (self.new.holds ≡ self.old.holds) }
        ensures kept { KeepLeaves result (Adds bytes.now) job (state_of self.old) (state_of self.new) }
        ensures fails { FailsWhere (is_to_fail self.old.failing) result }
        ensures counts { self.new.failing ≡ counted self.old.failing }
    {
        if self.failing.fails() {
            return Err(DeviceError::Failed);
        }
        take_part(&mut self.kept[job as usize], self.holds, bytes)?;
        Ok(())
    }

    fn end(&mut self, _on: &mut (), job: u32, item: u32, how: &ItemEnd) -> Result<(), DeviceError>
        requires next { IsNext (state_of self.old) job item }
        ensures agrees { OnOk result ⊤ }
        ensures later { (self.new.jobs ≡ self.old.jobs) × (self.new.holds ≡ self.old.holds) }
        ensures kept { KeepLeaves result (Ends how.now) job (state_of self.old) (state_of self.new) }
        ensures fails { FailsWhere (is_to_fail self.old.failing) result }
        ensures counts { self.new.failing ≡ counted self.old.failing }
    {
        if self.failing.fails() {
            return Err(DeviceError::Failed);
        }
        let kept = &mut self.kept[job as usize];
        let bytes = std::mem::replace(&mut kept.bytes, Vec::new(self.alloc));
        let count = kept.count;
        kept.count = 0;
        kept.ended.push(HeldItem {
            count,
            bytes,
            how: *how,
        })?;
        Ok(())
    }

    fn again(&mut self, _on: &mut (), job: u32) -> Result<(), DeviceError>
        requires job { job < length (state_of self.old).kept }
        ensures agrees { OnOk result ⊤ }
        ensures later { (self.new.jobs ≡ self.old.jobs) × (self.new.holds ≡ self.old.holds) }
        ensures kept { KeepLeaves result (Clears) job (state_of self.old) (state_of self.new) }
        ensures fails { FailsWhere (is_to_fail self.old.failing) result }
        ensures counts { self.new.failing ≡ counted self.old.failing }
    {
        if self.failing.fails() {
            return Err(DeviceError::Failed);
        }
        let kept = &mut self.kept[job as usize];
        kept.ended.clear();
        kept.count = 0;
        kept.bytes.clear();
        Ok(())
    }

    ghost later_same = { λ k w. (refl, refl) };

    ghost later_through = { λ a u b v c w p q. (q.0 ∙ p.0, q.1 ∙ p.1) };
}
