// A keeper in memory: it holds the bytes of its jobs, and how their items ended.
ghost use Rattle.std.specs.Prelude.{◌≡◌, ◌<◌, None, [], ⊤, length, map, slice_get, All, IfOk, OnOk, IfErr, IfSome};
ghost use Rattle.std.proofs.Common.{refl, ◌∙◌};
ghost use Rattle.worker_protocol.specs.Views.{job_of};
ghost use Rattle.worker_protocol.specs.PartSinkState.{KeepLeaves, Adds, Ends, Clears, IsNext, HasRoom};
ghost use Rattle.base_devices.specs.declared.device_error.DeviceError.TheVariants.{NoMemory};
ghost use Rattle.worker_pool.specs.Holdings.{held_job, done_item, state_of, IsEmpty, HoldsNothing};

use base_devices::DeviceError;
use std::alloc::{AllocError, Global};
use worker_protocol::{ItemEnd, Job, PartSink};

/// An item that has ended: the bytes that were read of it, and how it ended.
#[derive(Debug, Drop)]
pub struct ReadItem {
    pub bytes: Vec<u8>,
    pub how: ItemEnd,
}

// What is held of a job: the items that have ended, in order, and the bytes of the next.
#[derive(Drop)]
struct HeldJob {
    ended: Vec<ReadItem>,
    bytes: Vec<u8>,
}

/// Holds all that is read for its jobs. Of a digest job that is no bytes, and its items' ends.
#[derive(Drop)]
pub struct Holder<'a> {
    alloc: Global,
    jobs: &'a [Job],
    held: Vec<HeldJob>,
}

fn fresh_jobs(alloc: Global, count: usize) -> Result<Vec<HeldJob>, AllocError>
    ensures { IfOk result (λ jobs. (length jobs.items ≡ count) × All IsEmpty jobs.items) }
{
    let mut jobs = Vec::new(alloc);
    for _ in 0..count {
        jobs.push(HeldJob {
            ended: Vec::new(alloc),
            bytes: Vec::new(alloc),
        })?;
    }
    Ok(jobs)
}

// Takes bytes of the next item.
fn take_part(held: &mut HeldJob, bytes: &[u8]) -> Result<(), DeviceError>
    ensures adds { OnOk result (Adds bytes.now (held_job held.old) (held_job held.new)) }
    ensures memory { IfErr result (λ e. e ≡ NoMemory) }
{
    held.bytes.extend_from_slice(bytes)?;
    Ok(())
}

impl<'a> Holder<'a> {
    /// It is for these jobs, and holds nothing of them yet.
    pub fn new(alloc: Global, jobs: &'a [Job]) -> Result<Self, AllocError>
        ensures jobs { IfOk result (λ k. (state_of k).jobs ≡ map job_of jobs.now) }
        ensures empty { IfOk result (λ k. HoldsNothing (map job_of jobs.now) (state_of k)) }
    {
        Ok(Holder {
            alloc,
            jobs,
            held: fresh_jobs(alloc, jobs.len())?,
        })
    }

    /// The items of a job that have ended, in order: none of a job that there isn't.
    pub fn ended(&self, job: usize) -> &[ReadItem]
        ensures items { IfSome (slice_get (state_of self.now).kept job) (λ k. k.done ≡ map done_item result.now) }
        ensures none { slice_get (state_of self.now).kept job ≡ None → result.now ≡ [] }
    {
        match self.held.get(job) {
            Some(held) => &held.ended,
            None => &[],
        }
    }
}

impl<'a> PartSink<()> for Holder<'a> {
    ghost kept = { λ k _. state_of k };

    ghost agrees = { λ _ _. ⊤ };

    ghost later = { λ a _ b _. b.jobs ≡ a.jobs };

    fn part(&mut self, _on: &mut (), job: u32, item: u32, bytes: &[u8]) -> Result<(), DeviceError>
        requires room { HasRoom (state_of self.old) job item bytes.now }
        ensures agrees { OnOk result ⊤ }
        ensures later { self.new.jobs ≡ self.old.jobs }
        ensures kept { KeepLeaves result (Adds bytes.now) job (state_of self.old) (state_of self.new) }
    {
        take_part(&mut self.held[job as usize], bytes)?;
        Ok(())
    }

    fn end(&mut self, _on: &mut (), job: u32, item: u32, how: &ItemEnd) -> Result<(), DeviceError>
        requires next { IsNext (state_of self.old) job item }
        ensures agrees { OnOk result ⊤ }
        ensures later { self.new.jobs ≡ self.old.jobs }
        ensures kept { KeepLeaves result (Ends how.now) job (state_of self.old) (state_of self.new) }
    {
        let held = &mut self.held[job as usize];
        let bytes = std::mem::replace(&mut held.bytes, Vec::new(self.alloc));
        held.ended.push(ReadItem { bytes, how: *how })?;
        Ok(())
    }

    fn again(&mut self, _on: &mut (), job: u32) -> Result<(), DeviceError>
        requires job { job < length (state_of self.old).kept }
        ensures agrees { OnOk result ⊤ }
        ensures later { self.new.jobs ≡ self.old.jobs }
        ensures kept { KeepLeaves result (Clears) job (state_of self.old) (state_of self.new) }
    {
        let held = &mut self.held[job as usize];
        held.ended.clear();
        held.bytes.clear();
        Ok(())
    }

    ghost later_same = { λ k w. refl };

    ghost later_through = { λ a u b v c w p q. q ∙ p };
}
