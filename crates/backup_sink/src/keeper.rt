// What a backup keeps of its jobs, on its disk.
ghost use Rattle.std.specs.Prelude.{◌≡◌, ◌<◌, length, map, string_bytes, vec_len};
ghost use Rattle.backup_sink.specs.Keeping.{IsPlan};

use crate::parts::{add_part, remove_if};
use base_devices::{DeviceError, Disk};
use std::alloc::{AllocError, Global};
use worker_protocol::{ItemEnd, Job, PartSink};

/// An item that has ended: how many bytes were received of it, and how it ended.
#[derive(Clone, Copy, Debug, PartialEq, Eq, Drop)]
pub struct EndedItem {
    pub count: u64,
    pub how: ItemEnd,
}

/// How far a job has come: whether its name is begun, the items that have ended, and how many bytes were received of
/// the next.
#[derive(Drop)]
pub(crate) struct Stored {
    begun: bool,
    ended: Vec<EndedItem>,
    count: u64,
}

impl Stored {
    ghost use Rattle.std.specs.Prelude.{OnOk, IsErrOf};
    ghost use Rattle.base_devices.specs.declared.device_error.DeviceError.TheVariants.{Failed};
    ghost use Rattle.backup_sink.specs.Keeping.{progress_of, grown, after_end, nothing};

    // Nothing was received.
    fn new(alloc: Global) -> Stored
        ensures { progress_of result ≡ nothing }
    {
        Stored {
            begun: false,
            ended: Vec::new(alloc),
            count: 0,
        }
    }

    // This many bytes were received of the next item.
    fn grow(&mut self, count: u64)
        ensures { progress_of self.new ≡ grown count (progress_of self.old) }
    {
        self.begun = true;
        self.count = count;
    }

    // The next item has its end.
    fn close(&mut self, how: ItemEnd) -> Result<(), DeviceError>
        ensures ok { OnOk result (progress_of self.new ≡ after_end how (progress_of self.old)) }
        ensures none { IsErrOf result Failed → ⊥ }
    {
        let ended = EndedItem {
            count: self.count,
            how,
        };
        self.ended.push(ended)?;
        self.count = 0;
        Ok(())
    }

    // It begins anew.
    fn clear(&mut self)
        ensures { progress_of self.new ≡ nothing }
    {
        self.begun = false;
        self.ended.clear();
        self.count = 0;
    }
}

/// Keeps the bytes of each job at a name of its own, below the folder of a label. Nothing is synced before `seal`.
#[derive(Drop)]
pub struct BackupKeeper<'a> {
    folder: &'a str,
    jobs: &'a [Job],
    names: &'a [String],
    states: Vec<Stored>,
    faults: u64,
    ghost plan: { IsPlan folder.now (map string_bytes names.now) },
    ghost same_jobs: { length jobs.now ≡ length names.now },
    ghost same_states: { vec_len states ≡ length names.now },
}

impl<'a> BackupKeeper<'a> {
    ghost use Rattle.std.specs.Prelude.{◌+◌, Some, Err, OnOk, IfOk, IsSomeAnd, IsErrOf, All, slice_get};
    ghost use Rattle.base_devices.specs.declared.device_error.DeviceError.TheVariants.{Failed};
    ghost use Rattle.worker_protocol.specs.Views.{job_of};
    ghost use Rattle.backup_sink.specs.Keeping.{Becomes, BecomesBy, CountsFault, grown, after_end, nothing};
    ghost use Rattle.backup_sink.specs.Keeper.{folder_of, jobs_of, names_of, progress_in, faults_of, HasSpace, SamePlan};

    /// A keeper for these jobs, each with its name, which has nothing of them.
    pub fn new(
        alloc: Global,
        folder: &'a str,
        jobs: &'a [Job],
        names: &'a [String],
    ) -> Result<Self, AllocError>
        requires plan { IsPlan folder.now (map string_bytes names.now) }
        requires same { length jobs.now ≡ length names.now }
        ensures folder { IfOk result (λ k. folder_of k ≡ folder.now) }
        ensures jobs { IfOk result (λ k. jobs_of k ≡ map job_of jobs.now) }
        ensures names { IfOk result (λ k. names_of k ≡ map string_bytes names.now) }
        ensures empty { IfOk result (λ k. All (λ p. p ≡ nothing) (progress_in k)) }
        ensures faults { IfOk result (λ k. faults_of k ≡ 0) }
    {
        let mut states = Vec::new(alloc);
        for _name in names {
            states.push(Stored::new(alloc))?;
        }
        Ok(BackupKeeper {
            folder,
            jobs,
            names,
            states,
            faults: 0,
        })
    }

    /// How each item of each job ended.
    pub fn into_ends(self, alloc: Global) -> Result<Vec<Vec<EndedItem>>, AllocError>
        ensures { IfOk result (λ ends. map (λ v. v.items) ends.items
            ≡ map (λ p. p.ended) (progress_in self.entry)) }
    {
        let BackupKeeper {
            folder: _,
            jobs: _,
            names: _,
            states,
            faults: _,
        } = self;
        let mut ends = Vec::new(alloc);
        for state in states {
            ends.push(state.ended)?;
        }
        Ok(ends)
    }

    // The name of a job.
    fn name(&self, job: u32) -> &str
        requires { job < length self.now.names.now }
        ensures { slice_get (names_of self.now) job ≡ Some result.now }
    {
        self.names[job as usize].as_str()
    }

    // Whether its name is begun.
    fn is_begun(&self, job: u32) -> bool
        requires { job < length self.now.names.now }
        ensures { IsSomeAnd (slice_get (progress_in self.now) job) (λ p. p.begun ≡ result) }
    {
        self.states[job as usize].begun
    }

    // How many bytes there are of its next item with this many more, for which the item has room. A size is a `u64`.
    fn count_with(&self, job: u32, item: u32, more: u64) -> u64
        requires { HasSpace self.now job item more }
        ensures { IsSomeAnd (slice_get (progress_in self.now) job) (λ p. result ≡ p.count + more) }
    {
        let _size = self.jobs[job as usize].items[item as usize].size;
        self.states[job as usize].count + more
    }

    // This many bytes were received of its next item.
    fn grow(&mut self, job: u32, count: u64)
        requires { job < length self.old.names.now }
        ensures states { BecomesBy job (grown count) (progress_in self.old) (progress_in self.new) }
        ensures same { SamePlan self.old self.new }
        ensures faults { faults_of self.new ≡ faults_of self.old }
    {
        self.states[job as usize].grow(count);
    }

    // Its next item has its end.
    fn close(&mut self, job: u32, how: ItemEnd) -> Result<(), DeviceError>
        requires { job < length self.old.names.now }
        ensures states { OnOk result (BecomesBy job (after_end how) (progress_in self.old) (progress_in self.new)) }
        ensures same { SamePlan self.old self.new }
        ensures faults { faults_of self.new ≡ faults_of self.old }
        ensures none { IsErrOf result Failed → ⊥ }
    {
        self.states[job as usize].close(how)
    }

    // It begins anew.
    #[tactic(auto, using(crate::proofs::JobItems::becomes))]
    fn clear(&mut self, job: u32)
        requires { job < length self.old.names.now }
        ensures states { Becomes job nothing (progress_in self.old) (progress_in self.new) }
        ensures same { SamePlan self.old self.new }
        ensures faults { faults_of self.new ≡ faults_of self.old }
    {
        self.states[job as usize].clear();
    }

    // Reports the failed call, and counts it where the disk failed.
    fn stop(&mut self, stop: DeviceError) -> Result<(), DeviceError>
        ensures result { result ≡ Err stop }
        ensures faults { CountsFault stop (faults_of self.old) (faults_of self.new) }
        ensures same { SamePlan self.old self.new }
        ensures states { progress_in self.new ≡ progress_in self.old }
    {
        if stop == DeviceError::Failed {
            self.faults = self.faults.saturating_add(1);
        }
        Err(stop)
    }
}

impl<'a, D: Disk> PartSink<D> for BackupKeeper<'a> {
    ghost use Rattle.backup_sink.specs.Keeping.{Agrees};
    ghost use Rattle.backup_sink.specs.Keeper.{names_of, progress_in, state_of, KeptOn, kept_on_same, kept_on_through};

    ghost kept = { λ k d. state_of k (D.state d).view.now };

    ghost agrees = { λ k d. Agrees (names_of k) (progress_in k) (D.state d).view.now };

    ghost later = { λ k d k2 d2. KeptOn k (D.state d) k2 (D.state d2) };

    ghost later_same = { λ k d. kept_on_same k (D.state d) };

    ghost later_through = { λ a u b v c w p q. kept_on_through a (D.state u) b (D.state v) c (D.state w) p q };

    fn part(&mut self, on: &mut D, job: u32, item: u32, bytes: &[u8]) -> Result<(), DeviceError> {
        let count = self.count_with(job, item, bytes.len() as u64);
        let begun = self.is_begun(job);
        if let Err(stop) = add_part(on, self.name(job), begun, bytes) {
            return self.stop(stop);
        }
        self.grow(job, count);
        Ok(())
    }

    fn end(&mut self, _on: &mut D, job: u32, _item: u32, how: &ItemEnd) -> Result<(), DeviceError> {
        self.close(job, *how)
    }

    fn again(&mut self, on: &mut D, job: u32) -> Result<(), DeviceError> {
        let begun = self.is_begun(job);
        if let Err(stop) = remove_if(on, self.name(job), begun) {
            return self.stop(stop);
        }
        self.clear(job);
        Ok(())
    }
}
