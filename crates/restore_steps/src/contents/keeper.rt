// A keeper over a data folder.
ghost use Rattle.std.specs.Prelude.{◌≡◌, ℕ, [], Some, map, slice_get, IfOk};
ghost use Rattle.worker_protocol.specs.Frames.{Job as Asked};
ghost use Rattle.worker_protocol.specs.Views.{job_of};
ghost use Rattle.restore_steps.specs.Files.{untouched_of, wanted_of, path_of, AreInOrder};
ghost use Rattle.restore_steps.specs.Apart.{AreApart, HasOneItem, counted};

use crate::contents::files::{Filed, Wanted, add_part, end_file};
use base_devices::{DataFolder, DeviceError};
use std::alloc::{AllocError, Global};
use worker_protocol::{ItemEnd, Job, PartSink};

/// Writes the bytes of each job to its file. Jobs have one item each.
#[derive(Drop)]
pub struct FileKeeper<'a> {
    alloc: Global,
    jobs: &'a [Job],
    files: Vec<Filed<'a>>,
    faults: u64,
    ghost apart: { AreApart (map path_of files.items) },
    ghost one: { (j : ℕ) (job : Asked) → slice_get (map job_of jobs.now) j ≡ Some job → HasOneItem job },
}

// Nothing was received of the file yet.
fn start<'a>(wanted: &Wanted<'a>) -> Filed<'a>
    ensures { result ≡ untouched_of wanted.now }
{
    Filed {
        wanted: *wanted,
        count: 0,
        end: None,
    }
}

fn start_all<'a>(alloc: Global, wanted: &[Wanted<'a>]) -> Result<Vec<Filed<'a>>, AllocError>
    ensures { IfOk result (λ files. files.items ≡ map untouched_of wanted.now) }
{
    wanted.iter().map(|file| start(file)).collect(alloc)
}

impl<'a> FileKeeper<'a> {
    ghost use Rattle.restore_steps.specs.Keeping.{state_of};
    ghost use Rattle.restore_steps.specs.Writing.{HoldsNothing};

    /// It is for these jobs, whose files are to be written so, and has nothing of them yet.
    pub fn new<T: DataFolder>(
        alloc: Global,
        jobs: &'a [Job],
        wanted: &[Wanted<'a>],
        tree: &T,
    ) -> Result<Self, AllocError>
        requires apart { AreApart (map (λ w. w.path.now) wanted.now) }
        requires one { (j : ℕ) (job : Asked) → slice_get (map job_of jobs.now) j ≡ Some job → HasOneItem job }
        ensures jobs { IfOk result (λ k. (state_of k (T.state tree.now).nodes).jobs ≡ map job_of jobs.now) }
        ensures wanted { IfOk result (λ k. map wanted_of k.files.items ≡ wanted.now) }
        ensures empty { IfOk result (HoldsNothing wanted.now (T.state tree.now)) }
        ensures agrees { IfOk result (λ k. AreInOrder (T.state tree.now).nodes k.files.items) }
        ensures faults { IfOk result (λ k. k.faults ≡ 0) }
    {
        let files = start_all(alloc, wanted)?;
        Ok(FileKeeper {
            alloc,
            jobs,
            files,
            faults: 0,
        })
    }

    /// The files, with the result of each.
    pub fn into_files(self) -> Vec<Filed<'a>>
        ensures { result ≡ self.entry.files }
    {
        self.files
    }

    // Counts a fault.
    fn count(&mut self, stop: DeviceError) -> DeviceError
        ensures known { result ≡ stop }
        ensures jobs { self.new.jobs ≡ self.old.jobs }
        ensures files { self.new.files ≡ self.old.files }
        ensures faults { self.new.faults ≡ counted stop self.old.faults }
    {
        if let DeviceError::Failed = stop {
            self.faults = self.faults.saturating_add(1);
        }
        stop
    }
}

impl<'a, T: DataFolder> PartSink<T> for FileKeeper<'a> {
    ghost use Rattle.restore_steps.specs.Keeping.{state_of, Later};
    ghost use Rattle.restore_steps.specs.Laters.{later_same, later_through};

    ghost kept = { λ k t. state_of k (T.state t).nodes };

    ghost agrees = { λ k t. AreInOrder (T.state t).nodes k.files.items };

    ghost later = { λ a u b v. Later a b (T.state u) (T.state v) };

    ghost later_same = { λ k t. later_same k (T.state t) };

    ghost later_through = { λ a u b v c w p q. later_through a b c (T.state u) (T.state v) (T.state w) p q };

    fn part(&mut self, on: &mut T, job: u32, _item: u32, bytes: &[u8]) -> Result<(), DeviceError> {
        match add_part(self.alloc, on, &mut self.files[job as usize], bytes) {
            Ok(()) => Ok(()),
            Err(stop) => Err(self.count(stop)),
        }
    }

    fn end(&mut self, on: &mut T, job: u32, _item: u32, how: &ItemEnd) -> Result<(), DeviceError> {
        match end_file(self.alloc, on, &mut self.files[job as usize], how) {
            Ok(()) => Ok(()),
            Err(stop) => Err(self.count(stop)),
        }
    }

    fn again(&mut self, _on: &mut T, job: u32) -> Result<(), DeviceError> {
        let file = &mut self.files[job as usize];
        file.count = 0;
        file.end = None;
        Ok(())
    }
}
