// A worker in memory: what it answers to a frame.
ghost use Rattle.std.specs.Prelude.{◌≡◌, true, false, None, IfOk};
ghost use Rattle.memory_devices.specs.State.{given_at};
ghost use Rattle.worker_protocol.specs.Frames.{Job as TheJob};
ghost use Rattle.memory_workers.specs.Workers.{job_in, IsJobFrame, IsTalk, answer, answer_of, files_in};

use base_devices::{DeviceError, Files, InputFiles};
use base_text::NoMemory;
use memory_devices::{MemFiles, MemInputFiles, MemOutput};
use std::alloc::{AllocError, Global};
use worker_process::serve;
use worker_protocol::{Frame, FrameFault, Roots, decode_frame, encode_setup};

/// Files in memory, no call of which is to fail: only memory may run out.
#[derive(Drop)]
pub(crate) struct SureFiles {
    files: MemFiles,
}

impl Files for SureFiles {
    ghost use Rattle.std.specs.Prelude.{Some, string_bytes};

    ghost files = { λ f. Some (files_in f) };

    ghost faults = { λ f. 0 };

    ghost place = { λ f. string_bytes f.files.place };

    fn open(&mut self, root: &str) -> Result<(), DeviceError> {
        match self.files.open(root) {
            Ok(()) => Ok(()),
            Err(_) => Err(DeviceError::NoMemory),
        }
    }

    fn read(&mut self, name: &str, at: u64, buf: &mut [u8]) -> Result<Option<usize>, DeviceError> {
        match self.files.read(name, at, buf) {
            Ok(read) => Ok(read),
            Err(_) => Err(DeviceError::NoMemory),
        }
    }
}

fn sure_files(alloc: Global, files: Vec<(String, Vec<u8>)>) -> Result<SureFiles, AllocError>
    ensures { IfOk result (λ f. files_in f ≡ given_at files.items) }
{
    let files = MemFiles::new(alloc, files, Vec::new(alloc))?;
    Ok(SureFiles { files })
}

/// Whether the bytes are exactly the frame of a job.
fn is_job(alloc: Global, frame: &[u8]) -> Result<bool, NoMemory>
    ensures is { IfOk result (λ b. b ≡ true → (j : TheJob) × IsJobFrame frame.now j) }
    ensures not { IfOk result (λ b. b ≡ false → job_in frame.now ≡ None) }
{
    match decode_frame(alloc, frame) {
        Ok((Frame::Job(_), size)) => Ok(size == frame.len()),
        Err(FrameFault::NoMemory) => Err(NoMemory),
        _ => Ok(false),
    }
}

/// A setup and a frame after it, to be read.
fn open_talk(alloc: Global, frame: &[u8]) -> Result<MemInputFiles, NoMemory>
    ensures { IfOk result (λ s. IsTalk frame.now (⟦<MemInputFiles as InputFiles>⟧.state s).left) }
{
    let roots = Roots {
        tree: String::new(alloc),
        repo: String::new(alloc),
    };
    let mut talk = encode_setup(alloc, &roots)?;
    talk.extend_from_slice(frame)?;
    let mut input = MemInputFiles::new(alloc, Some(talk), Vec::new(alloc));
    let Ok(_) = input.open("") else {
        return Err(NoMemory);
    };
    Ok(input)
}

/// The reply to a job: all that a worker writes where the job is the only one after its setup.
fn reply_to(
    alloc: Global,
    tree: &mut SureFiles,
    repo: &mut SureFiles,
    frame: &[u8],
) -> Result<Vec<u8>, NoMemory>
    requires { (j : TheJob) × IsJobFrame frame.now j }
    ensures bytes { IfOk result (λ v. v.items ≡ answer (files_in tree.old) (files_in repo.old) frame.now) }
    ensures tree { files_in tree.new ≡ files_in tree.old }
    ensures repo { files_in repo.new ≡ files_in repo.old }
{
    let mut input = open_talk(alloc, frame)?;
    let mut out = MemOutput::new(alloc, Vec::new(alloc));
    // No call is to fail and the input is a whole talk, so only memory may run out.
    let Ok(_) = serve(alloc, &mut input, &mut out, tree, repo) else {
        return Err(NoMemory);
    };
    Ok(Vec::from_slice(alloc, out.written())?)
}

/// A worker whose two roots hold files in memory.
#[derive(Drop)]
pub(crate) struct Worker {
    alloc: Global,
    tree: SureFiles,
    repo: SureFiles,
}

impl Worker {
    pub(crate) fn new(
        alloc: Global,
        tree: Vec<(String, Vec<u8>)>,
        repo: Vec<(String, Vec<u8>)>,
    ) -> Result<Self, AllocError>
        ensures { IfOk result (λ w. answer_of w ≡ answer (given_at tree.items) (given_at repo.items)) }
    {
        Ok(Worker {
            alloc,
            tree: sure_files(alloc, tree)?,
            repo: sure_files(alloc, repo)?,
        })
    }

    /// What it answers to a frame: nothing but to a job.
    pub(crate) fn answer(&mut self, frame: &[u8]) -> Result<Vec<u8>, NoMemory>
        ensures bytes { IfOk result (λ v. v.items ≡ answer_of self.old frame.now) }
        ensures same { answer_of self.new ≡ answer_of self.old }
    {
        if is_job(self.alloc, frame)? {
            reply_to(self.alloc, &mut self.tree, &mut self.repo, frame)
        } else {
            Ok(Vec::new(self.alloc))
        }
    }
}
