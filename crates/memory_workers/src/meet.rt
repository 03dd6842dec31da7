// Two links that answer only once both were sent a job.
ghost use Rattle.std.specs.Prelude.{◌≡◌, Ok, IfOk};
ghost use Rattle.base_devices.specs.Links.{SendLeaves, ReceiveLeaves};
ghost use Rattle.memory_devices.specs.Image.{named};
ghost use Rattle.memory_devices.specs.State.{given_at};
ghost use Rattle.memory_workers.specs.Workers as workers;
ghost use Rattle.memory_workers.specs.Meeting.{state_of, Begins, WaitsOrReceives};

use crate::mem::MemLink;
use base_devices::{DeviceError, Link};
use std::alloc::{AllocError, Global};
use std::cell::Cell;
use std::rc::Rc;

/// Answers as a worker in memory does, but has ended as long as it or the other one of the two wasn't sent a job.
/// Its answers are unknown.
#[derive(Drop)]
pub struct MeetLink {
    link: MemLink,
    // whether it was sent a job, as the other one sees it, and the same for the other one
    own: Rc<Cell<bool>>,
    other: Rc<Cell<bool>>,
}

fn copy_files(
    alloc: Global,
    files: &[(String, Vec<u8>)],
) -> Result<Vec<(String, Vec<u8>)>, AllocError>
    ensures { IfOk result (λ copy. named copy.items ≡ named files.now) }
{
    let mut copy = Vec::new(alloc);
    for (name, bytes) in files {
        copy.push((
            String::from_str(alloc, name)?,
            Vec::from_slice(alloc, bytes)?,
        ))?;
    }
    Ok(copy)
}

impl MeetLink {
    /// Two links to workers whose roots hold these files; of a path that is given twice the last one counts. Each gives
    /// nothing until both were sent a job.
    pub fn two(
        alloc: Global,
        tree: Vec<(String, Vec<u8>)>,
        repo: Vec<(String, Vec<u8>)>,
    ) -> Result<(MeetLink, MeetLink), AllocError>
        ensures one { IfOk result (λ x. Begins (given_at tree.items) (given_at repo.items) x.0) }
        ensures other { IfOk result (λ x. Begins (given_at tree.items) (given_at repo.items) x.1) }
    {
        let tree_too = copy_files(alloc, &tree)?;
        let repo_too = copy_files(alloc, &repo)?;
        let first = Rc::new(alloc, Cell::new(false))?;
        let second = Rc::new(alloc, Cell::new(false))?;
        let one = MeetLink {
            link: MemLink::new(alloc, tree, repo, Vec::new(alloc))?,
            own: Rc::clone(&first)?,
            other: Rc::clone(&second)?,
        };
        let other = MeetLink {
            link: MemLink::new(alloc, tree_too, repo_too, Vec::new(alloc))?,
            own: second,
            other: first,
        };
        Ok((one, other))
    }
}

impl Link for MeetLink {
    ghost link_state = { state_of };

    fn send(&mut self, bytes: &[u8]) -> Result<(), DeviceError>
        ensures leaves { SendLeaves result bytes.now (state_of self.old) (state_of self.new) }
        ensures link { SendLeaves result bytes.now (workers.state_of self.old.link) (workers.state_of self.new.link) }
    {
        self.link.send(bytes)?;
        self.own.set(self.link.jobs() > 0);
        Ok(())
    }

    fn receive(&mut self, buf: &mut [u8]) -> Result<usize, DeviceError>
        ensures leaves { ReceiveLeaves result buf.new (state_of self.old) (state_of self.new) }
        // It gives nothing before it was sent a job, and later nothing or what the link in it gives.
        ensures early { (state_of self.old).jobs ≡ 0 → result ≡ Ok 0 }
        ensures link { WaitsOrReceives result buf.new self.old self.new }
    {
        if self.link.jobs() == 0 || !self.other.get() {
            return Ok(0);
        }
        self.link.receive(buf)
    }
}
