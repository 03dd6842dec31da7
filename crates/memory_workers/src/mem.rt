// A link to a worker in memory.
ghost use Rattle.std.specs.Prelude.{◌≡◌, [], length, min, IfOk, OnErr};
ghost use Rattle.base_devices.specs.Links.{SendLeaves, ReceiveLeaves};
ghost use Rattle.memory_devices.specs.State.{given_at};
ghost use Rattle.worker_pool.specs.Reads.{IsSteadyWorker};
ghost use Rattle.memory_workers.specs.Counts.{is_to_fail, counted, FailsWhere};
ghost use Rattle.memory_workers.specs.Workers.{known_of, state_of, IsFirst, ReadsFiles};

use crate::raw::RawLink;
use crate::worker::Worker;
use base_devices::{DeviceError, Link};
use std::alloc::{AllocError, Global};

/// Answers as a worker whose two roots hold these files. A receive gives as many bytes as fit. All of that is known.
#[derive(Drop)]
pub struct MemLink {
    worker: Worker,
    raw: RawLink,
}

impl MemLink {
    /// Of a path that is given twice the last one counts. `fail` has the numbers of the calls that are to fail, the
    /// first being 0: with none of them it is a steady worker.
    pub fn new(
        alloc: Global,
        tree: Vec<(String, Vec<u8>)>,
        repo: Vec<(String, Vec<u8>)>,
        fail: Vec<u64>,
    ) -> Result<Self, AllocError>
        ensures state { IfOk result (IsFirst (given_at tree.items) (given_at repo.items) fail.items) }
        ensures reads { IfOk result (ReadsFiles (given_at tree.items) (given_at repo.items)) }
        ensures worker { IfOk result (λ l. fail.items ≡ []
            → IsSteadyWorker (⟦<MemLink as Link>⟧.link_state l).known) }
        ensures counts { IfOk result (λ l. l.raw.failing ≡ record { fail = fail; calls = 0; faults = 0 }) }
    {
        Ok(MemLink {
            worker: Worker::new(alloc, tree, repo)?,
            raw: RawLink::new(Vec::new(alloc), fail),
        })
    }

    /// How many jobs it was sent.
    pub fn jobs(&self) -> u64
        ensures { result ≡ (⟦<MemLink as Link>⟧.link_state self.now).jobs }
    {
        self.raw.jobs()
    }

    /// How often a call failed.
    pub fn faults(&self) -> u64
        ensures { result ≡ (⟦<MemLink as Link>⟧.link_state self.now).faults }
    {
        self.raw.faults()
    }
}

impl Link for MemLink {
    ghost link_state = { state_of };

    fn send(&mut self, bytes: &[u8]) -> Result<(), DeviceError>
        ensures leaves { SendLeaves result bytes.now (state_of self.old) (state_of self.new) }
        ensures same { OnErr result (known_of self.new ≡ known_of self.old) }
        ensures fails { FailsWhere (is_to_fail self.old.raw.failing) result }
        ensures counts { self.new.raw.failing ≡ counted self.old.raw.failing }
    {
        self.raw.send(bytes)?;
        let Ok(answer) = self.worker.answer(bytes) else {
            return Err(DeviceError::NoMemory);
        };
        self.raw.add(&answer)?;
        Ok(())
    }

    fn receive(&mut self, buf: &mut [u8]) -> Result<usize, DeviceError>
        ensures leaves { ReceiveLeaves result buf.new (state_of self.old) (state_of self.new) }
        ensures count { IfOk result (λ n. n ≡ min (length (known_of self.old).pending) (length buf.old)) }
        ensures same { OnErr result (known_of self.new ≡ known_of self.old) }
        ensures fails { FailsWhere (is_to_fail self.old.raw.failing) result }
        ensures counts { self.new.raw.failing ≡ counted self.old.raw.failing }
    {
        self.raw.receive(buf)
    }
}
