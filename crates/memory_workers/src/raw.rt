// A link that gives fixed bytes.
ghost use Rattle.std.specs.Prelude.{◌≡◌, ◌++◌, [], length, min, slice_get, IfOk, OnOk, OnErr};
ghost use Rattle.base_devices.specs.Links.{is_byte, SendLeaves, ReceiveLeaves};
ghost use Rattle.memory_workers.specs.Counts.{is_to_fail, counted, FailsWhere};
ghost use Rattle.memory_workers.specs.Raw.{rest_of, state_of, GivesNext};

use crate::failing::Failing;
use crate::tape::Tape;
use base_devices::{DeviceError, Link};
use std::alloc::AllocError;

/// Gives its input, whatever it is sent, and then ends. A receive gives as many bytes as fit. Its answers are
/// unknown.
#[derive(Drop)]
pub struct RawLink {
    tape: Tape,
    jobs: u64,
    reads: u64,
    failing: Failing,
}

/// Whether this byte is there.
fn has_byte(bytes: &[u8], at: usize, byte: u8) -> bool
    ensures { result ≡ is_byte byte (slice_get bytes.now at) }
{
    match bytes.get(at) {
        Some(&found) => found == byte,
        None => false,
    }
}

impl RawLink {
    /// `fail` has the numbers of the calls that are to fail, the first being 0.
    pub fn new(input: Vec<u8>, fail: Vec<u64>) -> Self
        ensures state { state_of result ≡ record { faults = 0; jobs = 0; reads = 0; given = []; known = None } }
        ensures rest { rest_of result ≡ input.items }
        ensures counts { result.failing ≡ record { fail = fail; calls = 0; faults = 0 } }
    {
        RawLink {
            tape: Tape::new(input),
            jobs: 0,
            reads: 0,
            failing: Failing::new(fail),
        }
    }

    /// How many jobs it was sent.
    pub fn jobs(&self) -> u64
        ensures { result ≡ (⟦<RawLink as Link>⟧.link_state self.now).jobs }
    {
        self.jobs
    }

    /// How often a call failed.
    pub fn faults(&self) -> u64
        ensures { result ≡ (⟦<RawLink as Link>⟧.link_state self.now).faults }
    {
        self.failing.faults()
    }

    /// Adds bytes that it gives after all others.
    pub(crate) fn add(&mut self, bytes: &[u8]) -> Result<(), AllocError>
        ensures rest { OnOk result (rest_of self.new ≡ rest_of self.old ++ bytes.now) }
        ensures same { OnErr result (rest_of self.new ≡ rest_of self.old) }
        ensures state { state_of self.new ≡ state_of self.old }
        ensures counts { self.new.failing ≡ self.old.failing }
    {
        self.tape.add(bytes)
    }
}

impl Link for RawLink {
    ghost link_state = { state_of };

    fn send(&mut self, bytes: &[u8]) -> Result<(), DeviceError>
        ensures leaves { SendLeaves result bytes.now (state_of self.old) (state_of self.new) }
        ensures rest { rest_of self.new ≡ rest_of self.old }
        ensures fails { FailsWhere (is_to_fail self.old.failing) result }
        ensures counts { self.new.failing ≡ counted self.old.failing }
    {
        if self.failing.fails() {
            return Err(DeviceError::Failed);
        }
        if has_byte(bytes, 0, b'J') {
            let jobs = self.jobs;
            self.jobs = jobs.saturating_add(1);
            if has_byte(bytes, 5, b'R') {
                let reads = self.reads;
                self.reads = reads.saturating_add(1);
            }
        }
        Ok(())
    }

    fn receive(&mut self, buf: &mut [u8]) -> Result<usize, DeviceError>
        ensures leaves { ReceiveLeaves result buf.new (state_of self.old) (state_of self.new) }
        ensures count { IfOk result (λ n. n ≡ min (length (rest_of self.old)) (length buf.old)) }
        ensures gives { IfOk result (λ n. GivesNext n buf.new self.old self.new) }
        ensures same { OnErr result (rest_of self.new ≡ rest_of self.old) }
        ensures fails { FailsWhere (is_to_fail self.old.failing) result }
        ensures counts { self.new.failing ≡ counted self.old.failing }
    {
        if self.failing.fails() {
            return Err(DeviceError::Failed);
        }
        Ok(self.tape.give(buf))
    }
}
