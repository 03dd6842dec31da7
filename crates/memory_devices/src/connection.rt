// A connection in memory.
ghost use Rattle.std.specs.Prelude.{◌≡◌, ◌≤◌, [], Some, drop, vec_len, string_bytes};

use crate::failing::Failing;
use base_devices::{DeviceError, ServerConnection};
use std::alloc::Global;

/// A connection that gives its input in pieces of these sizes, and as much as fits after the last, and keeps what it
/// was sent.
#[derive(Drop)]
pub struct MemConnection {
    alloc: Global,
    input: Vec<u8>,
    // how many bytes of it were given
    at: usize,
    cuts: Vec<u32>,
    // how many pieces were given
    cut: usize,
    sent: Vec<u8>,
    place: String,
    failing: Failing,
    ghost within: { at ≤ vec_len input },
}

impl MemConnection {
    /// `fail` has the numbers of the calls that are to fail, the first being 0.
    pub fn new(alloc: Global, input: Vec<u8>, cuts: Vec<u32>, fail: Vec<u64>) -> Self
        ensures pending { (⟦<MemConnection as ServerConnection>⟧.state result).pending ≡ Some input.items }
        ensures sent { (⟦<MemConnection as ServerConnection>⟧.state result).sent ≡ Some [] }
        ensures faults { (⟦<MemConnection as ServerConnection>⟧.state result).faults ≡ 0 }
    {
        MemConnection {
            alloc,
            input,
            at: 0,
            cuts,
            cut: 0,
            sent: Vec::new(alloc),
            place: String::new(alloc),
            failing: Failing::new(fail),
        }
    }

    /// What it was sent.
    pub fn sent(&self) -> &[u8]
        ensures { Some result.now ≡ (⟦<MemConnection as ServerConnection>⟧.state self.now).sent }
    {
        &self.sent
    }

    /// The path that was opened last.
    pub fn place(&self) -> &str
        ensures { result.now ≡ (⟦<MemConnection as ServerConnection>⟧.state self.now).place }
    {
        &self.place
    }

    // The length of the next piece, at least 1.
    fn piece(&self) -> usize
        ensures { 1 ≤ result }
    {
        match self.cuts.get(self.cut) {
            Some(n) => (*n as usize).max(1),
            None => 4096,
        }
    }
}

impl ServerConnection for MemConnection {
    ghost state = { λ w. record {
      pending = Some (drop w.at w.input.items);
      sent = Some w.sent.items;
      place = string_bytes w.place;
      faults = w.failing.faults;
    } };

    fn open(&mut self, path: &str) -> Result<(), DeviceError> {
        if self.failing.fails() {
            return Err(DeviceError::Failed);
        }
        self.place = String::from_str(self.alloc, path)?;
        Ok(())
    }

    fn send(&mut self, bytes: &[u8]) -> Result<(), DeviceError> {
        if self.failing.fails() {
            return Err(DeviceError::Failed);
        }
        self.sent.extend_from_slice(bytes)?;
        Ok(())
    }

    fn receive(&mut self, buf: &mut [u8]) -> Result<usize, DeviceError> {
        if self.failing.fails() {
            return Err(DeviceError::Failed);
        }
        let left = self.input.len() - self.at;
        let count = buf.len().min(left).min(self.piece());
        buf[..count].copy_from_slice(&self.input[self.at..self.at + count]);
        self.at += count;
        if self.cut < self.cuts.len() {
            self.cut += 1;
        }
        Ok(count)
    }
}
