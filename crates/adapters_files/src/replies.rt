// The standard output of a worker.
ghost use Rattle.std.specs.Prelude.{◌≡◌, ◌<◌, ◌≤◌, None, IfOk, length};

use crate::place::call_of;
use crate::sink::write_some;
use adapters_process::Faults;
use base_devices::{DeviceError, OutputStream};
use std::io;
use std::io::Write;

// A frame of the largest part: its letter, its length, and this many bytes.
const FULL: usize = 5 + (1 << 15);

/// A part that isn't full is the last one of its file: it waits for the frame after it, and both go to the system at
/// once. What was written is unknown.
#[derive(Drop)]
pub struct RealReplies {
    rt: HostRuntime,
    held: Vec<u8>,
    faults: Faults,
}

impl RealReplies {
    pub fn new(rt: HostRuntime) -> Self
        ensures { result.faults.count ≡ 0 }
    {
        RealReplies {
            held: Vec::new(rt.alloc()),
            rt,
            faults: Faults::new(),
        }
    }

    fn put(&mut self, frame: &[u8]) -> io::Result<usize>
        ensures room { IfOk result (λ n. n ≤ length frame.now) }
        ensures some { IfOk result (λ n. 0 < length frame.now → 0 < n) }
        ensures faults { self.new.faults ≡ self.old.faults }
    {
        if self.held.is_empty() && !is_last_part(frame) {
            return write_some(&self.rt, frame);
        }
        let is_next = !self.held.is_empty();
        self.held.extend_from_slice(frame)?;
        if is_next {
            self.let_go()?;
        }
        Ok(frame.len())
    }

    fn let_go(&mut self) -> io::Result<()>
        ensures faults { self.new.faults ≡ self.old.faults }
    {
        let done = self.rt.stdout().write_all(&self.held);
        self.held.clear();
        done
    }
}

impl OutputStream for RealReplies {
    ghost state = { λ s. record { written = None; faults = s.faults.count } };

    fn write(&mut self, bytes: &[u8]) -> Result<usize, DeviceError> {
        let done = self.put(bytes);
        self.faults
            .counted(&call_of(&self.rt, "writing to", "standard output"), done)
    }
}

// Whether it is a part that isn't full.
fn is_last_part(frame: &[u8]) -> bool {
    frame.len() < FULL && frame.first() == Some(&b'P')
}
