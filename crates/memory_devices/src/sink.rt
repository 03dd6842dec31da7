// An output in memory.
ghost use Rattle.std.specs.Prelude.{◌≡◌, ◌++◌, [], Some, IfOk, OnOk, OnErr, length};
ghost use Rattle.base_devices.specs.Cause.{HasCause};
ghost use Rattle.memory_devices.specs.Counts.{is_to_fail, counted, FailsWhere};

use crate::failing::Failing;
use base_devices::{DeviceError, OutputStream};
use std::alloc::Global;

/// An output that keeps what was written, and takes all bytes of a write that isn't to fail.
#[derive(Drop)]
pub struct MemOutput {
    text: Vec<u8>,
    failing: Failing,
}

impl MemOutput {
    /// A sink with nothing written. `fail` has the numbers of the writes that are to fail, the first being 0.
    pub fn new(alloc: Global, fail: Vec<u64>) -> Self
        ensures written { (⟦<MemOutput as OutputStream>⟧.state result).written ≡ Some [] }
        ensures counts { result.failing ≡ record { fail = fail; calls = 0; faults = 0; faulty_calls = 0 } }
    {
        MemOutput {
            text: Vec::new(alloc),
            failing: Failing::new(fail),
        }
    }

    /// What was written so far.
    pub fn written(&self) -> &[u8]
        ensures { (⟦<MemOutput as OutputStream>⟧.state self.now).written ≡ Some result.now }
    {
        &self.text
    }

    /// How often a write failed.
    pub fn faults(&self) -> u64
        ensures { result ≡ (⟦<MemOutput as OutputStream>⟧.state self.now).faults }
    {
        self.failing.faults()
    }
}

impl OutputStream for MemOutput {
    ghost state = { λ s. record { written = Some s.text.items; faults = s.failing.faults } };

    fn write(&mut self, bytes: &[u8]) -> Result<usize, DeviceError>
        // An `Ok` took all of the bytes, and an `Err` none.
        ensures all { IfOk result (λ n. n ≡ length bytes.now) }
        ensures ok { OnOk result (self.new.text.items ≡ self.old.text.items ++ bytes.now) }
        ensures err { OnErr result (self.new.text.items ≡ self.old.text.items) }

        ensures fails { FailsWhere (is_to_fail self.old.failing) result }
        ensures counts { self.new.failing ≡ counted self.old.failing }
        ensures cause { HasCause self.old.failing.faults self.new.failing.faults result }
    {
        if self.failing.fails() {
            return Err(DeviceError::Failed);
        }
        self.text.extend_from_slice(bytes)?;
        Ok(bytes.len())
    }
}
