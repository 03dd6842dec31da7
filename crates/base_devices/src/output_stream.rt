// The trait of an output.
ghost use Rattle.std.specs.Prelude.{◌≡◌, ◌<◌, ◌≤◌, IfOk, OnErr, length, take};
ghost use Rattle.base_devices.specs.Cause.{HasCause};
ghost use Rattle.base_devices.specs.States.{OutputState, WriteFailed, WritesMore};

use crate::DeviceError;

/// An output. A sink that takes none of a piece that has bytes has failed.
pub trait OutputStream {
    /// What was written so far, and its count of faults.
    ghost state: { Self → OutputState };

    /// Takes a first part of the bytes and returns how many.
    fn write(&mut self, bytes: &[u8]) -> Result<usize, DeviceError>
        ensures room { IfOk result (λ n. n ≤ length bytes.now) }
        ensures some { IfOk result (λ n. n ≡ 0 → 0 < length bytes.now → WriteFailed (state self.old) (state self.new)) }
        ensures written { IfOk result (λ n. WritesMore (take n bytes.now) (state self.old) (state self.new)) }
        ensures same { OnErr result ((state self.new).written ≡ (state self.old).written) }
        ensures cause { HasCause (state self.old).faults (state self.new).faults result };
}
