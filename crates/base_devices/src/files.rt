// The trait of the files that a worker reads.
ghost use Rattle.std.specs.Prelude.{◌≡◌, ◌<◌, ◌≤◌, ◌+◌, ◌^◌, ℕ, Option, length, IfOk, OnOk, IfSome};
ghost use Rattle.base_devices.specs.Cause.{HasCause};
ghost use Rattle.base_devices.specs.Content.{Name, Content, ReadsFrom};

use crate::DeviceError;

/// The files of a root, as a worker reads them. Names are relative to the place that was opened last, with `/` between
/// their elements.
pub trait Files {
    /// What each file holds, where that is known.
    ghost files: { Self → Option Content };

    /// How often it failed.
    ghost faults: { Self → ℕ };

    /// The place that was opened last.
    ghost place: { Self → Name };

    /// Opens a folder as the root.
    fn open(&mut self, root: &str) -> Result<(), DeviceError>
        ensures place { OnOk result (place self.new ≡ root.now) }
        ensures files { files self.new ≡ files self.old }
        ensures cause { HasCause (faults self.old) (faults self.new) result };

    /// Bytes of a name from a place on: None where it is absent, 0 at its end. No byte lies at a place that isn't a
    /// `u64`.
    fn read(&mut self, name: &str, at: u64, buf: &mut [u8]) -> Result<Option<usize>, DeviceError>
        ensures bytes { IfOk result (λ n. ReadsFrom (files self.old) name.now at buf.old buf.new n) }
        ensures room { IfOk result (λ n. IfSome n (λ n. n ≤ length buf.old)) }
        ensures within { IfOk result (λ n. IfSome n (λ n. at + n < 2 ^ 64)) }
        ensures files { files self.new ≡ files self.old }
        ensures place { place self.new ≡ place self.old }
        ensures cause { HasCause (faults self.old) (faults self.new) result };
}
