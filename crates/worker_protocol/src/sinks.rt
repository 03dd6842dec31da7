//! The trait of what takes the bytes that workers read.
//!
//! No function. `PartSink` says what its three calls leave: the bytes of an item in order, each part but the last of
//! the full size; its end; a job begun anew. A relation of the keeper's own holds over each call. Each call asks that
//! its device has what it counts on, and leaves it so at Ok.

ghost use Rattle.std.specs.Prelude.{◌<◌, length, OnOk};
ghost use Rattle.worker_protocol.specs.PartSinkState.{PartSinkState, KeepLeaves, Adds, Ends, Clears, IsNext, HasRoom};

use base_devices::DeviceError;
use base_text::Sum;

/// How an item ended.
#[derive(Clone, Copy, Debug, PartialEq, Eq)]
pub enum ItemEnd {
    /// It was read to its end: the number of its bytes, and their digest.
    Whole { length: u64, sum: Sum },
    /// Its file isn't there.
    Vanished,
}

/// Keeps what workers read, on a device. Jobs and their items count from 0.
pub trait PartSink<W> {
    /// What the keeper and its device hold.
    ghost kept: { Self → W → PartSinkState };

    /// Whether the device has what the keeper counts on. It is so from the first call on, until one of them stops.
    ghost agrees: { Self → W → Type 0 };

    /// What they were at one time and are at a later one.
    ghost later: { Self → W → Self → W → Type 0 };

    /// Takes the next bytes of an item, at most 32,768. Each part before had exactly this many.
    fn part(&mut self, on: &mut W, job: u32, item: u32, bytes: &[u8]) -> Result<(), DeviceError>
        requires room { HasRoom (kept self.old on.old) job item bytes.now }
        requires agrees { agrees self.old on.old }
        ensures later { later self.old on.old self.new on.new }
        ensures agrees { OnOk result (agrees self.new on.new) }
        ensures kept { KeepLeaves result (Adds bytes.now) job (kept self.old on.old) (kept self.new on.new) };

    /// Ends an item.
    fn end(&mut self, on: &mut W, job: u32, item: u32, how: &ItemEnd) -> Result<(), DeviceError>
        requires next { IsNext (kept self.old on.old) job item }
        requires agrees { agrees self.old on.old }
        ensures later { later self.old on.old self.new on.new }
        ensures agrees { OnOk result (agrees self.new on.new) }
        ensures kept { KeepLeaves result (Ends how.now) job (kept self.old on.old) (kept self.new on.new) };

    /// Empties a job, which begins anew.
    fn again(&mut self, on: &mut W, job: u32) -> Result<(), DeviceError>
        requires job { job < length (kept self.old on.old).kept }
        requires agrees { agrees self.old on.old }
        ensures later { later self.old on.old self.new on.new }
        ensures agrees { OnOk result (agrees self.new on.new) }
        ensures kept { KeepLeaves result Clears job (kept self.old on.old) (kept self.new on.new) };

    ghost later_same: { (k : Self) (w : W) → later k w k w };

    ghost later_through: { (a : Self) (u : W) (b : Self) (v : W) (c : Self) (w : W) → later a u b v → later b v c w
        → later a u c w };
}
