// Connections to worker processes, and the choice among them.
ghost use Rattle.std.specs.Prelude.{◌<◌};
ghost use Rattle.base_devices.specs.Links.{LinkState, SendLeaves, ReceiveLeaves};

use crate::DeviceError;

/// The connection to a worker process.
pub trait Link: Drop {
    /// What it counts, what it gave last, and what is known of its answers.
    ghost link_state: { Self → LinkState };

    /// Sends one whole frame.
    fn send(&mut self, bytes: &[u8]) -> Result<(), DeviceError>
        ensures { SendLeaves result bytes.now (link_state self.old) (link_state self.new) };

    /// The next bytes: 0 into a buffer that has room is the end.
    fn receive(&mut self, buf: &mut [u8]) -> Result<usize, DeviceError>
        ensures { ReceiveLeaves result buf.new (link_state self.old) (link_state self.new) };
}

impl Link for Box<dyn Link> {
    ghost link_state = { λ b. (Link-box b).link_state b.value };

    fn send(&mut self, bytes: &[u8]) -> Result<(), DeviceError> {
        (**self).send(bytes)
    }

    fn receive(&mut self, buf: &mut [u8]) -> Result<usize, DeviceError> {
        (**self).receive(buf)
    }
}

/// Chooses from which of the busy workers a frame is received next.
pub trait Scheduler {
    /// One of this many.
    fn pick(&mut self, count: u64) -> u64
        requires { 0 < count }
        ensures { result < count };
}
