// The standard input.
ghost use Rattle.std.specs.Prelude.{◌≡◌, ◌≤◌, [], None, IfOk, length};

use crate::place::call_of;
use adapters_process::Faults;
use base_devices::{DeviceError, InputFiles};
use std::io;
use std::io::{ErrorKind, Read};

/// It is read from where it is, and can't be opened. Its contents are unknown.
#[derive(Drop)]
pub struct RealInput {
    rt: HostRuntime,
    faults: Faults,
}

impl RealInput {
    pub fn new(rt: HostRuntime) -> Self
        ensures { result.faults.count ≡ 0 }
    {
        RealInput {
            rt,
            faults: Faults::new(),
        }
    }
}

impl InputFiles for RealInput {
    ghost state = { λ s. record { files = None; left = None; place = []; faults = s.faults.count } };

    fn open(&mut self, _path: &str) -> Result<bool, DeviceError> {
        self.faults.counted(
            &call_of(&self.rt, "opening of", "standard input"),
            Err(io::Error::from(ErrorKind::Unsupported)),
        )
    }

    fn read(&mut self, buf: &mut [u8]) -> Result<usize, DeviceError> {
        let done = read_some(&self.rt, buf);
        self.faults
            .counted(&call_of(&self.rt, "reading of", "standard input"), done)
    }
}

// Reads again where a signal came.
fn read_some(rt: &HostRuntime, buf: &mut [u8]) -> io::Result<usize>
    ensures { IfOk result (λ n. n ≤ length buf.old) }
{
    let mut input = rt.stdin();
    for _ in 0..u64::MAX {
        match input.read(buf) {
            Err(e) if e.kind() == ErrorKind::Interrupted => {}
            done => return done,
        }
    }
    Err(io::Error::from(ErrorKind::Interrupted))
}
