// The output of a command.
ghost use Rattle.std.specs.Prelude.{None};

use base_devices::{DeviceError, OutputStream};
use std::alloc::Global;

/// Keeps what was written. It takes all bytes of a write that isn't to fail; with a width it takes a byte at a time,
/// and none once it has this many.
#[derive(Drop)]
pub(crate) struct Output {
    pub text: Vec<u8>,
    pub faults: u64,
    fail: Vec<u64>,
    width: Option<usize>,
    writes: u64,
}

impl Output {
    /// `fail` has the numbers of the writes that are to fail, the first being 0.
    pub(crate) fn new(alloc: Global, fail: Vec<u64>, width: Option<usize>) -> Self {
        Output {
            text: Vec::new(alloc),
            faults: 0,
            fail,
            width,
            writes: 0,
        }
    }
}

impl OutputStream for Output {
    ghost state = { λ s. record { written = None; faults = s.faults } };

    fn write(&mut self, bytes: &[u8]) -> Result<usize, DeviceError> {
        let number = self.writes;
        self.writes = number.saturating_add(1);
        if self.fail.contains(&number) {
            self.faults = self.faults.saturating_add(1);
            return Err(DeviceError::Failed);
        }
        let Some(width) = self.width else {
            self.text.extend_from_slice(bytes)?;
            return Ok(bytes.len());
        };
        match bytes.first() {
            Some(first) if self.text.len() < width => {
                self.text.push(*first)?;
                Ok(1)
            }
            _ => {
                self.faults = self.faults.saturating_add(1);
                Ok(0)
            }
        }
    }
}
