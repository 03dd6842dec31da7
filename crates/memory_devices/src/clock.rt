// A clock in memory, by a list of seconds.
ghost use Rattle.std.specs.Prelude.{◌≡◌, ◌≤◌};
ghost use Rattle.base_devices.specs.States.{last_second};

use crate::failing::Failing;
use base_devices::{Clock, DeviceError};

/// The last second of the year 9999.
const LAST_SECOND: u64 = 253_402_300_799;

/// A clock that shows these seconds one after another, then the last one again; but none before one that it showed, or
/// until which it waited.
#[derive(Drop)]
pub struct MemClock {
    seconds: Vec<u64>,
    // how many of them were shown
    at: usize,
    least: u64,
    failing: Failing,
}

impl MemClock {
    /// `fail` has the numbers of the calls that are to fail, the first being 0.
    pub fn new(seconds: Vec<u64>, fail: Vec<u64>) -> Self
        ensures state { ⟦<MemClock as Clock>⟧.state result ≡ record { least = 0; faults = 0 } }
    {
        MemClock {
            seconds,
            at: 0,
            least: 0,
            failing: Failing::new(fail),
        }
    }

    /// How often a call failed.
    pub fn faults(&self) -> u64
        ensures { result ≡ (⟦<MemClock as Clock>⟧.state self.now).faults }
    {
        self.failing.faults()
    }

    // The next of the seconds, where one is left.
    fn next(&mut self) -> u64
        ensures least { self.new.least ≡ self.old.least }
        ensures failing { self.new.failing ≡ self.old.failing }
    {
        match self.seconds.get(self.at) {
            Some(second) => {
                let second = *second;
                self.at += 1;
                second
            }
            None => self.least,
        }
    }
}

impl Clock for MemClock {
    ghost state = { λ c. record { least = c.least; faults = c.failing.faults } };

    fn now(&mut self) -> Result<u64, DeviceError> {
        if self.failing.fails() {
            return Err(DeviceError::Failed);
        }
        let second = self.next().max(self.least);
        if second > LAST_SECOND {
            return Err(self.failing.fault());
        }
        self.least = second;
        Ok(second)
    }

    fn wait_past(&mut self, second: u64) -> Result<(), DeviceError> {
        if self.failing.fails() {
            return Err(DeviceError::Failed);
        }
        if second >= LAST_SECOND {
            return Err(self.failing.fault());
        }
        self.least = self.least.max(second + 1);
        Ok(())
    }
}
