// The source of the configuration, the connection to a server, and the clock.
ghost use Rattle.std.specs.Prelude.{◌≡◌, ◌<◌, ◌≤◌, ◌++◌, true, option_map, is_some, take, length, IfOk, OnOk, IfSome};
ghost use Rattle.base_devices.specs.Cause.{HasCause};
ghost use Rattle.base_devices.specs.States.{InputState, ConnectionState, ClockState, ShowsSecond, BeginsFile};
ghost use Rattle.base_devices.specs.Streams.{Gives, IsOver};

use crate::DeviceError;

/// Where the configuration file is read.
pub trait InputFiles {
    /// What its files hold, what is left of the one that was opened last, and its count of faults.
    ghost state: { Self → InputState };

    /// Opens a file at its start, and returns whether it is there.
    fn open(&mut self, path: &str) -> Result<bool, DeviceError>
        ensures there { IfOk result (λ there. IfSome (state self.old).files (λ f. there ≡ is_some (f path.now))) }
        ensures left { IfOk result (λ there. there ≡ true → BeginsFile path.now (state self.old) (state self.new)) }
        ensures place { OnOk result ((state self.new).place ≡ path.now) }
        ensures files { (state self.new).files ≡ (state self.old).files }
        ensures cause { HasCause (state self.old).faults (state self.new).faults result };

    /// The next bytes: 0 into a buffer that has room is the end.
    fn read(&mut self, buf: &mut [u8]) -> Result<usize, DeviceError>
        ensures room { IfOk result (λ n. n ≤ length buf.old) }
        ensures gives { IfOk result (λ n. Gives (state self.old).left (take n buf.new) (state self.new).left) }
        ensures end { IfOk result (λ n. n ≡ 0 → 0 < length buf.old → IsOver (state self.old).left) }
        ensures place { (state self.new).place ≡ (state self.old).place }
        ensures files { (state self.new).files ≡ (state self.old).files }
        ensures cause { HasCause (state self.old).faults (state self.new).faults result };
}

/// The connection to a server.
pub trait ServerConnection {
    /// What it will give, what it was sent, the path that was opened last, and its count of faults.
    ghost state: { Self → ConnectionState };

    fn open(&mut self, path: &str) -> Result<(), DeviceError>
        ensures place { OnOk result ((state self.new).place ≡ path.now) }
        ensures pending { (state self.new).pending ≡ (state self.old).pending }
        ensures sent { (state self.new).sent ≡ (state self.old).sent }
        ensures cause { HasCause (state self.old).faults (state self.new).faults result };

    fn send(&mut self, bytes: &[u8]) -> Result<(), DeviceError>
        ensures sent { OnOk result ((state self.new).sent ≡ option_map (λ s. s ++ bytes.now) (state self.old).sent) }
        ensures pending { (state self.new).pending ≡ (state self.old).pending }
        ensures place { (state self.new).place ≡ (state self.old).place }
        ensures cause { HasCause (state self.old).faults (state self.new).faults result };

    /// The next bytes: 0 into a buffer that has room is the end.
    fn receive(&mut self, buf: &mut [u8]) -> Result<usize, DeviceError>
        ensures room { IfOk result (λ n. n ≤ length buf.old) }
        ensures gives { IfOk result (λ n. Gives (state self.old).pending (take n buf.new) (state self.new).pending) }
        ensures end { IfOk result (λ n. n ≡ 0 → 0 < length buf.old → IsOver (state self.old).pending) }
        ensures sent { (state self.new).sent ≡ (state self.old).sent }
        ensures place { (state self.new).place ≡ (state self.old).place }
        ensures cause { HasCause (state self.old).faults (state self.new).faults result };
}

/// The clock, in seconds since 1970. It never goes back.
pub trait Clock {
    /// The least second that it may show next, and its count of faults.
    ghost state: { Self → ClockState };

    /// The present second. One after year 9999 is a fault of the clock.
    fn now(&mut self) -> Result<u64, DeviceError>
        ensures shows { IfOk result (λ second. ShowsSecond second (state self.old) (state self.new)) }
        ensures later { (state self.old).least ≤ (state self.new).least }
        ensures cause { HasCause (state self.old).faults (state self.new).faults result };

    /// Waits until the second is over.
    fn wait_past(&mut self, second: u64) -> Result<(), DeviceError>
        ensures past { OnOk result (second < (state self.new).least) }
        ensures later { (state self.old).least ≤ (state self.new).least }
        ensures cause { HasCause (state self.old).faults (state self.new).faults result };
}
