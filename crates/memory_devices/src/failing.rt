// Which calls of a device in memory are to fail, and the counts of its calls so far.
use base_devices::DeviceError;

/// The numbers of the calls that are to fail, the first call being 0, and how many calls, faults and faulty calls there
/// were. Each count ends at 2^64 - 1.
#[derive(Drop)]
pub(crate) struct Failing {
    fail: Vec<u64>,
    calls: u64,
    faults: u64,
    faulty_calls: u64,
}

impl Failing {
    ghost use Rattle.std.specs.Prelude.{◌≡◌, ◌≤◌, IsTrue};
    ghost use Rattle.base_devices.specs.Cause.{Rises};
    ghost use Rattle.base_devices.specs.declared.device_error.DeviceError.TheVariants.{Failed};
    ghost use Rattle.memory_devices.specs.Counts.{is_to_fail, counted, was_faulty_call, faulted};

    pub(crate) fn new(fail: Vec<u64>) -> Self
        ensures { result ≡ record { fail = fail; calls = 0; faults = 0; faulty_calls = 0 } }
    {
        Failing {
            fail,
            calls: 0,
            faults: 0,
            faulty_calls: 0,
        }
    }

    pub(crate) fn faults(&self) -> u64
        ensures { result ≡ self.now.faults }
    {
        self.faults
    }

    pub(crate) fn faulty_calls(&self) -> u64
        ensures { result ≡ self.now.faulty_calls }
    {
        self.faulty_calls
    }

    /// Counts a call, and returns whether it is to fail, which is a fault.
    pub(crate) fn fails(&mut self) -> bool
        ensures value { result ≡ is_to_fail self.old }
        ensures counts { self.new ≡ counted self.old }
        ensures later { self.old.faults ≤ self.new.faults }
        ensures rises { IsTrue result → Rises self.old.faults self.new.faults }
    {
        let number = self.calls;
        let faults = self.faults;
        self.calls = number.saturating_add(1);
        let fails = self.fail.contains(&number);
        if fails {
            self.faults = faults.saturating_add(1);
        }
        fails
    }

    /// Counts a fault that was a faulty call.
    pub(crate) fn faulty_call(&mut self) -> DeviceError
        ensures stop { result ≡ Failed }
        ensures counts { self.new ≡ was_faulty_call self.old }
        ensures later { self.old.faults ≤ self.new.faults }
        ensures rises { Rises self.old.faults self.new.faults }
    {
        let faults = self.faults;
        let faulty_calls = self.faulty_calls;
        self.faults = faults.saturating_add(1);
        self.faulty_calls = faulty_calls.saturating_add(1);
        DeviceError::Failed
    }

    /// Counts a fault of a call that wasn't faulty.
    pub(crate) fn fault(&mut self) -> DeviceError
        ensures stop { result ≡ Failed }
        ensures counts { self.new ≡ faulted self.old }
        ensures later { self.old.faults ≤ self.new.faults }
        ensures rises { Rises self.old.faults self.new.faults }
    {
        let faults = self.faults;
        self.faults = faults.saturating_add(1);
        DeviceError::Failed
    }
}
