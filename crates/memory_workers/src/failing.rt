// Which calls are to fail, and the counts of the calls so far.

/// The numbers of the calls that are to fail, the first call being 0, and how many calls and faults there were. Each
/// count ends at 2^64 - 1.
#[derive(Drop)]
pub(crate) struct Failing {
    fail: Vec<u64>,
    calls: u64,
    faults: u64,
}

impl Failing {
    ghost use Rattle.std.specs.Prelude.{◌≡◌, ◌≤◌, IsTrue};
    ghost use Rattle.base_devices.specs.Cause.{Rises};
    ghost use Rattle.memory_workers.specs.Counts.{is_to_fail, counted};

    pub(crate) fn new(fail: Vec<u64>) -> Self
        ensures { result ≡ record { fail = fail; calls = 0; faults = 0 } }
    {
        Failing {
            fail,
            calls: 0,
            faults: 0,
        }
    }

    pub(crate) fn faults(&self) -> u64
        ensures { result ≡ self.now.faults }
    {
        self.faults
    }

    /// Counts a call, and returns whether it is to fail, which is a fault.
    pub(crate) fn fails(&mut self) -> bool
        ensures value { result ≡ is_to_fail self.old }
        ensures counts { self.new ≡ counted self.old }
        ensures later { self.old.faults ≤ self.new.faults }
        ensures rises { IsTrue result → Rises self.old.faults self.new.faults }
    {
        let number = self.calls;
        let faults = self.faults;
        self.calls = number.saturating_add(1);
        let fails = self.fail.contains(&number);
        if fails {
            self.faults = faults.saturating_add(1);
        }
        fails
    }
}
