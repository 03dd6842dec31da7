// A choice among workers, in memory.
ghost use Rattle.std.specs.Prelude.{◌≡◌, ◌<◌, ◌+◌, ◌%◌};

use base_devices::Scheduler;

/// Picks by the numbers that it is given, one after the other: each is taken around the count of those that there are.
/// Where none is left it picks the first.
#[derive(Drop)]
pub struct MemScheduler {
    picks: Vec<u64>,
    at: usize,
}

impl MemScheduler {
    pub fn new(picks: Vec<u64>) -> Self
        ensures { result ≡ record { picks = picks; at = 0 } }
    {
        MemScheduler { picks, at: 0 }
    }
}

impl Scheduler for MemScheduler {
    ghost use Rattle.std.specs.Prelude.{◌≡◌, ◌<◌, ◌+◌, ◌%◌, Some, None, slice_get, IsNone};
    ghost use Rattle.memory_workers.specs.Picks.{TakesPick};

    fn pick(&mut self, count: u64) -> u64
        requires { 0 < count }
        ensures below { result < count }
        ensures given { TakesPick count result self.old self.new }
        ensures over { slice_get self.old.picks.items self.old.at ≡ None → result ≡ 0 }
        ensures picks { self.new.picks ≡ self.old.picks }
    {
        let Some(&number) = self.picks.get(self.at) else {
            return 0;
        };
        self.at += 1;
        number % count
    }
}
