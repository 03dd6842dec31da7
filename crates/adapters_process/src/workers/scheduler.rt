// Receives from the busy workers one after the other.
ghost use Rattle.std.specs.Prelude.{◌≡◌, ◌<◌, ◌≤◌, ◌+◌, ◌^◌, ◌%◌};

use base_devices::Scheduler;

/// The place after the last one that was picked.
#[derive(Drop)]
pub struct RoundRobin {
    next: u64,
}

impl RoundRobin {
    pub fn new() -> Self
        ensures { result.next ≡ 0 }
    {
        RoundRobin { next: 0 }
    }
}

impl Scheduler for RoundRobin {
    fn pick(&mut self, count: u64) -> u64
        requires { 0 < count }
        ensures below { result < count }
        ensures in_turn { self.old.next < count → result ≡ self.old.next }
        ensures around { count ≤ self.old.next → result ≡ 0 }
        ensures next { self.new.next ≡ result + 1 }
    {
        let picked = if self.next < count { self.next } else { 0 };
        self.next = picked + 1;
        picked
    }
}
