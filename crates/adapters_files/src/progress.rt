// Progress of the program, for a person to read on standard error.
use std::time::Instant;

// How many seconds there are between two lines.
const BETWEEN: u64 = 10;

const MIB: u128 = 1_048_576;

/// Counts the bytes that an object has written, and reports them now and then where it is asked to.
#[derive(Drop)]
pub struct Progress {
    rt: HostRuntime,
    is_shown: bool,
    // whether the sum of what there is to do is shown, once it is known
    has_total: bool,
    bytes: u64,
    // when the first bytes were counted, and when they were reported last
    began: Option<Instant>,
    last: Option<Instant>,
}

impl Progress {
    pub fn new(rt: HostRuntime) -> Self {
        Progress {
            rt,
            is_shown: false,
            has_total: false,
            bytes: 0,
            began: None,
            last: None,
        }
    }

    /// Turns on progress output.
    pub fn tell(&mut self) {
        self.is_shown = true;
    }

    /// Progress output shows the sum of what there is to do, once that is known.
    pub fn expect_total(&mut self) {
        self.has_total = true;
    }

    /// Whether a person asked for a total.
    pub fn expects_total(&self) -> bool {
        self.has_total
    }

    /// This many bytes are to be looked at.
    pub fn show_total(&self, bytes: u64) {
        if self.has_total {
            let mib = u128::from(bytes) / MIB;
            let _ = eprintln!(self.rt; "INFO: {bytes} bytes listed, {mib} MiB");
        }
    }

    /// Counts bytes that were written, and returns the sum every ten seconds.
    pub fn add(&mut self, count: usize) {
        self.bytes = self.bytes.saturating_add(count as u64);
        if self.is_shown {
            self.tell_in_time();
        }
    }

    fn tell_in_time(&mut self) {
        let Ok(now) = Instant::now(&self.rt) else {
            return;
        };
        if self.began.is_none() {
            self.began = Some(now);
        }
        let last = self.last.or(self.began).unwrap_or(now);
        if now.duration_since(last).as_secs() >= BETWEEN {
            self.last = Some(now);
            self.show(now);
        }
    }

    /// Reports the sum at the end, and how fast it was reached.
    pub fn end(&self) {
        if let Ok(now) = Instant::now(&self.rt) {
            if self.is_shown {
                self.show(now);
            }
        }
    }

    // A person who doesn't read it misses nothing else.
    fn show(&self, now: Instant) {
        let bytes = self.bytes;
        let ever_taken = now.duration_since(self.began.unwrap_or(now)).as_millis();
        let speed = u128::from(bytes) * 1000 / MIB / ever_taken.max(1);
        let seconds = ever_taken / 1000;
        let _ = eprintln!(self.rt; "INFO: {bytes} bytes written in {seconds} s, {speed} MiB/s");
    }
}
