// The standard output.
ghost use Rattle.std.specs.Prelude.{◌≡◌, ◌<◌, ◌≤◌, None, IfOk, length};

use crate::place::call_of;
use adapters_process::Faults;
use base_devices::{DeviceError, OutputStream};
use std::io;
use std::io::{ErrorKind, Write};

// What is kept of an output: its start, and of a longer one its end.
const MOST_FIRST: usize = 1 << 20;

const MOST_LAST: usize = 1 << 12;

/// What was written.
#[derive(Drop)]
struct Kept {
    first: Vec<u8>,
    last: Vec<u8>,
}

impl Kept {
    // Where memory lacks, less is kept.
    fn add(&mut self, bytes: &[u8]) {
        let room = MOST_FIRST.saturating_sub(self.first.len());
        let (first, rest) = bytes.split_at(room.min(bytes.len()));
        let _ = self.first.extend_from_slice(first);
        if !rest.is_empty() {
            self.last.clear();
            let _ = self
                .last
                .extend_from_slice(&rest[rest.len().saturating_sub(MOST_LAST)..]);
        }
    }
}

/// Each piece goes to the system at once. What was written is unknown.
#[derive(Drop)]
pub struct RealOutput {
    rt: HostRuntime,
    faults: Faults,
    // whether a piece that can't be written counts as written
    drops: bool,
    // None where nothing is to be kept
    kept: Option<Kept>,
}

impl RealOutput {
    pub fn new(rt: HostRuntime) -> Self
        ensures { result.faults.count ≡ 0 }
    {
        RealOutput {
            rt,
            faults: Faults::new(),
            drops: false,
            kept: None,
        }
    }

    /// What failed last, for a person to read.
    pub fn last_failure(&self) -> Option<&str> {
        self.faults.last()
    }

    /// From now on what can't be written is dropped, and counts as written: a server that archives has to receive of
    /// its segment alone, whatever reads the lines.
    pub fn drop_what_fails(&mut self)
        ensures { self.new.faults ≡ self.old.faults }
    {
        self.drops = true;
    }

    /// From now on what is written is kept, for a person to read.
    pub fn keep(&mut self)
        ensures { self.new.faults ≡ self.old.faults }
    {
        let alloc = self.rt.alloc();
        self.kept = Some(Kept {
            first: Vec::new(alloc),
            last: Vec::new(alloc),
        });
    }

    /// What was written since it was to be kept: the first MiB, and of what followed that the end.
    pub fn kept(&self) -> (&[u8], &[u8]) {
        match &self.kept {
            Some(kept) => (kept.first.as_slice(), kept.last.as_slice()),
            None => (&[], &[]),
        }
    }
}

impl OutputStream for RealOutput {
    ghost state = { λ s. record { written = None; faults = s.faults.count } };

    fn write(&mut self, bytes: &[u8]) -> Result<usize, DeviceError> {
        let done = if self.drops {
            Ok(write_some(&self.rt, bytes).unwrap_or(bytes.len()))
        } else {
            write_some(&self.rt, bytes)
        };
        if let (Ok(count), Some(kept)) = (&done, &mut self.kept) {
            kept.add(&bytes[..*count]);
        }
        self.faults
            .counted(&call_of(&self.rt, "writing to", "standard output"), done)
    }
}

/// Writes again where a signal came. An output that takes nothing of a piece that has bytes fails.
pub(crate) fn write_some(rt: &HostRuntime, bytes: &[u8]) -> io::Result<usize>
    ensures room { IfOk result (λ n. n ≤ length bytes.now) }
    ensures some { IfOk result (λ n. 0 < length bytes.now → 0 < n) }
{
    let mut out = rt.stdout();
    for _ in 0..u64::MAX {
        match out.write(bytes) {
            Err(e) if e.kind() == ErrorKind::Interrupted => {}
            Ok(0) if !bytes.is_empty() => return Err(io::Error::from(ErrorKind::WriteZero)),
            done => return done,
        }
    }
    Err(io::Error::from(ErrorKind::Interrupted))
}
