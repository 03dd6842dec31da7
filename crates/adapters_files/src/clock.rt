// The system's clock.
ghost use Rattle.std.specs.Prelude.{◌≡◌, ◌<◌, ◌≤◌, IfOk, OnOk};
ghost use Rattle.base_devices.specs.Cause.{HasCause};
ghost use Rattle.base_devices.specs.States.{last_second};

use crate::place::{call_of, make_file, unless_absent};
use adapters_process::Faults;
use base_devices::{Clock, DeviceError};
use std::alloc::AllocError;
use std::io::ErrorKind;
use std::os::unix::fs::MetadataExt;
use std::time::{Duration, SystemTime, UNIX_EPOCH};
use std::{fs, io, thread};

/// The last second of the year 9999.
const LAST_SECOND: u64 = 253_402_300_799;

/// A wait looks at the clock this often, ten times a second: for a minute.
const LOOKS: u32 = 600;

// The clock of files is this many milliseconds behind the system's, at most: it continues by ticks.
const TICK: u64 = 10;

// A file that no backup takes.
const TOUCHED: &str = "pgsql_tmp.pgbackrest";

/// The system's clock. Where that goes back, the last second is reported again.
#[derive(Drop)]
pub struct RealClock {
    rt: HostRuntime,
    // a file whose time is looked at
    touched: Option<String>,
    least: u64,
    faults: Faults,
}

impl RealClock {
    pub fn new(rt: HostRuntime) -> Self
        ensures { result.faults.count ≡ 0 }
    {
        RealClock {
            rt,
            touched: None,
            least: 0,
            faults: Faults::new(),
        }
    }

    /// From now on a second that is waited for is over by the clock of this folder's file system too, which may be that
    /// of another machine. Where no file can be made there, the system's clock is used instead.
    pub fn by_folder(&mut self, path: &str) -> Result<(), AllocError> {
        self.touched = Some(format!(in self.rt.alloc(); "{path}/{TOUCHED}")?);
        Ok(())
    }

    // Waits until a second is over by the system's clock.
    fn pass(&mut self, second: u64) -> Result<(), DeviceError>
        ensures past { OnOk result (second < self.new.least) }
        ensures later { self.old.least ≤ self.new.least }
        ensures cause { HasCause self.old.faults.count self.new.faults.count result }
    {
        for _ in 0..LOOKS {
            if self.now()? > second {
                return Ok(());
            }
            thread::sleep(&self.rt, Duration::from_millis(100));
        }
        self.faults.counted(
            &call_of(&self.rt, "waiting for", "the clock"),
            Err(io::Error::from(ErrorKind::TimedOut)),
        )
    }

    // The present second of the folder's file system: None where none is known.
    fn file_second(&self) -> Option<i64> {
        let path = self.touched.as_ref()?;
        touch(&self.rt, path).ok()
    }

    // Waits for a while, as long as this second of the folder's file system isn't over.
    fn pass_file_second(&self, second: Option<i64>) -> io::Result<()> {
        for _ in 0..LOOKS {
            thread::sleep(&self.rt, Duration::from_millis(TICK));
            match (second, self.file_second()) {
                (Some(past), Some(now)) if now <= past => {}
                _ => return Ok(()),
            }
            thread::sleep(&self.rt, Duration::from_millis(100));
        }
        Err(io::Error::from(ErrorKind::TimedOut))
    }

    /// What failed last, for a person to read.
    pub fn last_failure(&self) -> Option<&str> {
        self.faults.last()
    }
}

// The system's second, or this one where that is later. One before 1970 or after the year 9999 is an error.
fn second_from(rt: &HostRuntime, least: u64) -> io::Result<u64>
    ensures { IfOk result (λ s. (least ≤ s) × (s ≤ last_second)) }
{
    let now = SystemTime::now(rt)?;
    let Ok(since) = now.duration_since(UNIX_EPOCH) else {
        return Err(io::Error::from(ErrorKind::InvalidData));
    };
    let second = since.as_secs().max(least);
    if second > LAST_SECOND {
        return Err(io::Error::from(ErrorKind::InvalidData));
    }
    Ok(second)
}

impl Clock for RealClock {
    ghost state = { λ c. record { least = c.least; faults = c.faults.count } };

    fn now(&mut self) -> Result<u64, DeviceError> {
        let known = second_from(&self.rt, self.least);
        let call = call_of(&self.rt, "reading of", "the clock");
        let second = self.faults.counted(&call, known)?;
        self.least = second;
        Ok(second)
    }

    fn wait_past(&mut self, second: u64) -> Result<(), DeviceError> {
        if self.now()? > second.saturating_add(1) {
            return Ok(());
        }
        let of_files = self.file_second();
        self.pass(second)?;
        let done = self.pass_file_second(of_files);
        let call = call_of(&self.rt, "waiting for", "the clock of files");
        self.faults.counted(&call, done)
    }
}

// The time of a file that is made now, and removed again. What was there is removed.
fn touch(rt: &HostRuntime, path: &str) -> io::Result<i64> {
    unless_absent(fs::remove_file(rt, path))?;
    let Some(file) = make_file(rt, path)? else {
        return Err(io::Error::from(ErrorKind::AlreadyExists));
    };
    let seen = file.metadata();
    fs::remove_file(rt, path)?;
    Ok(seen?.mtime())
}
