// Other processes, of which nothing is known here.
ghost use Rattle.std.specs.Prelude.{◌≡◌, None};

use archive_lookup::{OtherProcesses, TurnError};
use base_devices::{DeviceError, Disk};
use std::io::ErrorKind;
use std::process::{Child, Command, Stdio};
use std::time::Duration;
use std::{io, thread};

// How often a message says that they are waited for.
const BETWEEN: u64 = 60;

/// Other processes. A step of theirs is a second, in which they push what a server hands to its archive command, or
/// what is ready. This program is started in the background.
#[derive(Drop)]
pub struct Others {
    rt: HostRuntime,
    program: String,
    // what they are waited for: shown on standard error
    wait: Option<&'static str>,
    // those that weren't waited for
    started: Vec<Child>,
    turns: u64,
    faults: u64,
}

impl Others {
    /// Those besides this program.
    pub fn new(rt: HostRuntime, program: String) -> Self
        ensures program { result.program ≡ program }
        ensures turns { result.turns ≡ 0 }
        ensures faults { result.faults ≡ 0 }
    {
        Others {
            started: Vec::new(rt.alloc()),
            rt,
            program,
            wait: None,
            turns: 0,
            faults: 0,
        }
    }

    /// Shows on standard error what they are waited for, at the first step and each minute.
    pub fn show_waiting(&mut self, wait: &'static str)
        ensures turns { self.new.turns ≡ self.old.turns }
        ensures faults { self.new.faults ≡ self.old.faults }
    {
        self.wait = Some(wait);
    }

    fn show(&self) {
        if let Some(wait) = self.wait {
            if self.turns % BETWEEN == 0 {
                let _ = eprintln!(self.rt; "INFO: waiting for {wait}");
            }
        }
    }

    // Waits for those that have ended, so that the system needn't keep their status.
    fn forget_ended(&mut self)
        ensures turns { self.new.turns ≡ self.old.turns }
        ensures faults { self.new.faults ≡ self.old.faults }
    {
        self.started
            .retain_mut(|child| matches!(child.try_wait(), Ok(None)));
    }
}

// Starts a program with these arguments. It has none of this one's streams, and its end isn't awaited.
fn start(rt: &HostRuntime, program: &str, arguments: &[String]) -> io::Result<Child> {
    let mut command = Command::new(rt.alloc(), program)?;
    for word in arguments {
        command.arg(word.as_str())?;
    }
    command.stdin(Stdio::null());
    command.stdout(Stdio::null());
    command.stderr(Stdio::null());
    command.spawn(rt)
}

impl<D: Disk, S: Disk> OtherProcesses<D, S> for Others {
    ghost state = { λ it. record { account = None; turns = it.turns; started = None; faults = it.faults } };

    fn turn(&mut self, _repo: &mut D, _spool: &mut S) -> Result<(), TurnError> {
        self.show();
        thread::sleep(&self.rt, Duration::from_secs(1));
        self.forget_ended();
        self.turns = self.turns.saturating_add(1);
        Ok(())
    }

    fn start(&mut self, arguments: &[String]) -> Result<(), DeviceError> {
        self.forget_ended();
        match start(&self.rt, self.program.as_str(), arguments) {
            Ok(child) => {
                // where memory lacks, it stays unawaited
                let _ = self.started.push(child);
                Ok(())
            }
            Err(e) if e.kind() == ErrorKind::OutOfMemory => Err(DeviceError::NoMemory),
            Err(_) => {
                self.faults = self.faults.saturating_add(1);
                Err(DeviceError::Failed)
            }
        }
    }
}
