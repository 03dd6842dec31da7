// The configuration file, on the system's files.
ghost use Rattle.std.specs.Prelude.{◌≡◌, None, OnOk, string_bytes};

use crate::place::{call_of, unless_absent};
use adapters_process::{Faults, read_some};
use base_devices::{DeviceError, InputFiles};
use std::fs::File;
use std::io::ErrorKind;
use std::{fs, io};

/// A file of the system, read from its start. Its contents are unknown.
#[derive(Drop)]
pub struct RealInputFiles {
    rt: HostRuntime,
    place: String,
    file: Option<File>,
    faults: Faults,
}

impl RealInputFiles {
    pub fn new(rt: HostRuntime) -> Self
        ensures { result.faults.count ≡ 0 }
    {
        RealInputFiles {
            place: String::new(rt.alloc()),
            rt,
            file: None,
            faults: Faults::new(),
        }
    }

    /// What failed last, for a person to read.
    pub fn last_failure(&self) -> Option<&str> {
        self.faults.last()
    }

    /// How often a call failed.
    pub fn faults(&self) -> u64
        ensures { result ≡ (⟦<RealInputFiles as InputFiles>⟧.state self.now).faults }
    {
        self.faults.count
    }

    fn open_place(&mut self, path: &str) -> io::Result<bool>
        ensures place { OnOk result (string_bytes self.new.place ≡ path.now) }
        ensures faults { self.new.faults ≡ self.old.faults }
    {
        self.file = None;
        self.place = String::from_str(self.rt.alloc(), path)?;
        self.file = open_file(&self.rt, path)?;
        Ok(self.file.is_some())
    }
}

impl InputFiles for RealInputFiles {
    ghost state = { λ s. record { files = None; left = None; place = string_bytes s.place; faults = s.faults.count } };

    fn open(&mut self, path: &str) -> Result<bool, DeviceError> {
        let done = self.open_place(path);
        self.faults
            .counted(&call_of(&self.rt, "opening of", path), done)
    }

    fn read(&mut self, buf: &mut [u8]) -> Result<usize, DeviceError> {
        let done = match &mut self.file {
            Some(file) => read_some(file, buf),
            None => Ok(0),
        };
        // it is closed at its end
        if matches!(done, Ok(0)) && !buf.is_empty() {
            self.file = None;
        }
        self.faults
            .counted(&call_of(&self.rt, "reading of", &self.place), done)
    }
}

// None where nothing is there. Only a file is opened: a pipe would wait for a writer.
fn open_file(rt: &HostRuntime, path: &str) -> io::Result<Option<File>> {
    let Some(seen) = unless_absent(fs::metadata(rt, path))? else {
        return Ok(None);
    };
    if !seen.is_file() {
        return Err(io::Error::new(ErrorKind::InvalidInput, "not a plain file"));
    }
    unless_absent(File::open(rt, path))
}
