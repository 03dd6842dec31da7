// How often an object of the system failed, and what failed last.
ghost use Rattle.std.specs.Prelude.{◌≡◌, ◌≢◌, Result, Ok, Err, IfErr, IfOk, IsErrOf, OnOk};
ghost use Rattle.std.specs.IoError.{error_kind};
ghost use Rattle.std.specs.declared.io.ErrorKind.TheVariants.{OutOfMemory};
ghost use Rattle.base_devices.specs.Cause.{HasCause};
ghost use Rattle.base_devices.specs.declared.device_error.DeviceError.TheVariants.{Failed, NoMemory};

use base_devices::DeviceError;
use std::alloc::{AllocError, Global};
use std::io;
use std::io::ErrorKind;

/// A call of an object, as a person reads it: what it does, and at which path.
#[derive(Clone, Copy)]
pub struct Call<'a> {
    pub alloc: Global,
    pub act: &'a str,
    /// The folder that the names lie below. Where it is empty the name is a whole path.
    pub root: &'a str,
    pub name: &'a str,
    /// The name that it moves a file to.
    pub to: Option<&'a str>,
}

impl Call<'_> {
    fn path_of(&self, name: &str) -> Result<String, AllocError> {
        let root = self.root;
        if root.is_empty() {
            String::from_str(self.alloc, name)
        } else if name.is_empty() {
            String::from_str(self.alloc, root)
        } else {
            format!(in self.alloc; "{root}/{name}")
        }
    }

    // What was done, where, and why it failed.
    fn failed(&self, error: &io::Error) -> Result<String, AllocError> {
        let act = self.act;
        let path = self.path_of(self.name)?;
        match self.to {
            None => format!(in self.alloc; "{act} '{path}': {error}"),
            Some(to) => {
                let target = self.path_of(to)?;
                format!(in self.alloc; "{act} '{path}' to '{target}': {error}")
            }
        }
    }
}

/// The count of one object. It stays at its end.
#[derive(Drop)]
pub struct Faults {
    pub count: u64,
    last: Option<String>,
}

impl Faults {
    pub fn new() -> Self
        ensures { result.count ≡ 0 }
    {
        Faults {
            count: 0,
            last: None,
        }
    }

    /// What failed last, for a person to read: None where nothing did, or where memory lacked for the text.
    pub fn last(&self) -> Option<&str> {
        match &self.last {
            Some(text) => Some(text.as_str()),
            None => None,
        }
    }

    /// Counts a call that failed, but not one that lacked memory.
    pub fn counted<T: Drop>(
        &mut self,
        call: &Call<'_>,
        done: io::Result<T>,
    ) -> Result<T, DeviceError>
        ensures value { IfOk done (λ v. result ≡ Ok v) }
        ensures memory { IfErr done (λ e. error_kind e ≡ OutOfMemory → result ≡ Err NoMemory) }
        ensures failed { IfErr done (λ e. error_kind e ≢ OutOfMemory → result ≡ Err Failed) }
        ensures same { OnOk done (self.new ≡ self.old) }
        ensures uncounted { IsErrOf result NoMemory → self.new ≡ self.old }
        ensures cause { HasCause self.old.count self.new.count result }
    {
        match done {
            Ok(value) => Ok(value),
            Err(e) if e.kind() == ErrorKind::OutOfMemory => Err(DeviceError::NoMemory),
            Err(e) => {
                self.count = self.count.saturating_add(1);
                self.last = call.failed(&e).ok();
                Err(DeviceError::Failed)
            }
        }
    }
}
