// A configuration file in memory.
ghost use Rattle.std.specs.Prelude.{◌≡◌, [], Some, IfOk, OnOk, OnErr, length, min, take, is_some, string_bytes};
ghost use Rattle.base_devices.specs.Cause.{HasCause};
ghost use Rattle.base_devices.specs.Streams.{Gives};
ghost use Rattle.memory_devices.specs.Counts.{is_to_fail, counted, FailsWhere};
ghost use Rattle.memory_devices.specs.Replay.{value_of};
ghost use Rattle.memory_devices.specs.InputFiles.{IsUnmoved};

use crate::copy::copy_part;
use crate::failing::Failing;
use base_devices::{DeviceError, InputFiles};
use std::alloc::Global;

/// One file, the same at every path, or none. Before it is opened nothing is left of it. A read gives as many bytes as
/// fit.
#[derive(Drop)]
pub struct MemInputFiles {
    alloc: Global,
    file: Option<Vec<u8>>,
    // how many of its bytes were read
    at: usize,
    place: String,
    failing: Failing,
}

impl MemInputFiles {
    ghost use Rattle.memory_devices.specs.InputFiles.{left_of};

    /// A file of these bytes, or none. `fail` has the numbers of the calls that are to fail, the first being 0.
    pub fn new(alloc: Global, file: Option<Vec<u8>>, fail: Vec<u64>) -> Self
        ensures files { (⟦<MemInputFiles as InputFiles>⟧.state result).files ≡ Some (λ _. value_of file) }
        ensures left { (⟦<MemInputFiles as InputFiles>⟧.state result).left ≡ Some [] }
        ensures place { (⟦<MemInputFiles as InputFiles>⟧.state result).place ≡ [] }
        ensures counts { result.failing ≡ record { fail = fail; calls = 0; faults = 0; faulty_calls = 0 } }
    {
        let at = match &file {
            Some(bytes) => bytes.len(),
            None => 0,
        };
        MemInputFiles {
            alloc,
            file,
            at,
            place: String::new(alloc),
            failing: Failing::new(fail),
        }
    }

    /// The path that was opened last.
    pub fn place(&self) -> &str
        ensures { result.now ≡ (⟦<MemInputFiles as InputFiles>⟧.state self.now).place }
    {
        &self.place
    }

    /// How often a call failed.
    pub fn faults(&self) -> u64
        ensures { result ≡ (⟦<MemInputFiles as InputFiles>⟧.state self.now).faults }
    {
        self.failing.faults()
    }
}

impl InputFiles for MemInputFiles {
    ghost use Rattle.memory_devices.specs.InputFiles.{left_of};

    ghost state = { λ s. record {
      files = Some (λ _. value_of s.file);
      left = Some (left_of s);
      place = string_bytes s.place;
      faults = s.failing.faults;
    } };

    fn open(&mut self, path: &str) -> Result<bool, DeviceError>
        ensures there { IfOk result (λ there. there ≡ is_some (value_of self.old.file)) }
        ensures start { OnOk result (self.new.at ≡ 0) }
        ensures place { OnOk result (string_bytes self.new.place ≡ path.now) }
        ensures same { OnErr result (IsUnmoved self.old self.new) }
        ensures file { self.new.file ≡ self.old.file }
        ensures fails { FailsWhere (is_to_fail self.old.failing) result }
        ensures counts { self.new.failing ≡ counted self.old.failing }
        ensures cause { HasCause self.old.failing.faults self.new.failing.faults result }
    {
        if self.failing.fails() {
            return Err(DeviceError::Failed);
        }
        self.place = String::from_str(self.alloc, path)?;
        self.at = 0;
        Ok(self.file.is_some())
    }

    fn read(&mut self, buf: &mut [u8]) -> Result<usize, DeviceError>
        ensures count { IfOk result (λ n. n ≡ min (length (left_of self.old)) (length buf.old)) }
        ensures gives { IfOk result (λ n. Gives (Some (left_of self.old)) (take n buf.new) (Some (left_of self.new))) }
        ensures same { OnErr result (self.new.at ≡ self.old.at) }
        ensures file { self.new.file ≡ self.old.file }
        ensures place { string_bytes self.new.place ≡ string_bytes self.old.place }
        ensures fails { FailsWhere (is_to_fail self.old.failing) result }
        ensures counts { self.new.failing ≡ counted self.old.failing }
        ensures cause { HasCause self.old.failing.faults self.new.failing.faults result }
    {
        if self.failing.fails() {
            return Err(DeviceError::Failed);
        }
        let Some(bytes) = &self.file else {
            return Ok(0);
        };
        let n = copy_part(bytes, self.at as u64, buf);
        self.at += n;
        Ok(n)
    }
}
