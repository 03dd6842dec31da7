// The files of a root in memory.
ghost use Rattle.std.specs.Prelude.{◌≡◌, ◌<◌, ◌≤◌, ◌+◌, ◌^◌, [], Some, IfOk, IfSome, OnOk, OnErr, length, string_bytes};
ghost use Rattle.base_devices.specs.Cause.{HasCause};
ghost use Rattle.base_devices.specs.Content.{Reads};
ghost use Rattle.memory_devices.specs.Agrees.{bytes_at};
ghost use Rattle.memory_devices.specs.State.{given_at};
ghost use Rattle.memory_devices.specs.Counts.{is_to_fail, counted, FailsWhere, uncounted};

use crate::copy::copy_part;
use crate::failing::Failing;
use crate::held::names_of;
use base_devices::{DeviceError, Files};
use std::alloc::{AllocError, Global};
use std::collections::BTreeMap;

/// Files with their bytes, the same below every root. A read gives as many bytes as fit.
#[derive(Drop)]
pub struct MemFiles {
    alloc: Global,
    names: BTreeMap<String, Vec<u8>>,
    place: String,
    failing: Failing,
}

impl MemFiles {
    /// Files with these names; of a name that is given twice the last one counts. `fail` has the numbers of the calls
    /// that are to fail, the first being 0.
    pub fn new(
        alloc: Global,
        files: Vec<(String, Vec<u8>)>,
        fail: Vec<u64>,
    ) -> Result<Self, AllocError>
        ensures files { IfOk result (λ f. ⟦<MemFiles as Files>⟧.files f ≡ Some (given_at files.items)) }
        ensures place { IfOk result (λ f. ⟦<MemFiles as Files>⟧.place f ≡ []) }
        ensures counts { IfOk result (λ f. f.failing ≡ uncounted fail) }
    {
        Ok(MemFiles {
            alloc,
            names: names_of(alloc, &files)?,
            place: String::new(alloc),
            failing: Failing::new(fail),
        })
    }

    /// The place that was opened last.
    pub fn place(&self) -> &str
        ensures { result.now ≡ ⟦<MemFiles as Files>⟧.place self.now }
    {
        &self.place
    }

    /// How often a call failed.
    pub fn faults(&self) -> u64
        ensures { result ≡ ⟦<MemFiles as Files>⟧.faults self.now }
    {
        self.failing.faults()
    }
}

impl Files for MemFiles {
    ghost files = { λ f. Some (bytes_at f.names) };

    ghost faults = { λ f. f.failing.faults };

    ghost place = { λ f. string_bytes f.place };

    fn open(&mut self, root: &str) -> Result<(), DeviceError>
        ensures place { OnOk result (string_bytes self.new.place ≡ root.now) }
        ensures same { OnErr result (string_bytes self.new.place ≡ string_bytes self.old.place) }
        ensures names { self.new.names ≡ self.old.names }
        ensures fails { FailsWhere (is_to_fail self.old.failing) result }
        ensures counts { self.new.failing ≡ counted self.old.failing }
        ensures cause { HasCause self.old.failing.faults self.new.failing.faults result }
    {
        if self.failing.fails() {
            return Err(DeviceError::Failed);
        }
        self.place = String::from_str(self.alloc, root)?;
        Ok(())
    }

    fn read(&mut self, name: &str, at: u64, buf: &mut [u8]) -> Result<Option<usize>, DeviceError>
        ensures bytes { IfOk result (λ n. Reads (bytes_at self.old.names name.now) at (length buf.old) buf.new n) }
        ensures room { IfOk result (λ n. IfSome n (λ n. n ≤ length buf.old)) }
        ensures within { IfOk result (λ n. IfSome n (λ n. at + n < 2 ^ 64)) }
        ensures names { self.new.names ≡ self.old.names }
        ensures place { string_bytes self.new.place ≡ string_bytes self.old.place }
        ensures fails { FailsWhere (is_to_fail self.old.failing) result }
        ensures counts { self.new.failing ≡ counted self.old.failing }
        ensures cause { HasCause self.old.failing.faults self.new.failing.faults result }
    {
        if self.failing.fails() {
            return Err(DeviceError::Failed);
        }
        match self.names.get(name) {
            Some(bytes) => Ok(Some(copy_part(bytes, at, buf))),
            None => Ok(None),
        }
    }
}
