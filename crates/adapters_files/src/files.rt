// The files that a worker reads, on the system's files.
ghost use Rattle.std.specs.Prelude.{◌≡◌, ◌<◌, ◌≤◌, ◌+◌, ◌^◌, None, IfOk, IfSome, length, map, string_bytes};
ghost use Rattle.base_devices.specs.States.{last_opened};

use crate::control::{Control, is_control};
use crate::handles::Handles;
use crate::place::Place;
use adapters_process::Faults;
use base_devices::{DeviceError, Files};
use std::io;
use std::io::ErrorKind;

/// Files below a folder of the system. Their contents are unknown.
#[derive(Drop)]
pub struct RealFiles {
    place: Place,
    handles: Handles,
    control: Control,
    faults: Faults,
}

impl RealFiles {
    pub fn new(rt: HostRuntime) -> Self
        ensures { result.faults.count ≡ 0 }
    {
        RealFiles {
            handles: Handles::new(rt.alloc()),
            place: Place::new(rt),
            control: Control::new(),
            faults: Faults::new(),
        }
    }
}

impl Files for RealFiles {
    ghost files = { λ _. None };

    ghost faults = { λ f. f.faults.count };

    ghost place = { λ f. last_opened (map string_bytes f.place.opened.items) };

    fn open(&mut self, root: &str) -> Result<(), DeviceError> {
        self.handles.forget();
        self.control.forget();
        let done = self.place.enter(root);
        self.faults
            .counted(&self.place.call("opening of", ""), done)
    }

    fn read(&mut self, name: &str, at: u64, buf: &mut [u8]) -> Result<Option<usize>, DeviceError> {
        let done = read_file(
            &self.place,
            &mut self.handles,
            &mut self.control,
            name,
            at,
            buf,
        );
        self.faults
            .counted(&self.place.call("reading of", name), done)
    }
}

// What isn't a file is absent.
fn read_file(
    place: &Place,
    handles: &mut Handles,
    control: &mut Control,
    name: &str,
    at: u64,
    buf: &mut [u8],
) -> io::Result<Option<usize>>
    ensures room { IfOk result (λ n. IfSome n (λ n. n ≤ length buf.old)) }
    ensures within { IfOk result (λ n. IfSome n (λ n. at + n < 2 ^ 64)) }
{
    let read = read_bytes(place, handles, control, name, at, buf)?;
    let Some(count) = read else {
        return Ok(None);
    };
    if at.checked_add(count as u64).is_none() {
        return Err(io::Error::from(ErrorKind::InvalidInput));
    }
    Ok(Some(count))
}

fn read_bytes(
    place: &Place,
    handles: &mut Handles,
    control: &mut Control,
    name: &str,
    at: u64,
    buf: &mut [u8],
) -> io::Result<Option<usize>>
    ensures { IfOk result (λ n. IfSome n (λ n. n ≤ length buf.old)) }
{
    if !handles.goes_on(name, at) && !place.is_file(name)? {
        return Ok(None);
    }
    if is_control(name) {
        return control.read(place, at, buf);
    }
    handles.read(place, name, at, buf)
}
