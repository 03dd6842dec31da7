// A segment that is listed, and isn't there any more when it is read.
use crate::archive::{ID, WHOLE};
use crate::same::{same, well};
use archive_lookup::ArchiveFault;
use archive_store::{get, present};
use base_devices::{DeviceError, Disk, Found, NotThere};
use std::alloc::Global;

const LISTED: &str =
    "archive/main/16-1/0000000100000000/000000010000000000000003-a9993e364706816aba3e25717850c26c9cd0d89d";

/// A disk whose contents are unknown, lists one segment, and has none.
#[derive(Drop)]
struct Vanishing {
    other: NotThere,
}

impl Disk for Vanishing {
    ghost state = { λ d. ⟦<NotThere as Disk>⟧.state d.other };

    ghost now_may_be_left = { λ d n v h. absurd h };

    fn open(&mut self, path: &str) -> Result<(), DeviceError> {
        self.other.open(path)
    }

    fn names(&mut self, alloc: Global, _folder: &str) -> Result<Vec<Found>, DeviceError> {
        let name = String::from_str(alloc, LISTED)?;
        let mut found = Vec::new(alloc);
        found.push(Found { name, size: 3 })?;
        Ok(found)
    }

    fn folders(&mut self, alloc: Global, _folder: &str) -> Result<Vec<String>, DeviceError> {
        Ok(Vec::new(alloc))
    }

    fn read(
        &mut self,
        _name: &str,
        _at: u64,
        _buf: &mut [u8],
    ) -> Result<Option<usize>, DeviceError> {
        Ok(None)
    }

    fn begin(&mut self, name: &str) -> Result<(), DeviceError> {
        self.other.begin(name)
    }

    fn append(&mut self, name: &str, bytes: &[u8]) -> Result<(), DeviceError> {
        self.other.append(name, bytes)
    }

    fn sync(&mut self, name: &str) -> Result<(), DeviceError> {
        self.other.sync(name)
    }

    fn rename(&mut self, from: &str, to: &str) -> Result<(), DeviceError> {
        self.other.rename(from, to)
    }

    fn remove(&mut self, name: &str) -> Result<(), DeviceError> {
        self.other.remove(name)
    }

    fn sync_below(&mut self, folder: &str) -> Result<(), DeviceError> {
        self.other.sync_below(folder)
    }

    fn sync_directories(&mut self, folder: &str) -> Result<(), DeviceError> {
        self.other.sync_directories(folder)
    }

    fn sync_directory(&mut self, _folder: &str) -> Result<(), DeviceError> {
        Ok(())
    }
}

// That it isn't archived would end a recovery, so it is reported as out of memory.
#[test]
fn a_segment_that_is_gone_is_not_known_as_unarchived(rt: HostRuntime) {
    let alloc = rt.alloc();
    let mut disk = Vanishing {
        other: NotThere::new(),
    };
    let listed = well(&rt, present(alloc, &mut disk, "main", &ID, &WHOLE));
    same(&rt, listed.is_some(), true);
    let got = get(alloc, &mut disk, "main", &ID, &WHOLE);
    assert!(rt; matches!(got, Err(ArchiveFault::NoMemory)));
}
