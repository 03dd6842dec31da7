// Tests of the files of a root in memory.
use crate::same::{same, well};
use base_devices::{DeviceError, Files};
use memory_devices::{MemFiles, named_bytes};
use std::alloc::{AllocError, Global};
use std::process::Abort;

// What a read at a place gives into this much room, at most 8 bytes.
fn check_read<F: Files>(
    rt: &impl Abort,
    files: &mut F,
    name: &str,
    at: u64,
    room: usize,
    want: Option<&str>,
) {
    let mut buf = [0; 8];
    match well(rt, files.read(name, at, &mut buf[..room.min(8)])) {
        Some(count) => same(rt, buf.get(..count), want.map(|text| text.as_bytes())),
        None => same(rt, None, want),
    }
}

// Name, place, room, and what is read.
const READS: &[(&str, u64, usize, Option<&str>)] = &[
    ("base/1", 0, 2, Some("ab")),
    ("base/1", 2, 2, Some("c")),
    ("base/1", 3, 2, Some("")),
    ("base/1", u64::MAX, 2, Some("")),
    ("base/1", 0, 0, Some("")),
    ("empty", 0, 2, Some("")),
    ("base", 0, 2, None),
];

const GIVEN: &[(&str, &[u8])] = &[("base/1", b"old"), ("empty", b""), ("base/1", b"abc")];

fn some_files(alloc: Global) -> Result<MemFiles, AllocError> {
    MemFiles::new(alloc, named_bytes(alloc, GIVEN)?, vec![in alloc; 1]?)
}

#[test]
fn reads_at_places(rt: HostRuntime) {
    let mut files = well(&rt, some_files(rt.alloc()));
    same(&rt, files.open("/data"), Ok(()));
    same(&rt, files.open("/other"), Err(DeviceError::Failed));
    same(&rt, files.place(), "/data");
    same(&rt, files.faults(), 1);
    for (name, at, room, want) in READS {
        check_read(&rt, &mut files, name, *at, *room, *want);
    }
}
