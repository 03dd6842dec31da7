// Tests of a configuration file in memory.
use crate::same::{same, well};
use base_devices::{DeviceError, InputFiles};
use memory_devices::MemInputFiles;
use std::alloc::{AllocError, Global};
use std::process::Abort;

fn open<S: InputFiles>(source: &mut S, path: &str) -> Result<bool, DeviceError> {
    source.open(path)
}

// What the next read gives into this much room, at most 8 bytes.
fn check_read<S: InputFiles>(rt: &impl Abort, source: &mut S, room: usize, want: &str) {
    let mut buf = [0; 8];
    let count = well(rt, source.read(&mut buf[..room.min(8)]));
    same(rt, buf.get(..count), Some(want.as_bytes()));
}

fn check_reads(rt: &impl Abort, source: &mut MemInputFiles, room: usize, want: &[&str; 3]) {
    check_read(rt, source, room, want[0]);
    check_read(rt, source, room, want[1]);
    check_read(rt, source, room, want[2]);
}

fn file(alloc: Global, text: &str) -> Result<Option<Vec<u8>>, AllocError> {
    Ok(Some(Vec::from_slice(alloc, text.as_bytes())?))
}

const NOTHING: &[&str; 3] = &["", "", ""];

// What a file of this text gives, read into this much room before it is opened, and each time that it is.
fn check_pieces(rt: &impl Abort, alloc: Global, text: &str, room: usize, given: &[&str; 3]) {
    let text = well(rt, file(alloc, text));
    let mut source = MemInputFiles::new(alloc, text, Vec::new(alloc));
    check_reads(rt, &mut source, room, NOTHING);
    same(rt, open(&mut source, "/etc/c"), Ok(true));
    check_reads(rt, &mut source, room, given);
    same(rt, open(&mut source, "/etc/d"), Ok(true));
    check_reads(rt, &mut source, room, given);
    same(rt, source.place(), "/etc/d");
}

#[test]
fn reads_in_pieces(rt: HostRuntime) {
    let alloc = rt.alloc();
    check_pieces(&rt, alloc, "[a]", 2, &["[a", "]", ""]);
    check_pieces(&rt, alloc, "[a]", 3, &["[a]", "", ""]);
    check_pieces(&rt, alloc, "[a]", 1, &["[", "a", "]"]);
    check_pieces(&rt, alloc, "[a]", 0, NOTHING);
    check_pieces(&rt, alloc, "", 5, NOTHING);
}

#[test]
fn absent_and_failing(rt: HostRuntime) {
    let alloc = rt.alloc();
    let mut absent = MemInputFiles::new(alloc, None, Vec::new(alloc));
    same(&rt, open(&mut absent, "/etc/c"), Ok(false));
    check_reads(&rt, &mut absent, 4, NOTHING);
    let fail = well(&rt, vec![in alloc; 0, 3]);
    let mut failing = MemInputFiles::new(alloc, well(&rt, file(alloc, "ab")), fail);
    same(&rt, open(&mut failing, "/etc/c"), Err(DeviceError::Failed));
    same(&rt, failing.place(), "");
    same(&rt, open(&mut failing, "/etc/c"), Ok(true));
    check_read(&rt, &mut failing, 1, "a");
    same(&rt, failing.read(&mut [0; 1]), Err(DeviceError::Failed));
    check_reads(&rt, &mut failing, 1, &["b", "", ""]);
    same(&rt, failing.faults(), 2);
}
