// A configuration file of the system.
use crate::same::{same, shell, well};
use adapters_files::RealInputFiles;
use adapters_process::Scratch;
use base_devices::{DeviceError, InputFiles};
use std::process::Abort;

const FILL: &str = "printf '[global]' >conf; ln -s conf link; ln -s none dead
mkdir folder; mkfifo pipe; : >empty";

// What the next read gives, into four bytes.
fn check_read(rt: &impl Abort, source: &mut RealInputFiles, want: &str) {
    let mut room = [0u8; 4];
    let count = well(rt, source.read(&mut room));
    same(rt, room.get(..count), Some(want.as_bytes()));
}

const WHOLE: &[&str; 3] = &["[glo", "bal]", ""];

const NOTHING: &[&str; 3] = &["", "", ""];

// What opening a name answers, which counts a fault where it fails, and what is read then.
fn check_open(
    rt: &impl Abort,
    scratch: &Scratch,
    source: &mut RealInputFiles,
    name: &str,
    answer: Result<bool, DeviceError>,
    given: &[&str; 3],
) {
    let faults = source.faults().saturating_add(u64::from(answer.is_err()));
    let path = well(rt, scratch.below(name));
    same(rt, source.open(&path), answer);
    check_read(rt, source, given[0]);
    check_read(rt, source, given[1]);
    check_read(rt, source, given[2]);
    same(rt, source.faults(), faults);
}

#[test]
fn opens_and_reads(rt: HostRuntime) {
    let scratch = well(&rt, Scratch::new(rt, "source"));
    shell(&rt, &scratch, FILL);
    let mut source = RealInputFiles::new(rt);
    check_open(&rt, &scratch, &mut source, "conf", Ok(true), WHOLE);
    check_open(&rt, &scratch, &mut source, "link", Ok(true), WHOLE);
    check_open(&rt, &scratch, &mut source, "empty", Ok(true), NOTHING);
    check_open(&rt, &scratch, &mut source, "none", Ok(false), NOTHING);
    check_open(&rt, &scratch, &mut source, "dead", Ok(false), NOTHING);
    check_open(&rt, &scratch, &mut source, "conf/none", Ok(false), NOTHING);
    let failed = Err(DeviceError::Failed);
    check_open(&rt, &scratch, &mut source, "folder", failed, NOTHING);
    check_open(&rt, &scratch, &mut source, "pipe", failed, NOTHING);
    same(&rt, source.faults(), 2);
    well(&rt, scratch.remove());
}
