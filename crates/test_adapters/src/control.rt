// The control file as a worker reads it.
use crate::same::{same, shell, well};
use adapters_files::RealFiles;
use adapters_process::Scratch;
use base_devices::{DeviceError, Files};

const CONTROL: &str = "global/pg_control";

// What is done before a reading of four bytes from a place on, and what it gives.
const READS: &[(&str, u64, Result<Option<&[u8]>, DeviceError>)] = &[
    ("true", 0, Ok(None)),
    ("mkdir -p global/pg_control", 0, Ok(None)),
    (
        "rmdir global/pg_control; printf 123456 >global/pg_control",
        0,
        Ok(Some(b"1234")),
    ),
    // all of one reading comes from its start
    ("printf abcdefgh >global/pg_control", 4, Ok(Some(b"56"))),
    ("true", 6, Ok(Some(b""))),
    ("true", 9, Ok(Some(b""))),
    ("true", 0, Ok(Some(b"abcd"))),
    (
        "head -c 70000 /dev/zero >global/pg_control",
        0,
        Err(DeviceError::Failed),
    ),
    ("rm global/pg_control", 4, Ok(None)),
];

#[test]
fn reads_the_control_file_as_a_whole(rt: HostRuntime) {
    let scratch = well(&rt, Scratch::new(rt, "control"));
    let mut files = RealFiles::new(rt);
    same(&rt, files.open(&scratch.path), Ok(()));
    let mut room = [0u8; 4];
    for (change, at, wanted) in READS {
        shell(&rt, &scratch, change);
        let read = files.read(CONTROL, *at, &mut room);
        let read = read.map(|count| count.and_then(|count| room.get(..count)));
        same(&rt, read, *wanted);
    }
    well(&rt, scratch.remove());
}
