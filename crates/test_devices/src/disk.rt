// A disk in memory: the disk model's worked example, what it lists, and each of its calls failing in turn.
use crate::same::{same, well};
use base_devices::{DeviceError, Disk};
use memory_devices::{MemDisk, named_bytes};
use std::alloc::{AllocError, Global};
use std::process::Abort;

pub(crate) const FOLDER: &str = "archive/demo";

pub(crate) const X: &str = "archive/demo/x";

pub(crate) const Y: &str = "archive/demo/y";

pub(crate) const Z: &str = "archive/demo/z";

// A call that changes something.
#[derive(Clone, Copy)]
pub(crate) enum Call {
    Begin(&'static str),
    Append(&'static str, &'static str),
    Sync(&'static str),
    Rename(&'static str, &'static str),
    Remove(&'static str),
    SyncFolders(&'static str),
}

pub(crate) fn run<D: Disk>(disk: &mut D, call: &Call) -> Result<(), DeviceError> {
    match call {
        Call::Begin(name) => disk.begin(name),
        Call::Append(name, text) => disk.append(name, text.as_bytes()),
        Call::Sync(name) => disk.sync(name),
        Call::Rename(from, to) => disk.rename(from, to),
        Call::Remove(name) => disk.remove(name),
        Call::SyncFolders(folder) => disk.sync_directories(folder),
    }
}

// A disk with these names.
pub(crate) fn disk_of(
    alloc: Global,
    names: &[(&str, &[u8])],
    fail: &[u64],
) -> Result<MemDisk, AllocError> {
    let given = named_bytes(alloc, names)?;
    MemDisk::new(alloc, given, Vec::from_slice(alloc, fail)?)
}

fn check_holds(rt: &impl Abort, disk: &MemDisk, name: &str, want: Option<&str>) {
    same(rt, disk.bytes(name), want.map(|text| text.as_bytes()));
}

// The names below a folder, as `name:size` each.
fn listed<D: Disk>(alloc: Global, disk: &mut D, folder: &str) -> Result<String, DeviceError> {
    let mut text = String::new(alloc);
    for found in disk.names(alloc, folder)? {
        write!(text, "{}:{} ", found.name, found.size)?;
    }
    Ok(text)
}

fn check_listed(rt: &impl Abort, alloc: Global, disk: &mut MemDisk, folder: &str, want: &str) {
    same(rt, well(rt, listed(alloc, disk, folder)).as_str(), want);
}

// The bytes of a name from a place on, as far as they fit into two.
fn check_two<D: Disk>(rt: &impl Abort, disk: &mut D, name: &str, at: u64, want: Option<&[u8]>) {
    let mut buf = *b"??";
    match well(rt, disk.read(name, at, &mut buf)) {
        Some(count) => same(rt, buf.get(..count), want),
        None => same(rt, None, want),
    }
}

// What x and y hold after each call of the worked example.
const STEPS: &[(Call, Option<&str>, Option<&str>)] = &[
    (Call::Begin(X), Some(""), None),
    (Call::Append(X, "a"), Some("a"), None),
    (Call::Sync(X), Some("a"), None),
    (Call::Rename(X, Y), None, Some("a")),
    (Call::SyncFolders(FOLDER), None, Some("a")),
];

#[test]
fn worked_example(rt: HostRuntime) {
    let alloc = rt.alloc();
    let mut disk = well(&rt, disk_of(alloc, &[], &[]));
    check_holds(&rt, &disk, X, None);
    for (call, x, y) in STEPS {
        same(&rt, run(&mut disk, call), Ok(()));
        check_holds(&rt, &disk, X, *x);
        check_holds(&rt, &disk, Y, *y);
    }
    check_listed(&rt, alloc, &mut disk, "archive", "archive/demo/y:1 ");
    check_listed(&rt, alloc, &mut disk, FOLDER, "archive/demo/y:1 ");
    check_listed(&rt, alloc, &mut disk, "archive/dem", "");
    check_two(&rt, &mut disk, Y, 0, Some(b"a"));
    check_two(&rt, &mut disk, Y, 1, Some(b""));
    check_two(&rt, &mut disk, X, 0, None);
    same(&rt, run(&mut disk, &Call::Remove(Y)), Ok(()));
    same(&rt, run(&mut disk, &Call::Remove(Y)), Ok(()));
    check_holds(&rt, &disk, Y, None);
    same(&rt, disk.faults(), 0);
    same(&rt, disk.faulty_calls(), 0);
}

const GIVEN: &[(&str, &[u8])] = &[
    ("b/c", b"one"),
    ("b", b"two"),
    ("b/a/z", b"three"),
    ("b-x", b"four"),
    ("b/c", b"fifth"),
];

#[test]
fn given_names(rt: HostRuntime) {
    let alloc = rt.alloc();
    let mut disk = well(&rt, disk_of(alloc, GIVEN, &[]));
    check_holds(&rt, &disk, "b/c", Some("fifth"));
    check_listed(&rt, alloc, &mut disk, "b", "b/a/z:5 b/c:5 ");
    check_two(&rt, &mut disk, "b/c", 2, Some(b"ft"));
    same(&rt, disk.rename("b/c", "b/c"), Ok(()));
    check_holds(&rt, &disk, "b/c", Some("fifth"));
    same(&rt, disk.place(), "");
    same(&rt, disk.open("/srv/repo"), Ok(()));
    same(&rt, disk.place(), "/srv/repo");
}

// The folders directly in a folder.
fn folders<D: Disk>(alloc: Global, disk: &mut D, folder: &str) -> Result<String, DeviceError> {
    let mut text = String::new(alloc);
    for name in disk.folders(alloc, folder)? {
        text.push_str(&name)?;
        text.push(' ')?;
    }
    Ok(text)
}

fn check_folders(rt: &impl Abort, alloc: Global, disk: &mut MemDisk, folder: &str, want: &str) {
    same(rt, well(rt, folders(alloc, disk, folder)).as_str(), want);
}

const DEEP: &[(&str, &[u8])] = &[
    ("b", b""),
    ("b/c", b""),
    ("b/d/e/f", b""),
    ("b/d/g", b""),
    ("b//h", b""),
    ("b-x/i/j", b""),
    ("b/k/", b""),
];

#[test]
fn folders_of_names(rt: HostRuntime) {
    let alloc = rt.alloc();
    let mut disk = well(&rt, disk_of(alloc, DEEP, &[]));
    check_folders(&rt, alloc, &mut disk, "b", "d d k ");
    check_folders(&rt, alloc, &mut disk, "b-x", "i ");
    check_folders(&rt, alloc, &mut disk, "b/d", "e ");
    check_folders(&rt, alloc, &mut disk, "c", "");
}

const CALLS: &[Call] = &[
    Call::Begin(X),
    Call::Append(X, "a"),
    Call::Sync(X),
    Call::Rename(X, Y),
    Call::SyncFolders(FOLDER),
    Call::Remove(Z),
];

// What x, y and z hold, and the counts of faults and of faulty calls.
struct Left {
    x: Option<&'static str>,
    y: Option<&'static str>,
    z: Option<&'static str>,
    faults: u64,
    faulty_calls: u64,
}

// What is left of the calls, of which the one of this number fails.
fn check_calls(rt: &impl Abort, alloc: Global, fail: u64, left: &Left) {
    let mut disk = well(rt, disk_of(alloc, &[(Z, b"z")], &[fail]));
    for (number, call) in CALLS.iter().enumerate() {
        let answer = run(&mut disk, call);
        if number as u64 == fail {
            same(rt, answer, Err(DeviceError::Failed));
        }
    }
    check_holds(rt, &disk, X, left.x);
    check_holds(rt, &disk, Y, left.y);
    check_holds(rt, &disk, Z, left.z);
    same(rt, disk.faults(), left.faults);
    same(rt, disk.faulty_calls(), left.faulty_calls);
}

const LEFT: &[Left] = &[
    Left {
        x: None,
        y: None,
        z: None,
        faults: 4,
        faulty_calls: 3,
    },
    Left {
        x: None,
        y: Some(""),
        z: None,
        faults: 1,
        faulty_calls: 0,
    },
    Left {
        x: None,
        y: Some("a"),
        z: None,
        faults: 1,
        faulty_calls: 0,
    },
    Left {
        x: Some("a"),
        y: None,
        z: None,
        faults: 1,
        faulty_calls: 0,
    },
    Left {
        x: None,
        y: Some("a"),
        z: None,
        faults: 1,
        faulty_calls: 0,
    },
    Left {
        x: None,
        y: Some("a"),
        z: Some("z"),
        faults: 1,
        faulty_calls: 0,
    },
    Left {
        x: None,
        y: Some("a"),
        z: None,
        faults: 0,
        faulty_calls: 0,
    },
];

#[test]
fn each_call_fails(rt: HostRuntime) {
    for (fail, left) in LEFT.iter().enumerate() {
        check_calls(&rt, rt.alloc(), fail as u64, left);
    }
}

#[test]
fn reads_fail(rt: HostRuntime) {
    let alloc = rt.alloc();
    let mut disk = well(&rt, disk_of(alloc, &[(X, b"a")], &[0, 2, 4]));
    same(&rt, disk.open("repo"), Err(DeviceError::Failed));
    same(&rt, disk.place(), "");
    same(&rt, disk.open("repo"), Ok(()));
    assert!(rt; listed(alloc, &mut disk, FOLDER).is_err());
    check_listed(&rt, alloc, &mut disk, FOLDER, "archive/demo/x:1 ");
    same(&rt, disk.read(X, 0, &mut [0; 2]), Err(DeviceError::Failed));
    check_two(&rt, &mut disk, X, 0, Some(b"a"));
    same(&rt, disk.faults(), 3);
    same(&rt, disk.faulty_calls(), 0);
}
