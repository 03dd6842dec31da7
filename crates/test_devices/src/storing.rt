// Bytes that are put piece by piece, and folders that are removed.
use crate::same::same;
use base_devices::Disk;
use base_disk::{StoreFault, add_stage, drop_folder, end_stage, start_stage};
use memory_devices::{MemDisk, named_bytes};
use std::alloc::{AllocError, Global};
use std::process::Abort;
use std::test::Fail;

const NAME: &str = "backup/demo/label/bundle/1";

// A disk that holds these names; this call fails.
fn disk_with(alloc: Global, names: &[(&str, &[u8])], fail: u64) -> Result<MemDisk, AllocError> {
    let given = named_bytes(alloc, names)?;
    let mut fails = Vec::new(alloc);
    fails.push(fail)?;
    MemDisk::new(alloc, given, fails)
}

// Puts two pieces at the name, and returns how long it became.
fn put_two<D: Disk>(alloc: Global, disk: &mut D) -> Result<u64, StoreFault> {
    let mut staging = start_stage(alloc, disk, NAME)?;
    add_stage(disk, &mut staging, b"one ")?;
    add_stage(disk, &mut staging, b"two")?;
    let length = staging.length();
    end_stage(disk, staging)?;
    Ok(length)
}

/// A put by the number of its failing call: the length that is given, what the name holds then, whether it is unsynced,
/// and how many values it keeps.
struct Put {
    fail: u64,
    known: Option<u64>,
    text: &'static str,
    unsynced: bool,
    kept: usize,
}

const PUTS: &[Put] = &[
    Put {
        fail: 0,
        known: None,
        text: "old",
        unsynced: true,
        kept: 1,
    },
    Put {
        fail: 1,
        known: None,
        text: "",
        unsynced: true,
        kept: 1,
    },
    Put {
        fail: 2,
        known: None,
        text: "one ",
        unsynced: true,
        kept: 1,
    },
    Put {
        fail: 3,
        known: None,
        text: "one two",
        unsynced: true,
        kept: 1,
    },
    Put {
        fail: 4,
        known: Some(7),
        text: "one two",
        unsynced: false,
        kept: 2,
    },
];

#[test]
fn puts_two_pieces(rt: HostRuntime) -> Result<(), Fail> {
    let alloc = rt.alloc();
    for put in PUTS {
        let mut disk = disk_with(alloc, &[(NAME, b"old")], put.fail)?;
        same(&rt, put_two(alloc, &mut disk).ok(), put.known);
        same(&rt, disk.bytes(NAME), Some(put.text.as_bytes()));
        let moment = disk.moment();
        same(&rt, disk.unsynced(alloc, moment)?.len() == 1, put.unsynced);
        same(&rt, disk.kept(alloc, moment, NAME)?.len(), put.kept);
        same(&rt, disk.faulty_calls(), 0);
    }
    Ok(())
}

const HELD: &[(&str, &[u8])] = &[
    ("backup/demo/a", b"1"),
    ("backup/demo/a/b", b"2"),
    ("backup/demo/a/c/d", b"3"),
    ("backup/demo/a.info", b"4"),
    ("backup/demo/ab/c", b"5"),
];

/// A folder that is dropped, the number of the failing call, the answer, and the numbers of those names that are left.
struct Dropped {
    folder: &'static str,
    fail: u64,
    well: bool,
    left: &'static [usize],
}

const DROPS: &[Dropped] = &[
    Dropped {
        folder: "backup/demo/a",
        fail: 9,
        well: true,
        left: &[0, 3, 4],
    },
    Dropped {
        folder: "backup/demo/ab",
        fail: 9,
        well: true,
        left: &[0, 1, 2, 3],
    },
    Dropped {
        folder: "backup/demo/none",
        fail: 9,
        well: true,
        left: &[0, 1, 2, 3, 4],
    },
    Dropped {
        folder: "backup/demo/a",
        fail: 0,
        well: false,
        left: &[0, 1, 2, 3, 4],
    },
    Dropped {
        folder: "backup/demo/a",
        fail: 1,
        well: false,
        left: &[0, 1, 2, 3, 4],
    },
    Dropped {
        folder: "backup/demo/a",
        fail: 2,
        well: false,
        left: &[0, 2, 3, 4],
    },
    Dropped {
        folder: "backup/demo/a",
        fail: 3,
        well: false,
        left: &[0, 3, 4],
    },
];

// The name of that number is there with its bytes, or not, and synced where the folder was dropped.
fn check_left(
    rt: &impl Abort,
    alloc: Global,
    disk: &MemDisk,
    dropped: &Dropped,
    number: usize,
) -> Result<(), AllocError> {
    let Some((name, bytes)) = HELD.get(number) else {
        return Ok(());
    };
    let there = dropped.left.contains(&number);
    same(rt, disk.bytes(name) == Some(*bytes), there);
    same(rt, disk.bytes(name).is_none(), !there);
    let kept = disk.kept(alloc, disk.moment(), name)?.len();
    same(rt, kept == 1, there || dropped.well);
    Ok(())
}

#[test]
fn drops_a_folder(rt: HostRuntime) -> Result<(), Fail> {
    let alloc = rt.alloc();
    for dropped in DROPS {
        let mut disk = disk_with(alloc, HELD, dropped.fail)?;
        let well = drop_folder(alloc, &mut disk, dropped.folder).is_ok();
        same(&rt, well, dropped.well);
        for number in 0..HELD.len() {
            check_left(&rt, alloc, &disk, dropped, number)?;
        }
    }
    Ok(())
}
