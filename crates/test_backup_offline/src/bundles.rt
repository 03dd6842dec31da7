// Backups whose small files are stored together, over devices in memory.

use crate::backups::{clock_of, stopped};
use crate::fixture::{FIRST, backed_up, disk_of, links_to, listed, reopened};
use crate::restores::{PLAIN, held_by, restored, tree_of};
use crate::same::{same, well};
use backup_plan::PlanSettings;
use base_devices::Node;
use memory_devices::MemDisk;
use repo_manifest::load_manifest;
use std::alloc::{AllocError, Global};
use std::process::Abort;

/// Files of at most 15 bytes are small ones, and 10 bytes of them go into a bundle.
const BUNDLED: PlanSettings = PlanSettings {
    delta: false,
    bundle: true,
    bundle_size: 10,
    bundle_limit: 15,
};

/// What the data folder's listing shows. Of its small files the first two just fill a bundle, and the next two leave no
/// room in theirs for the fifth, which has more bytes than a bundle.
const NODES: &[(&str, Node)] = &[
    ("PG_VERSION", Node::File { size: 3, time: 7 }),
    ("base", Node::Folder),
    ("base/1", Node::Folder),
    ("base/1/a", Node::File { size: 7, time: 7 }),
    ("base/1/b", Node::File { size: 4, time: 7 }),
    ("base/1/c", Node::File { size: 3, time: 7 }),
    ("base/1/d", Node::File { size: 15, time: 7 }),
    ("base/1/e", Node::File { size: 1, time: 7 }),
    ("base/1/f", Node::File { size: 16, time: 7 }),
    ("base/1/g", Node::File { size: 0, time: 7 }),
    ("global", Node::Folder),
    ("global/pg_control", Node::File { size: 4, time: 7 }),
];

/// Files with their bytes.
type Files = &'static [(&'static str, &'static [u8])];

/// What they hold, where none changes.
const FILES: Files = &[
    ("PG_VERSION", b"15\n"),
    ("base/1/a", b"aaaaaaa"),
    ("base/1/b", b"bbbb"),
    ("base/1/c", b"ccc"),
    ("base/1/d", b"ddddddddddddddd"),
    ("base/1/e", b"e"),
    ("base/1/f", b"ffffffffffffffff"),
    ("base/1/g", b""),
    ("global/pg_control", b"head"),
];

/// The second file has become longer, and the third shorter.
const CHANGED: Files = &[
    ("PG_VERSION", b"15\n"),
    ("base/1/a", b"aaaaaaaaaa"),
    ("base/1/b", b"bbb"),
    ("base/1/c", b"ccc"),
    ("base/1/d", b"ddddddddddddddd"),
    ("base/1/e", b"e"),
    ("base/1/f", b"ffffffffffffffff"),
    ("base/1/g", b""),
    ("global/pg_control", b"head"),
];

/// The third file and the fifth, alone in its bundle, are gone.
const GONE: Files = &[
    ("PG_VERSION", b"15\n"),
    ("base/1/a", b"aaaaaaa"),
    ("base/1/c", b"ccc"),
    ("base/1/e", b"e"),
    ("base/1/f", b"ffffffffffffffff"),
    ("base/1/g", b""),
    ("global/pg_control", b"head"),
];

/// The third file has become empty, and the sixth, alone in its bundle, too.
const EMPTIED: Files = &[
    ("PG_VERSION", b"15\n"),
    ("base/1/a", b"aaaaaaa"),
    ("base/1/b", b""),
    ("base/1/c", b"ccc"),
    ("base/1/d", b"ddddddddddddddd"),
    ("base/1/e", b""),
    ("base/1/f", b"ffffffffffffffff"),
    ("base/1/g", b""),
    ("global/pg_control", b"head"),
];

/// What the manifest states of each, as the bundle and the place in it, and what each bundle holds.
const WHOLE: &str =
    "PG_VERSION 3 in 1 at 0; base/1/a 7 in 1 at 3; base/1/b 4 in 2 at 0; base/1/c 3 in 2 at 4; base/1/d 15 in 3 at 0; base/1/e 1 in 4 at 0; base/1/f 16; base/1/g 0; global/pg_control 4; 1: 15\naaaaaaa; 2: bbbbccc; 3: ddddddddddddddd; 4: e; ";

/// What the workers find, and what the manifest and the bundles hold then.
const ROWS: &[(Files, &str)] = &[
    (FILES, WHOLE),
    (
        CHANGED,
        "PG_VERSION 3 in 1 at 0; base/1/a 7 in 1 at 3; base/1/b 3 in 2 at 0; base/1/c 3 in 2 at 3; base/1/d 15 in 3 at 0; base/1/e 1 in 4 at 0; base/1/f 16; base/1/g 0; global/pg_control 4; 1: 15\naaaaaaa; 2: bbbccc; 3: ddddddddddddddd; 4: e; ",
    ),
    (
        GONE,
        "PG_VERSION 3 in 1 at 0; base/1/a 7 in 1 at 3; base/1/c 3 in 2 at 0; base/1/e 1 in 4 at 0; base/1/f 16; base/1/g 0; global/pg_control 4; 1: 15\naaaaaaa; 2: ccc; 4: e; ",
    ),
    (
        EMPTIED,
        "PG_VERSION 3 in 1 at 0; base/1/a 7 in 1 at 3; base/1/b 0; base/1/c 3 in 2 at 0; base/1/d 15 in 3 at 0; base/1/e 0; base/1/f 16; base/1/g 0; global/pg_control 4; 1: 15\naaaaaaa; 2: ccc; 3: ddddddddddddddd; ",
    ),
];

const LISTED: &str = "1704164645 of 53 bytes, 53 stored. ";

// The result of a backup over one worker for each of these lists of calls that fail.
fn known(
    alloc: Global,
    disk: &mut MemDisk,
    files: &[(&str, &[u8])],
    fails: &[&[u64]],
) -> Result<String, AllocError> {
    let mut clock = clock_of(alloc, &[])?;
    let links = links_to(alloc, files, &[], fails)?;
    if links.len() > 64 {
        return Err(AllocError);
    }
    backed_up(alloc, disk, &mut clock, links, NODES, BUNDLED)
}

// What each bundle of the backup holds.
fn add_bundles(alloc: Global, disk: &mut MemDisk, text: &mut String) -> Result<(), AllocError> {
    for number in 1u64..9 {
        let name = format!(in alloc; "backup/demo/20240102-030405F/bundle/{number}")?;
        if let Some(bytes) = disk.bytes(&name) {
            let bytes = str::from_utf8(bytes).unwrap_or("no UTF-8");
            write!(text, "{number}: {bytes}; ")?;
        }
    }
    Ok(())
}

// What the manifest states of each file, and what each bundle holds.
fn contents(rt: &impl Abort, alloc: Global, disk: &mut MemDisk) -> Result<String, AllocError> {
    let manifest = well(rt, load_manifest(alloc, disk, "demo", &FIRST));
    let mut text = String::new(alloc);
    for file in &manifest.files {
        let path = file.path.as_str();
        write!(text, "{path} {}", file.size)?;
        if let Some(place) = file.bundle {
            write!(text, " in {} at {}", place.number, place.at)?;
        }
        text.push_str("; ")?;
    }
    add_bundles(alloc, disk, &mut text)?;
    Ok(text)
}

// What was made over these workers is this.
fn check_made(rt: &impl Abort, alloc: Global, files: Files, fails: &[&[u64]], wanted: &str) {
    let mut disk = well(rt, disk_of(alloc, &[]));
    let ending = well(rt, known(alloc, &mut disk, files, fails));
    same(rt, ending.as_str(), "made");
    let mut again = well(rt, reopened(alloc, &disk, &[]));
    same(
        rt,
        well(rt, contents(rt, alloc, &mut again)).as_str(),
        wanted,
    );
    same(rt, disk.faulty_calls(), 0);
}

#[test]
fn places_are_those_of_what_came(rt: HostRuntime) {
    for (files, wanted) in ROWS {
        check_made(&rt, rt.alloc(), files, &[&[]], wanted);
    }
}

#[test]
fn two_workers(rt: HostRuntime) {
    check_made(&rt, rt.alloc(), FILES, &[&[], &[]], WHOLE);
}

// Also between two parts of a bundle, which the other worker then reads from its beginning.
#[test]
fn a_worker_is_lost_at_each_call(rt: HostRuntime) {
    for number in 0u64..40 {
        check_made(&rt, rt.alloc(), FILES, &[&[number], &[]], WHOLE);
    }
}

// The list is as before, or has the backup whole.
fn check_list(rt: &impl Abort, alloc: Global, disk: &mut MemDisk) -> bool {
    let list = well(rt, listed(alloc, disk));
    if list.is_empty() {
        return false;
    }
    same(rt, list.as_str(), LISTED);
    same(rt, well(rt, contents(rt, alloc, disk)).as_str(), WHOLE);
    true
}

#[test]
fn each_call_of_the_disk_fails(rt: HostRuntime) {
    let alloc = rt.alloc();
    for number in 0u64..150 {
        let mut disk = well(&rt, disk_of(alloc, &[number]));
        let ending = well(&rt, known(alloc, &mut disk, FILES, &[&[]]));
        let mut again = well(&rt, reopened(alloc, &disk, &[]));
        let is_listed = check_list(&rt, alloc, &mut again);
        if disk.faults() == 0 {
            same(&rt, (ending.as_str(), is_listed), ("made", true));
            return;
        }
        same(&rt, ending.as_str(), "Disk");
    }
    panic!(&rt; "no backup is made without a fault");
}

#[test]
fn stopped_at_each_moment(rt: HostRuntime) {
    let alloc = rt.alloc();
    let mut disk = well(&rt, disk_of(alloc, &[]));
    let ending = well(&rt, known(alloc, &mut disk, FILES, &[&[]]));
    same(&rt, ending.as_str(), "made");
    let last = disk.moment();
    for moment in 0..=last {
        let mut newest = well(&rt, stopped(alloc, &disk, moment, false));
        let of_newest = check_list(&rt, alloc, &mut newest);
        let mut oldest = well(&rt, stopped(alloc, &disk, moment, true));
        let of_oldest = check_list(&rt, alloc, &mut oldest);
        if moment == last {
            same(&rt, (of_newest, of_oldest), (true, true));
        }
    }
}

const RESTORED: &str =
    "PG_VERSION 3 7; base/; base/1/; base/1/a 7 7; base/1/b 3 7; base/1/c 3 7; base/1/d 15 7; base/1/e 1 7; base/1/f 16 7; base/1/g 0 7; global/; global/pg_control 4 7; ";

#[test]
fn it_is_restored(rt: HostRuntime) {
    let alloc = rt.alloc();
    let mut disk = well(&rt, disk_of(alloc, &[]));
    let ending = well(&rt, known(alloc, &mut disk, CHANGED, &[&[]]));
    same(&rt, ending.as_str(), "made");
    let mut tree = well(&rt, tree_of(alloc, &[], &[]));
    let ending = well(
        &rt,
        restored(alloc, &mut disk, &mut tree, &PLAIN, None, &[]),
    );
    same(&rt, ending.as_str(), "restored");
    same(&rt, well(&rt, held_by(alloc, &mut tree)).as_str(), RESTORED);
}
