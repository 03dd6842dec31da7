// Backups over devices in memory.

use crate::fixture::{
    ALONE, FILES, FIRST, INFO, NODES, SECOND, backed_up, disk_of, links_to, listed, reopened,
};
use crate::same::{same, well};
use base_devices::Node;
use memory_devices::{MemClock, MemDisk};
use repo_manifest::load_manifest;
use std::alloc::{AllocError, Global};
use std::process::Abort;

const LISTED: &str = "1704164645 of 12 bytes, 12 stored. ";

// A command has at most this many links.
const MOST_LINKS: usize = 64;

/// A clock that shows the second of the label, and then a later one, whose calls with these numbers fail.
pub(crate) fn clock_of(alloc: Global, fail: &[u64]) -> Result<MemClock, AllocError> {
    Ok(MemClock::new(
        [SECOND, SECOND, SECOND + 9].to_vec(alloc)?,
        fail.to_vec(alloc)?,
    ))
}

// The result of a backup over one worker for each of these lists of calls that fail.
fn known(
    alloc: Global,
    disk: &mut MemDisk,
    clock_fails: &[u64],
    files: &[(&str, &[u8])],
    fails: &[&[u64]],
) -> Result<String, AllocError> {
    let mut clock = clock_of(alloc, clock_fails)?;
    let links = links_to(alloc, files, &[], fails)?;
    if links.len() > MOST_LINKS {
        return Err(AllocError);
    }
    backed_up(alloc, disk, &mut clock, links, NODES, ALONE)
}

// What the files hold, and which of them the manifest states.
fn contents(rt: &impl Abort, alloc: Global, disk: &mut MemDisk) -> Result<String, AllocError> {
    let manifest = well(rt, load_manifest(alloc, disk, "demo", &FIRST));
    let mut text = String::new(alloc);
    for file in &manifest.files {
        let path = file.path.as_str();
        let name = format!(in alloc; "backup/demo/20240102-030405F/pg_data/{path}")?;
        write!(text, "{path} {} {:?}; ", file.size, disk.bytes(&name))?;
    }
    Ok(text)
}

const CONTENTS: &str =
    "PG_VERSION 3 Some([49, 53, 10]); base/1/112 5 Some([104, 101, 108, 108, 111]); base/1/113 0 None; global/pg_control 4 Some([104, 101, 97, 100]); ";

/// A disk with a backup.
pub(crate) fn backed_up_well(rt: &impl Abort, alloc: Global) -> MemDisk {
    let mut disk = well(rt, disk_of(alloc, &[]));
    let ending = well(rt, known(alloc, &mut disk, &[], FILES, &[&[]]));
    same(rt, ending.as_str(), "made");
    disk
}

fn check_made(rt: &impl Abort, alloc: Global, fails: &[&[u64]]) {
    let mut disk = well(rt, disk_of(alloc, &[]));
    let ending = well(rt, known(alloc, &mut disk, &[], FILES, fails));
    same(rt, ending.as_str(), "made");
    let mut again = well(rt, reopened(alloc, &disk, &[]));
    same(rt, well(rt, listed(alloc, &mut again)).as_str(), LISTED);
    same(
        rt,
        well(rt, contents(rt, alloc, &mut again)).as_str(),
        CONTENTS,
    );
    same(rt, disk.faulty_calls(), 0);
}

#[test]
fn one_worker(rt: HostRuntime) {
    check_made(&rt, rt.alloc(), &[&[]]);
}

#[test]
fn a_worker_is_lost(rt: HostRuntime) {
    check_made(&rt, rt.alloc(), &[&[1], &[]]);
}

#[test]
fn two_workers(rt: HostRuntime) {
    check_made(&rt, rt.alloc(), &[&[], &[]]);
}

// After each failing call the list is as before, or has the backup whole.
fn check_list(rt: &impl Abort, alloc: Global, disk: &mut MemDisk) -> bool {
    let list = well(rt, listed(alloc, disk));
    if list.is_empty() {
        return false;
    }
    same(rt, list.as_str(), LISTED);
    same(rt, well(rt, contents(rt, alloc, disk)).as_str(), CONTENTS);
    true
}

#[test]
fn each_call_of_the_disk_fails(rt: HostRuntime) {
    let alloc = rt.alloc();
    for number in 0u64..100 {
        let mut disk = well(&rt, disk_of(alloc, &[number]));
        let ending = well(&rt, known(alloc, &mut disk, &[], FILES, &[&[]]));
        let mut again = well(&rt, reopened(alloc, &disk, &[]));
        let is_listed = check_list(&rt, alloc, &mut again);
        if disk.faults() == 0 {
            same(&rt, (ending.as_str(), is_listed), ("made", true));
            return;
        }
        same(&rt, ending.as_str(), "Disk");
    }
    panic!(&rt; "no backup is made without a fault");
}

/// Opened anew on what a crash at that moment leaves, with the oldest or the newest kept values of the list's members.
pub(crate) fn stopped(
    alloc: Global,
    disk: &MemDisk,
    moment: u64,
    oldest: bool,
) -> Result<MemDisk, AllocError> {
    let mut choice = Vec::new(alloc);
    if oldest {
        choice.push((String::from_str(alloc, INFO)?, 0))?;
        choice.push((format!(in alloc; "{INFO}.copy")?, 0))?;
    }
    let names = match disk.image(alloc, moment, &choice, &[]) {
        Ok(names) => names,
        Err(_) => Vec::new(alloc),
    };
    MemDisk::new(alloc, names, Vec::new(alloc))
}

#[test]
fn stopped_at_each_moment(rt: HostRuntime) {
    let alloc = rt.alloc();
    let mut disk = well(&rt, disk_of(alloc, &[]));
    let ending = well(&rt, known(alloc, &mut disk, &[], FILES, &[&[]]));
    same(&rt, ending.as_str(), "made");
    let last = disk.moment();
    for moment in 0..=last {
        let mut newest = well(&rt, stopped(alloc, &disk, moment, false));
        let of_newest = check_list(&rt, alloc, &mut newest);
        let mut oldest = well(&rt, stopped(alloc, &disk, moment, true));
        let of_oldest = check_list(&rt, alloc, &mut oldest);
        if moment == last {
            same(&rt, (of_newest, of_oldest), (true, true));
        }
    }
}

/// The files that the workers find, the calls of each that fail, those of the clock, and the result of it.
type Ending = (
    &'static [(&'static str, &'static [u8])],
    &'static [&'static [u64]],
    &'static [u64],
    &'static str,
    &'static str,
);

const ENDINGS: &[Ending] = &[
    (
        &[("PG_VERSION", b"15\n"), ("global/pg_control", b"head")],
        &[&[]],
        &[],
        "made",
        "1704164645 of 7 bytes, 7 stored. ",
    ),
    (
        &[
            ("PG_VERSION", b"15\n"),
            ("base/1/112", b"hel"),
            ("global/pg_control", b"head!"),
        ],
        &[&[]],
        &[],
        "made",
        "1704164645 of 10 bytes, 10 stored. ",
    ),
    (
        &[("PG_VERSION", b"15\n"), ("base/1/112", b"hello")],
        &[&[]],
        &[],
        "ControlMissing { path: \"global/pg_control\" }",
        "",
    ),
    (FILES, &[], &[], "WorkersLost", ""),
    (FILES, &[&[0], &[2]], &[], "WorkersLost", ""),
    (FILES, &[&[]], &[0], "Clock", ""),
    (FILES, &[&[]], &[3], "Clock", ""),
];

#[test]
fn endings(rt: HostRuntime) {
    let alloc = rt.alloc();
    for (files, fails, clock_fails, want, list) in ENDINGS {
        let mut disk = well(&rt, disk_of(alloc, &[]));
        let ending = well(&rt, known(alloc, &mut disk, clock_fails, files, fails));
        same(&rt, ending.as_str(), *want);
        let mut again = well(&rt, reopened(alloc, &disk, &[]));
        same(&rt, well(&rt, listed(alloc, &mut again)).as_str(), *list);
    }
}
