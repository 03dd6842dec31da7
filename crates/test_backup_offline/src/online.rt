// Backups of a running server over devices in memory.

use crate::fixture::{
    FILES, FIRST, NODES, SECOND, backed_up_online, disk_of, links_to, listed, reopened,
};
use crate::same::{same, well};
use memory_devices::{MemClock, MemDisk};
use repo_manifest::load_manifest;
use std::alloc::{AllocError, Global};
use std::process::Abort;

const LABEL_FILE: &str = "START WAL LOCATION: 0/2000028\n";

// The label file has 30 bytes.
const LISTED: &str = "1704164645 of 42 bytes, 42 stored. ";

// The result of a backup over one worker.
fn known(alloc: Global, disk: &mut MemDisk, label_file: &str) -> Result<String, AllocError> {
    let seconds = [SECOND, SECOND, SECOND + 9].to_vec(alloc)?;
    let mut clock = MemClock::new(seconds, Vec::new(alloc));
    let links = links_to(alloc, FILES, &[], &[&[]])?;
    if links.len() > 64 || label_file.len() > 1000 {
        return Err(AllocError);
    }
    backed_up_online(alloc, disk, &mut clock, links, NODES, label_file)
}

// The manifest's files with their times, and what the label file holds.
fn contents(rt: &impl Abort, alloc: Global, disk: &mut MemDisk) -> Result<String, AllocError> {
    let manifest = well(rt, load_manifest(alloc, disk, "demo", &FIRST));
    let mut text = String::new(alloc);
    for file in &manifest.files {
        let path = file.path.as_str();
        write!(text, "{path} {} at {}; ", file.size, file.time)?;
    }
    let name = "backup/demo/20240102-030405F/pg_data/backup_label";
    write!(
        text,
        "from {:?}, {}",
        manifest.wal.map(|part| part.span.start.seg),
        disk.bytes(name) == Some(LABEL_FILE.as_bytes())
    )?;
    Ok(text)
}

const CONTENTS: &str =
    "PG_VERSION 3 at 7; backup_label 30 at 1704164654; base/1/112 5 at 8; base/1/113 0 at 9; global/pg_control 4 at 10; from Some(2), true";

#[test]
fn the_label_file_is_one_of_its_files(rt: HostRuntime) {
    let alloc = rt.alloc();
    let mut disk = well(&rt, disk_of(alloc, &[]));
    let ending = well(&rt, known(alloc, &mut disk, LABEL_FILE));
    same(&rt, ending.as_str(), "made");
    let mut again = well(&rt, reopened(alloc, &disk, &[]));
    same(&rt, well(&rt, listed(alloc, &mut again)).as_str(), LISTED);
    same(
        &rt,
        well(&rt, contents(&rt, alloc, &mut again)).as_str(),
        CONTENTS,
    );
    same(&rt, disk.faulty_calls(), 0);
}

#[test]
fn an_empty_label_file_has_no_place(rt: HostRuntime) {
    let alloc = rt.alloc();
    let mut disk = well(&rt, disk_of(alloc, &[]));
    let ending = well(&rt, known(alloc, &mut disk, ""));
    same(&rt, ending.as_str(), "made");
    let list = well(&rt, listed(alloc, &mut disk));
    same(&rt, list.as_str(), "1704164645 of 12 bytes, 12 stored. ");
}

#[test]
fn each_call_of_the_disk_fails(rt: HostRuntime) {
    let alloc = rt.alloc();
    for number in 0u64..100 {
        let mut disk = well(&rt, disk_of(alloc, &[number]));
        let ending = well(&rt, known(alloc, &mut disk, LABEL_FILE));
        let mut again = well(&rt, reopened(alloc, &disk, &[]));
        let list = well(&rt, listed(alloc, &mut again));
        if !list.is_empty() {
            same(&rt, list.as_str(), LISTED);
            same(
                &rt,
                well(&rt, contents(&rt, alloc, &mut again)).as_str(),
                CONTENTS,
            );
        }
        if disk.faults() == 0 {
            same(&rt, (ending.as_str(), list.is_empty()), ("made", false));
            return;
        }
        same(&rt, ending.as_str(), "Disk");
    }
    panic!(&rt; "no backup is made without a fault");
}
