// What a crash leaves of a file after the answers of two pushes of it, where one call of the disk fails.
use crate::archive::{HISTORY, HISTORY_PATH, ID};
use crate::disk::disk_of;
use crate::images::kept_then;
use crate::pushes::SYSTEM;
use crate::same::{same, well};
use archive_lookup::ArchiveFault;
use archive_store::{Pushed, push};
use memory_devices::MemDisk;
use std::alloc::Global;

fn push_history(alloc: Global, disk: &mut MemDisk) -> Result<Pushed, ArchiveFault> {
    push(alloc, disk, "main", &ID, &HISTORY, SYSTEM, b"hello")
}

// A rename that isn't synced may be undone by a crash. The next push finds the file, syncs the names of its folder,
// and answers that it is stored: from then on each crash leaves it.
#[test]
fn a_push_after_a_failed_one_lasts(rt: HostRuntime) {
    let alloc = rt.alloc();
    let mut unsettled = false;
    for call in 0..24 {
        let mut disk = well(&rt, disk_of(alloc, &[], &[call]));
        let first = push_history(alloc, &mut disk);
        let kept = well(&rt, kept_then(alloc, &disk, disk.moment(), HISTORY_PATH));
        if first.is_err() && kept.as_str() == "- hello " {
            unsettled = true;
        }
        let second = push_history(alloc, &mut disk);
        if second.is_ok() {
            let kept = well(&rt, kept_then(alloc, &disk, disk.moment(), HISTORY_PATH));
            same(&rt, kept.as_str(), "hello ");
        }
    }
    same(&rt, unsettled, true);
}
