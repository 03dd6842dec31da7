// archive-push in the background: the file is read, and queued for archive-push:async.
use crate::spool::devices::{empty, folder};
use crate::spool::others::Drains;
use crate::spool::same::{same, well};
use cmd_archive_push::push_order;
use cmd_archive_push_wait::{QueueFault, queue_message, queue_push, queue_status};
use memory_devices::MemDisk;
use std::alloc::Global;
use std::process::Abort;

const FILES: &[(&str, &[u8])] = &[("00000002.history", b"hello")];

fn empty_disk(rt: &impl Abort, alloc: Global) -> MemDisk {
    well(rt, empty(alloc, Vec::new(alloc)))
}

// A push of this path, after this many idle steps, with two at most. The call of the data folder of this number fails.
fn check(rt: &impl Abort, alloc: Global, path: &str, idle: u64, fail: u64, want: &str) {
    let mut repo = empty_disk(rt, alloc);
    let mut spool = empty_disk(rt, alloc);
    let mut fails = Vec::new(alloc);
    well(rt, fails.push(fail));
    let mut tree = well(rt, folder(alloc, FILES, fails));
    let mut others = Drains {
        alloc,
        tree: well(rt, folder(alloc, FILES, Vec::new(alloc))),
        idle,
        works: true,
        starts: 0,
        turns: 0,
        faults: 0,
    };
    let order = well(rt, push_order(alloc, "/data", path));
    let arguments = Vec::new(alloc);
    let done = queue_push(
        alloc,
        &mut repo,
        &mut spool,
        &mut tree,
        &mut others,
        "main",
        &order,
        &arguments,
        2,
    );
    let found = well(rt, format!(in alloc; "{done:?}"));
    same(rt, found.as_str(), want);
    let stored = repo.bytes("archive/main/16-1/00000002.history") == Some(b"hello".as_slice());
    same(rt, stored, done.is_ok());
}

#[test]
fn pushes_in_the_background(rt: HostRuntime) {
    let alloc = rt.alloc();
    let path = "/data/pg_wal/00000002.history";
    check(&rt, alloc, path, 0, 99, "Ok(Finished { lines: \"\" })");
    check(&rt, alloc, path, 1, 99, "Ok(Finished { lines: \"\" })");
    check(&rt, alloc, path, 2, 99, "Err(Refused(NotYet { turns: 2 }))");
    let other = "pg_wal/00000003.history";
    let missing = "Err(Refused(SegmentMissing { path: \"pg_wal/00000003.history\" }))";
    check(&rt, alloc, other, 0, 99, missing);
    check(&rt, alloc, path, 0, 0, "Err(Failed(TheDataFolder))");
    check(&rt, alloc, path, 0, 1, "Err(Failed(TheDataFolder))");
}

fn check_text(rt: &impl Abort, alloc: Global, fault: &QueueFault, status: u8, want: &str) {
    same(rt, queue_status(fault), status);
    let line = well(rt, queue_message(alloc, "00000002.history", fault));
    same(rt, line.as_slice(), want.as_bytes());
}

#[test]
fn shows_why(rt: HostRuntime) {
    let alloc = rt.alloc();
    let text = well(&rt, String::from_str(alloc, "no\tfile"));
    let fault = QueueFault::Reported { code: 33, text };
    check_text(&rt, alloc, &fault, 39, "[33] no?file");
    let late = "'00000002.history' not archived after 60 turns";
    check_text(&rt, alloc, &QueueFault::NotYet { turns: 60 }, 38, late);
    let path = well(&rt, String::from_str(alloc, "pg_wal/x"));
    let fault = QueueFault::SegmentMissing { path };
    check_text(&rt, alloc, &fault, 37, "'pg_wal/x' is missing");
    let name = well(&rt, String::from_str(alloc, "pg_wal/x"));
    let fault = QueueFault::TooLong { name, limit: 5 };
    check_text(&rt, alloc, &fault, 70, "'pg_wal/x' is longer than 5");
}
