// A drain of which each call of each device fails, and what a crash leaves of it.
use crate::spool::devices::{ID, SYSTEM, empty, folder};
use crate::spool::same::{same, well};
use cmd_archive_push_async::{Drained, drain};
use memory_devices::{ImageFault, MemDisk};
use std::alloc::{AllocError, Global};
use std::process::Abort;

const FILES: &[(&str, &[u8])] = &[
    ("00000002.history", b"hello"),
    ("000000010000000000000003", b"this is no segment"),
    ("00000003.history", b"world"),
];

// The call of this number, as a list; none is past all calls.
fn only(alloc: Global, number: u64) -> Result<Vec<u64>, AllocError> {
    let mut fail = Vec::new(alloc);
    fail.push(number)?;
    Ok(fail)
}

// What a crash leaves of the disk now, opened anew.
fn reopened(alloc: Global, disk: &MemDisk) -> Result<MemDisk, ImageFault> {
    let names = disk.image(alloc, disk.moment(), &[], &[])?;
    Ok(MemDisk::new(alloc, names, Vec::new(alloc))?)
}

// A receipt is there only where the file is.
fn check_receipts(rt: &impl Abort, repo: &MemDisk, spool: &MemDisk) {
    for (receipt, file) in [
        (
            "archive/main/out/00000002.history.ok",
            "archive/main/16-1/00000002.history",
        ),
        (
            "archive/main/out/00000003.history.ok",
            "archive/main/16-1/00000003.history",
        ),
    ] {
        if spool.bytes(receipt).is_some() {
            assert!(rt; repo.bytes(file).is_some(), "a receipt without its file");
        }
    }
}

// A drain of which these calls fail, and another one after a crash.
fn check_failing(rt: &impl Abort, alloc: Global, repo: u64, spool: u64, tree: u64) {
    let mut repo = well(rt, empty(alloc, well(rt, only(alloc, repo))));
    let mut spool = well(rt, empty(alloc, well(rt, only(alloc, spool))));
    let mut tree = well(rt, folder(alloc, FILES, well(rt, only(alloc, tree))));
    let done = drain(alloc, &mut repo, &mut spool, &mut tree, "main", ID, SYSTEM);
    let whole = repo.faults() == 0 && spool.faults() == 0 && tree.faults() == 0;
    same(rt, done.is_ok(), whole);
    let mut repo = well(rt, reopened(alloc, &repo));
    let mut spool = well(rt, reopened(alloc, &spool));
    check_receipts(rt, &repo, &spool);
    let mut tree = well(rt, folder(alloc, FILES, Vec::new(alloc)));
    let again = drain(alloc, &mut repo, &mut spool, &mut tree, "main", ID, SYSTEM);
    let want = Drained {
        pushed: 2,
        refused: 1,
    };
    same(rt, well(rt, again), want);
    check_receipts(rt, &repo, &spool);
}

#[test]
fn fails_at_each_call(rt: HostRuntime) {
    let alloc = rt.alloc();
    for number in 0..24u64 {
        check_failing(&rt, alloc, number, 99, 99);
        check_failing(&rt, alloc, 99, number, 99);
        check_failing(&rt, alloc, 99, 99, number);
    }
}
