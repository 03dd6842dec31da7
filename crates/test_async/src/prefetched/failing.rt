// A fetch of which each call of each device fails.
use crate::prefetched::devices::{disk, folder, segment, stored};
use crate::prefetched::following::fetch_after;
use crate::prefetched::same::{same, well};
use base_text::Sum;
use cmd_archive_get_async::take_ahead;
use std::alloc::{AllocError, Global};
use std::process::Abort;

// The call of this number, as a list; none is past all calls.
fn only(alloc: Global, number: u64) -> Result<Vec<u64>, AllocError> {
    let mut fail = Vec::new(alloc);
    fail.push(number)?;
    Ok(fail)
}

// A fetch and a take of which these calls fail: each succeeds exactly where none did.
fn check_failing(rt: &impl Abort, alloc: Global, repo: u64, spool: u64, tree: u64) {
    let mut names = Vec::new(alloc);
    let name = well(rt, stored(alloc, 3, b"three"));
    well(
        rt,
        names.push((name, well(rt, Vec::from_slice(alloc, b"three")))),
    );
    let mut repo = well(rt, disk(alloc, names, well(rt, only(alloc, repo))));
    let mut spool = well(
        rt,
        disk(alloc, Vec::new(alloc), well(rt, only(alloc, spool))),
    );
    let mut tree = well(rt, folder(alloc, well(rt, only(alloc, tree))));
    let fetched = fetch_after(rt, alloc, &mut repo, &mut spool, 2, 1048576);
    same(
        rt,
        fetched.is_ok(),
        repo.faults() == 0 && spool.faults() == 0,
    );
    let faults = spool.faults();
    let taken = take_ahead(
        alloc,
        &mut spool,
        &mut tree,
        "main",
        &segment(3),
        &Sum::of(b"three"),
        "pg_wal/RECOVERYXLOG",
    );
    same(
        rt,
        taken.is_ok(),
        spool.faults() == faults && tree.faults() == 0,
    );
}

#[test]
fn fails_at_each_call(rt: HostRuntime) {
    let alloc = rt.alloc();
    for number in 0..12u64 {
        check_failing(&rt, alloc, number, 99, 99);
        check_failing(&rt, alloc, 99, number, 99);
        check_failing(&rt, alloc, 99, 99, number);
    }
}
