// A file is queued for archive-push:async: what is answered, and what a crash leaves.
use crate::spool::devices::{HISTORY, SYSTEM, empty, folder, segment, segment_bytes};
use crate::spool::others::Drains;
use crate::spool::same::{same, well};
use base_model::ArchiveName;
use base_text::Sum;
use cmd_archive_push_wait::queue_file;
use memory_devices::{ImageFault, MemDataFolder, MemDisk};
use std::alloc::{AllocError, Global};
use std::process::Abort;

// What a crash leaves of the disk now, opened anew. The calls of these numbers fail.
fn reopened(alloc: Global, disk: &MemDisk) -> Result<MemDisk, ImageFault> {
    let names = disk.image(alloc, disk.moment(), &[], &[])?;
    Ok(MemDisk::new(alloc, names, Vec::new(alloc))?)
}

// The call of this number, as a list; none is past all calls.
fn only(alloc: Global, number: u64) -> Result<Vec<u64>, AllocError> {
    let mut fail = Vec::new(alloc);
    fail.push(number)?;
    Ok(fail)
}

// The two disks, and the other process that pushes in the background.
#[derive(Drop)]
struct Devices {
    repo: MemDisk,
    spool: MemDisk,
    others: Drains,
}

fn beside(alloc: Global, tree: MemDataFolder, idle: u64, works: bool) -> Drains {
    Drains {
        alloc,
        tree,
        idle,
        works,
        starts: 0,
        turns: 0,
        faults: 0,
    }
}

// How it ends, as a text.
fn ended(
    rt: &impl Abort,
    alloc: Global,
    devices: &mut Devices,
    name: ArchiveName,
    bytes: &[u8],
    turns: u64,
) -> String {
    let arguments = Vec::new(alloc);
    let done = queue_file(
        alloc,
        &mut devices.repo,
        &mut devices.spool,
        &mut devices.others,
        "main",
        name,
        &Sum::of(bytes),
        &arguments,
        turns,
    );
    well(rt, format!(in alloc; "{done:?}"))
}

// A queued push with this many steps of others at most, after this many idle ones: how it ends, and how many were
// taken.
fn check(
    rt: &impl Abort,
    alloc: Global,
    idle: u64,
    works: bool,
    turns: u64,
    want: (&str, u64, u64),
) {
    let tree = well(
        rt,
        folder(alloc, &[("00000002.history", b"hello")], Vec::new(alloc)),
    );
    let mut devices = Devices {
        repo: well(rt, empty(alloc, Vec::new(alloc))),
        spool: well(rt, empty(alloc, Vec::new(alloc))),
        others: beside(alloc, tree, idle, works),
    };
    let found = ended(rt, alloc, &mut devices, HISTORY, b"hello", turns);
    same(rt, found.as_str(), want.0);
    same(rt, devices.others.starts, want.1);
    same(rt, devices.others.turns, want.2);
    let kept = well(rt, reopened(alloc, &devices.repo));
    let stored = kept.bytes("archive/main/16-1/00000002.history").is_some();
    same(rt, stored, found.as_str() == "Ok(())");
    let kept = well(rt, reopened(alloc, &devices.spool));
    assert!(rt;
        kept.bytes("archive/main/out/00000002.history.ok").is_none() || stored,
        "a receipt alone"
    );
    same(rt, devices.repo.faulty_calls(), 0);
    same(rt, devices.spool.faulty_calls(), 0);
}

#[test]
fn waits_for_the_drain(rt: HostRuntime) {
    let alloc = rt.alloc();
    check(&rt, alloc, 0, true, 3, ("Ok(())", 1, 1));
    check(&rt, alloc, 2, true, 3, ("Ok(())", 1, 3));
    check(
        &rt,
        alloc,
        2,
        true,
        2,
        ("Err(Refused(NotYet { turns: 2 }))", 1, 2),
    );
    check(
        &rt,
        alloc,
        0,
        true,
        0,
        ("Err(Refused(NotYet { turns: 0 }))", 1, 0),
    );
    check(&rt, alloc, 0, false, 3, ("Err(Failed(Others))", 0, 0));
}

const OTHER: &str =
    "Err(Refused(Reported { code: 33, text: \"stanza has system 6917529027641081857, WAL has system 5\" }))";

#[test]
fn asks_before_it_starts(rt: HostRuntime) {
    let alloc = rt.alloc();
    let third = well(&rt, segment_bytes(alloc, SYSTEM, 3));
    let fourth = well(&rt, segment_bytes(alloc, SYSTEM, 4));
    let fifth = well(&rt, segment_bytes(alloc, 5, 5));
    let files = [
        ("000000010000000000000003", third.as_slice()),
        ("000000010000000000000004", fourth.as_slice()),
        ("000000010000000000000005", fifth.as_slice()),
    ];
    let tree = well(&rt, folder(alloc, &files, Vec::new(alloc)));
    let mut devices = Devices {
        repo: well(&rt, empty(alloc, Vec::new(alloc))),
        spool: well(&rt, empty(alloc, Vec::new(alloc))),
        others: beside(alloc, tree, 0, true),
    };
    // The drain stores the first two and refuses the third.
    for (seg, bytes, want, starts) in [
        (3, third.as_slice(), "Ok(())", 1u64),
        (4, fourth.as_slice(), "Ok(())", 1),
        (5, fifth.as_slice(), OTHER, 1),
    ] {
        let found = ended(&rt, alloc, &mut devices, segment(seg), bytes, 2);
        same(&rt, found.as_str(), want);
        same(&rt, devices.others.starts, starts);
    }
    // A receipt of other bytes counts for nothing.
    let found = ended(&rt, alloc, &mut devices, segment(3), &fourth, 1);
    same(&rt, found.as_str(), "Err(Refused(NotYet { turns: 1 }))");
    same(&rt, devices.others.starts, 2);
}

// A queued push of which these calls fail: it succeeds only where nothing failed, and then every crash leaves the file.
fn check_failing(rt: &impl Abort, alloc: Global, repo: u64, spool: u64, tree: u64) {
    let tree = well(
        rt,
        folder(
            alloc,
            &[("00000002.history", b"hello")],
            well(rt, only(alloc, tree)),
        ),
    );
    let mut devices = Devices {
        repo: well(rt, empty(alloc, well(rt, only(alloc, repo)))),
        spool: well(rt, empty(alloc, well(rt, only(alloc, spool)))),
        others: beside(alloc, tree, 1, true),
    };
    let found = ended(rt, alloc, &mut devices, HISTORY, b"hello", 3);
    let whole = devices.repo.faults() == 0
        && devices.spool.faults() == 0
        && devices.others.tree.faults() == 0;
    same(rt, found.as_str() == "Ok(())", whole);
    let tree = well(
        rt,
        folder(alloc, &[("00000002.history", b"hello")], Vec::new(alloc)),
    );
    let mut devices = Devices {
        repo: well(rt, reopened(alloc, &devices.repo)),
        spool: well(rt, reopened(alloc, &devices.spool)),
        others: beside(alloc, tree, 0, true),
    };
    let stored = devices
        .repo
        .bytes("archive/main/16-1/00000002.history")
        .is_some();
    assert!(rt; stored || !whole, "acknowledged and not stored");
    let receipt = devices
        .spool
        .bytes("archive/main/out/00000002.history.ok")
        .is_some();
    assert!(rt; stored || !receipt, "a receipt without its file");
    let again = ended(rt, alloc, &mut devices, HISTORY, b"hello", 3);
    same(rt, again.as_str(), "Ok(())");
    assert!(rt;
        devices
            .repo
            .bytes("archive/main/16-1/00000002.history")
            .is_some(),
        "acknowledged and not stored"
    );
}

#[test]
fn fails_at_each_call_of_a_leave(rt: HostRuntime) {
    let alloc = rt.alloc();
    for number in 0..24u64 {
        check_failing(&rt, alloc, number, 99, 99);
        check_failing(&rt, alloc, 99, number, 99);
        check_failing(&rt, alloc, 99, 99, number);
    }
}
