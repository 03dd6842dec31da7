// What is taken of the spool.
use crate::prefetched::devices::{disk, fetched, folder, segment};
use crate::prefetched::same::{same, well};
use base_text::Sum;
use cmd_archive_get_async::take_ahead;
use memory_devices::{MemDataFolder, MemDisk, MemNode};
use std::alloc::Global;
use std::process::Abort;

// A spool in which the name of the third segment with the sum of `three` has these bytes.
fn spool_of(rt: &impl Abort, alloc: Global, bytes: &[u8]) -> MemDisk {
    let mut names = Vec::new(alloc);
    for (digit, held) in [(3, bytes), (4, b"four".as_slice())] {
        let known = if digit == 3 {
            b"three".as_slice()
        } else {
            held
        };
        let name = well(rt, fetched(alloc, digit, known));
        well(
            rt,
            names.push((name, well(rt, Vec::from_slice(alloc, held)))),
        );
    }
    well(rt, disk(alloc, names, Vec::new(alloc)))
}

// The bytes that the data folder has at the path.
fn served(tree: &MemDataFolder) -> Option<&[u8]> {
    match tree.node("pg_wal/RECOVERYXLOG") {
        Some(MemNode::File { bytes, .. }) => Some(bytes.as_slice()),
        _ => None,
    }
}

#[test]
fn takes_what_has_its_sum(rt: HostRuntime) {
    let alloc = rt.alloc();
    for (held, want) in [
        (b"three".as_slice(), true),
        (b"thre".as_slice(), false),
        (b"", false),
    ] {
        let mut spool = spool_of(&rt, alloc, held);
        let mut tree = well(&rt, folder(alloc, Vec::new(alloc)));
        let sum = Sum::of(b"three");
        for again in [want, false] {
            let taken = take_ahead(
                alloc,
                &mut spool,
                &mut tree,
                "main",
                &segment(3),
                &sum,
                "pg_wal/RECOVERYXLOG",
            );
            same(&rt, well(&rt, taken), again);
            same(&rt, served(&tree) == Some(b"three".as_slice()), want);
        }
        let name = well(&rt, fetched(alloc, 3, b"three"));
        same(&rt, spool.bytes(name.as_str()).is_some(), false);
        let other = well(&rt, fetched(alloc, 4, b"four"));
        same(&rt, spool.bytes(other.as_str()).is_some(), true);
    }
}
