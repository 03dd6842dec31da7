// What fetching ahead leaves in the spool.
use crate::prefetched::devices::{disk, fetched, repository, segment, stored};
use crate::prefetched::following::fetch_after;
use crate::prefetched::same::{same, well};
use cmd_archive_get::GetFault;
use cmd_archive_get_async::has_ahead;
use cmd_types::Halt;
use memory_devices::MemDisk;
use std::alloc::Global;
use std::process::Abort;

const SEGMENTS: &[(u32, &[u8])] = &[(2, b"two"), (3, b"three"), (4, b"four"), (6, b"six")];

// Fetches after this segment with this queue, where an older fetch left a file, and returns how many.
fn fetch(rt: &impl Abort, alloc: Global, after: u32, queue: u64) -> (u64, MemDisk) {
    let mut repo = well(rt, repository(alloc, SEGMENTS));
    let mut old = Vec::new(alloc);
    well(
        rt,
        old.push((
            well(rt, fetched(alloc, 1, b"one")),
            well(rt, Vec::from_slice(alloc, b"one")),
        )),
    );
    let mut spool = well(rt, disk(alloc, old, Vec::new(alloc)));
    let done = fetch_after(rt, alloc, &mut repo, &mut spool, after, queue);
    (well(rt, done), spool)
}

#[test]
fn fetches_what_the_queue_holds(rt: HostRuntime) {
    let alloc = rt.alloc();
    for (after, queue, count, there) in [
        (2, 3145728, 2, [false, true, true, false]),
        (2, 1048576, 1, [false, true, false, false]),
        (2, 0, 1, [false, true, false, false]),
        (1, 2097152, 2, [true, true, false, false]),
        (4, 3145728, 0, [false, false, false, false]),
        (5, 3145728, 1, [false, false, false, true]),
    ] {
        let (known, mut spool) = fetch(&rt, alloc, after, queue);
        same(&rt, known, count);
        for ((digit, bytes), want) in SEGMENTS.iter().zip(there.iter()) {
            let name = well(&rt, fetched(alloc, *digit, bytes));
            same(&rt, spool.bytes(name.as_str()).is_some(), *want);
            let has = has_ahead(alloc, &mut spool, "main", &segment(*digit));
            same(&rt, well(&rt, has), *want);
        }
        let old = well(&rt, fetched(alloc, 1, b"one"));
        same(&rt, spool.bytes(old.as_str()).is_some(), false);
    }
}

#[test]
fn a_damaged_segment_is_not_fetched(rt: HostRuntime) {
    let alloc = rt.alloc();
    let mut names = Vec::new(alloc);
    well(
        &rt,
        names.push((
            well(&rt, stored(alloc, 3, b"three")),
            well(&rt, Vec::from_slice(alloc, b"tree")),
        )),
    );
    let mut repo = well(&rt, disk(alloc, names, Vec::new(alloc)));
    let mut spool = well(&rt, disk(alloc, Vec::new(alloc), Vec::new(alloc)));
    let done = fetch_after(&rt, alloc, &mut repo, &mut spool, 2, 1048576);
    let damaged = matches!(done, Err(Halt::Refused(GetFault::SegmentDamaged { .. })));
    same(&rt, damaged, true);
}
