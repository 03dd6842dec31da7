// How many files the data folder of a sample cluster has, and how many bytes they have in all.
ghost use Rattle.std.specs.Prelude.{◌≤◌};

use crate::sample::same::{same, well};
use base_devices::{DataFolder, DeviceError, Node};
use base_sample::{FolderFault, grow_cluster, make_cluster, spoil_cluster};
use memory_devices::MemDataFolder;
use std::alloc::Global;
use std::process::Abort;

// The files and their bytes.
fn counts<T: DataFolder>(alloc: Global, tree: &mut T) -> Result<(u64, u64), DeviceError> {
    let mut files = 0u64;
    let mut bytes = 0u64;
    for seen in tree.list(alloc)? {
        if let Node::File { size, .. } = seen.node {
            files = files.wrapping_add(1);
            bytes = bytes.wrapping_add(size);
        }
    }
    Ok((files, bytes))
}

// Of a cluster of this number: as it was made, once it has grown, and once it is damaged.
fn check(
    rt: &impl Abort,
    alloc: Global,
    number: u32,
    made: (u64, u64),
    grown: (u64, u64),
    spoiled: (u64, u64),
)
    requires { number ≤ 64 }
{
    let mut tree = well(
        rt,
        MemDataFolder::new(alloc, Vec::new(alloc), Vec::new(alloc)),
    );
    well(rt, make_cluster(alloc, &mut tree, number));
    same(rt, well(rt, counts(alloc, &mut tree)), made);
    well(rt, grow_cluster(alloc, &mut tree, number));
    same(rt, well(rt, counts(alloc, &mut tree)), grown);
    well(rt, spoil_cluster(alloc, &mut tree));
    same(rt, well(rt, counts(alloc, &mut tree)), spoiled);
    same(rt, tree.faulty_calls(), 0);
    let again = make_cluster(alloc, &mut tree, number);
    same(
        rt,
        matches!(&again, Err(FolderFault::NotEmpty { .. })),
        true,
    );
}

#[test]
fn smallest_cluster(rt: HostRuntime) {
    check(
        &rt,
        rt.alloc(),
        1,
        (102, 410115),
        (102, 410125),
        (101, 410124),
    );
}

#[test]
fn second_cluster(rt: HostRuntime) {
    check(
        &rt,
        rt.alloc(),
        2,
        (202, 814083),
        (202, 814103),
        (201, 814102),
    );
}
