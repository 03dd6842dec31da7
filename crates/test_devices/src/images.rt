// What a crash leaves of a disk in memory, at each moment of the disk model's worked example.
use crate::disk::{Call, FOLDER, X, Y, Z, disk_of, run};
use crate::same::{same, well};
use base_devices::DeviceError;
use memory_devices::{ImageFault, MemDisk};
use std::alloc::{AllocError, Global};
use std::process::Abort;

// The worked example's calls, made on an empty disk.
fn worked_disk(alloc: Global) -> Result<MemDisk, DeviceError> {
    let mut disk = disk_of(alloc, &[], &[])?;
    for call in WORKED {
        run(&mut disk, call)?;
    }
    Ok(disk)
}

const WORKED: &[Call] = &[
    Call::Begin(X),
    Call::Append(X, "a"),
    Call::Sync(X),
    Call::Rename(X, Y),
    Call::SyncFolders(FOLDER),
];

// The unsynced names at a moment.
fn unsynced_then(alloc: Global, disk: &MemDisk, moment: u64) -> Result<String, AllocError> {
    let mut text = String::new(alloc);
    for name in &disk.unsynced(alloc, moment)? {
        text.push_str(name)?;
        text.push(' ')?;
    }
    Ok(text)
}

// What a name keeps at a moment, `-` for nothing and else the bytes.
pub(crate) fn kept_then(
    alloc: Global,
    disk: &MemDisk,
    moment: u64,
    name: &str,
) -> Result<String, AllocError> {
    let mut text = String::new(alloc);
    for value in &disk.kept(alloc, moment, name)? {
        match value {
            Some(bytes) => {
                for byte in bytes {
                    text.push(*byte as char)?;
                }
            }
            None => text.push('-')?,
        }
        text.push(' ')?;
    }
    Ok(text)
}

// The unsynced names at a moment, and what x and y keep.
fn check_moment(
    rt: &impl Abort,
    alloc: Global,
    disk: &MemDisk,
    moment: u64,
    unsynced: &str,
    x: &str,
    y: &str,
) {
    same(
        rt,
        well(rt, unsynced_then(alloc, disk, moment)).as_str(),
        unsynced,
    );
    same(rt, well(rt, kept_then(alloc, disk, moment, X)).as_str(), x);
    same(rt, well(rt, kept_then(alloc, disk, moment, Y)).as_str(), y);
}

#[test]
fn what_moments_keep(rt: HostRuntime) {
    let alloc = rt.alloc();
    let disk = well(&rt, worked_disk(alloc));
    same(&rt, disk.moment(), 5);
    check_moment(&rt, alloc, &disk, 0, "", "- ", "- ");
    check_moment(&rt, alloc, &disk, 1, "archive/demo/x ", "- ", "- ");
    check_moment(&rt, alloc, &disk, 2, "archive/demo/x ", "- ", "- ");
    check_moment(&rt, alloc, &disk, 3, "", "- a ", "- ");
    check_moment(&rt, alloc, &disk, 4, "", "- a - ", "- a ");
    check_moment(&rt, alloc, &disk, 5, "", "- ", "a ");
    check_moment(&rt, alloc, &disk, 6, "", "- ", "a ");
}

fn chosen_of(alloc: Global, positions: &[(&str, u32)]) -> Result<Vec<(String, u32)>, AllocError> {
    let mut chosen = Vec::new(alloc);
    for (name, position) in positions {
        chosen.push((String::from_str(alloc, name)?, *position))?;
    }
    Ok(chosen)
}

fn torn_of(alloc: Global, unsynced: &[(&str, &str)]) -> Result<Vec<(String, Vec<u8>)>, AllocError> {
    let mut torn = Vec::new(alloc);
    for (name, bytes) in unsynced {
        let name = String::from_str(alloc, name)?;
        torn.push((name, Vec::from_slice(alloc, bytes.as_bytes())?))?;
    }
    Ok(torn)
}

// The image at a moment, as `name:size` of each name, where these positions of kept values and these bytes of unsynced
// names are chosen.
fn image_then(
    alloc: Global,
    disk: &MemDisk,
    moment: u64,
    positions: &[(&str, u32)],
    unsynced: &[(&str, &str)],
) -> Result<String, ImageFault> {
    let chosen = chosen_of(alloc, positions)?;
    let torn = torn_of(alloc, unsynced)?;
    let mut text = String::new(alloc);
    for (name, bytes) in &disk.image(alloc, moment, &chosen, &torn)? {
        write!(text, "{}:{} ", name, bytes.len())?;
    }
    Ok(text)
}

// The moment, the positions, the bytes of unsynced names, and the image.
const IMAGES: &[(
    u64,
    &[(&str, u32)],
    &[(&str, &str)],
    Result<&str, ImageFault>,
)] = &[
    (4, &[(Y, 0), (X, 1)], &[], Ok("archive/demo/x:1 ")),
    (4, &[], &[], Ok("archive/demo/y:1 ")),
    (4, &[(X, 1)], &[], Ok("archive/demo/x:1 archive/demo/y:1 ")),
    (4, &[(X, 1), (X, 2), (Y, 0)], &[], Ok("")),
    (2, &[], &[(X, "torn")], Ok("archive/demo/x:4 ")),
    (2, &[], &[], Ok("")),
    (4, &[(X, 3)], &[], Err(ImageFault::Position)),
    (4, &[(Z, 1)], &[], Err(ImageFault::Position)),
    (4, &[], &[(X, "torn")], Err(ImageFault::NotUnsynced)),
];

#[test]
fn images(rt: HostRuntime) {
    let alloc = rt.alloc();
    let disk = well(&rt, worked_disk(alloc));
    for (moment, positions, unsynced, want) in IMAGES {
        match image_then(alloc, &disk, *moment, positions, unsynced) {
            Ok(text) => same(&rt, Ok(text.as_str()), *want),
            Err(fault) => same(&rt, Err(fault), *want),
        }
    }
}
