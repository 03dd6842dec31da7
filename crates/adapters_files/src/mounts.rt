// The file systems that are mounted, as the system reports.
use crate::place::{Place, folder_of};
use std::os::unix::fs::MetadataExt;
use std::{fs, io};

const MOUNTS: &str = "/proc/self/mountinfo";

/// Whether another file system may lie below the root: only where the system reports all that are mounted, and none of
/// them does, it doesn't.
pub fn may_hold_file_systems(place: &Place) -> bool {
    mounted_below(place).unwrap_or(true)
}

/// The kind of the root's file system, as `ext4`: None where it isn't known.
pub fn kind_of_root(place: &Place) -> Option<String> {
    kind_at(place, place.root()).unwrap_or(None)
}

/// The kind of the file system on which the folder lies that holds a name: a link may lead to it.
pub fn kind_of_folder(place: &Place, name: &str) -> Option<String> {
    let path = place.path_of(name).ok()?;
    kind_at(place, folder_of(&path)).unwrap_or(None)
}

fn mounted_below(place: &Place) -> io::Result<bool> {
    let root = fs::canonicalize(&place.rt, place.root())?;
    let mounts = fs::read_to_string(&place.rt, MOUNTS)?;
    Ok(
        mounts
            .lines()
            .any(|line| may_lie_below(line, root.as_path().as_str())),
    )
}

// Blanks and the like are spelled otherwise where the system reports a path.
fn is_plain(path: &str) -> bool {
    path.bytes().all(|b| b > b' ' && b != b'\\')
}

// Where the file system of a line is mounted.
fn point_of(line: &str) -> Option<&str> {
    line.split(' ').nth(4)
}

fn may_lie_below(line: &str, root: &str) -> bool {
    match point_of(line) {
        Some(point) if is_plain(root) => match point.strip_prefix(root) {
            Some(rest) => root == "/" || rest.starts_with('/'),
            None => false,
        },
        _ => true,
    }
}

// A folder lies on the file system that is mounted nearest above it.
fn kind_at(place: &Place, folder: &str) -> io::Result<Option<String>> {
    let path = fs::canonicalize(&place.rt, folder)?;
    let path = path.as_path().as_str();
    if !is_plain(path) {
        return Ok(None);
    }
    let device = fs::metadata(&place.rt, path)?.dev();
    let mounts = fs::read_to_string(&place.rt, MOUNTS)?;
    match nearest(&mounts, path).and_then(|line| kind_of(line, device)) {
        Some(kind) => Ok(Some(String::from_str(place.rt.alloc(), kind)?)),
        None => Ok(None),
    }
}

fn nearest<'a>(mounts: &'a str, path: &str) -> Option<&'a str> {
    let mut found = None;
    let mut longest = 0;
    for line in mounts.lines() {
        if let Some(point) = point_of(line) {
            if holds(point, path) && point.len() >= longest {
                longest = point.len();
                found = Some(line);
            }
        }
    }
    found
}

fn holds(point: &str, path: &str) -> bool {
    match path.strip_prefix(point) {
        Some(rest) => point == "/" || rest.is_empty() || rest.starts_with('/'),
        None => false,
    }
}

// The kind that a line states. Another file system may be mounted over it, and then has another device. The devices of
// btrfs are of its parts.
fn kind_of(line: &str, device: u64) -> Option<&str> {
    let (_, rest) = line.split_once(" - ")?;
    let kind = rest.split(' ').next()?;
    let is_its = kind == "btrfs" || device_of(line) == Some(device);
    is_its.then_some(kind)
}

// The third field of a line is the device's two numbers; the system packs them so into one.
fn device_of(line: &str) -> Option<u64> {
    let (major, minor) = line.split(' ').nth(2)?.split_once(':')?;
    let major = u64::from(major.parse::<u32>().ok()?);
    let minor = u64::from(minor.parse::<u32>().ok()?);
    let high = (major & 0xffff_f000) << 32 | (minor & 0xffff_ff00) << 12;
    Some(high | (major & 0xfff) << 8 | minor & 0xff)
}
