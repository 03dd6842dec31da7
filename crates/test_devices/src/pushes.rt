// Files that are pushed, with digests of `sha1sum`.
ghost use Rattle.std.specs.Prelude.{None};
ghost use Rattle.std.proofs.Common.{refl};

use crate::archive::{
    BACKUP, BACKUP_PATH, HISTORY, HISTORY_PATH, ID, PARTIAL, WHOLE, check_got, check_path, disk_of,
    got, known,
};
use crate::same::{same, well};
use archive_lookup::{ArchiveFault, all};
use archive_store::{ByteSource, Prefix, PushFault, Pushed, push, push_from};
use base_devices::{DeviceError, NotThere};
use base_model::ArchiveName;
use memory_devices::MemDisk;
use std::alloc::{AllocError, Global};
use std::process::Abort;

pub(crate) const SYSTEM: u64 = 6917529027641081857;

fn word_of(pushed: Pushed) -> &'static str {
    match pushed {
        Pushed::New => "new",
        Pushed::Same => "same",
    }
}

// The result of a push.
fn check_push(
    rt: &impl Abort,
    alloc: Global,
    disk: &mut MemDisk,
    name: &ArchiveName,
    bytes: &[u8],
    want: &str,
) {
    match push(alloc, disk, "main", &ID, name, SYSTEM, bytes) {
        Ok(pushed) => same(rt, word_of(pushed), want),
        Err(fault) => same(rt, well(rt, known(alloc, fault)).as_str(), want),
    }
}

const OTHER_HISTORY: &str =
    "other aaf4c61ddcc5e8a2dabede0f3b482cd9aea9434d d0941e68da8f38151ff86a61fc59f7c5cf9fcaa2";

fn check_plain(rt: &impl Abort, alloc: Global, disk: &mut MemDisk, name: &ArchiveName, path: &str) {
    check_push(rt, alloc, disk, name, b"hello", "new");
    check_push(rt, alloc, disk, name, b"hello", "same");
    check_push(rt, alloc, disk, name, b"other", OTHER_HISTORY);
    check_got(rt, alloc, disk, name, "hello");
    check_path(rt, alloc, disk, name, Some(path));
}

#[test]
fn pushes_files_without_header(rt: HostRuntime) {
    let alloc = rt.alloc();
    let mut disk = well(&rt, disk_of(alloc, &[]));
    check_plain(&rt, alloc, &mut disk, &HISTORY, HISTORY_PATH);
    check_plain(&rt, alloc, &mut disk, &BACKUP, BACKUP_PATH);
}

// A segment of 1 MiB with this last byte.
fn segment(alloc: Global, last: u8) -> Result<Vec<u8>, AllocError> {
    let mut bytes = Vec::new(alloc);
    bytes.extend_from_slice(&[0, 0, 2, 0])?;
    bytes.resize(24, 0)?;
    bytes.extend_from_slice(SYSTEM.to_le_bytes().as_slice())?;
    bytes.extend_from_slice(1048576u32.to_le_bytes().as_slice())?;
    bytes.resize(1048575, 0)?;
    bytes.push(last)?;
    Ok(bytes)
}

const OTHER_SEGMENT: &str =
    "other 1a7f5db0f00c15ad5503b06bf668b762e6b2c8cc 93e6a3078037c4c59469a48d83d7015f2debc782";

const SEGMENT_PATH: &str =
    "archive/main/16-1/0000000100000000/000000010000000000000003-1a7f5db0f00c15ad5503b06bf668b762e6b2c8cc";

const PARTIAL_PATH: &str =
    "archive/main/16-1/0000000100000000/000000010000000000000003.partial-1a7f5db0f00c15ad5503b06bf668b762e6b2c8cc";

fn check_segment(
    rt: &impl Abort,
    alloc: Global,
    disk: &mut MemDisk,
    name: &ArchiveName,
    path: &str,
) {
    let first = well(rt, segment(alloc, 1));
    let second = well(rt, segment(alloc, 2));
    check_push(rt, alloc, disk, name, &first, "new");
    check_push(rt, alloc, disk, name, &first, "same");
    check_push(rt, alloc, disk, name, &second, OTHER_SEGMENT);
    check_push(rt, alloc, disk, name, b"abc", "form 0");
    check_path(rt, alloc, disk, name, Some(path));
}

#[test]
fn pushes_segments(rt: HostRuntime) {
    let alloc = rt.alloc();
    let mut disk = well(&rt, disk_of(alloc, &[]));
    check_segment(&rt, alloc, &mut disk, &WHOLE, SEGMENT_PATH);
    check_segment(&rt, alloc, &mut disk, &PARTIAL, PARTIAL_PATH);
    let files = well(&rt, all(alloc, &mut disk, "main"));
    same(&rt, files.len(), 2);
    for file in &files {
        same(&rt, file.size, 1048576);
    }
}

#[test]
fn looks_at_the_header_first(rt: HostRuntime) {
    let mut disk = NotThere::new();
    let answer = push(rt.alloc(), &mut disk, "main", &ID, &WHOLE, 7, b"");
    assert!(rt; matches!(answer, Err(ArchiveFault::HeaderForm { info: 0 })));
}

// Bytes that are unknown. The source is the count of failures.
#[derive(Drop)]
struct Unknown {
    bytes: &'static [u8],
    fails: bool,
}

impl ByteSource<u64> for Unknown {
    ghost bytes = { λ _ _. None };

    ghost faults = { λ n. n };

    ghost same = { λ _ _. Unit {0} };

    fn read(&self, holder: &mut u64, at: u64, buf: &mut [u8]) -> Result<usize, DeviceError> {
        if self.fails {
            *holder = holder.saturating_add(1);
            return Err(DeviceError::Failed);
        }
        let Some(rest) = self.bytes.get(at as usize..) else {
            return Ok(0);
        };
        let count = rest.len().min(buf.len());
        buf[..count].copy_from_slice(&rest[..count]);
        Ok(count)
    }

    ghost same_self = { λ h. tt };

    ghost same_then = { λ g h k p q. tt };

    ghost bytes_stay = { λ it g h p. refl };
}

const FORTY: &[u8] = b"0123456789012345678901234567890123456789";

const MORE: &[u8] = b"0123456789012345678901234567890123456789 and more";

// The result of a push of a history file after its first 40 bytes, whose source fails or not. This many more are
// given.
fn check_push_from(
    rt: &impl Abort,
    alloc: Global,
    disk: &mut MemDisk,
    fails: bool,
    more: u8,
    want: &str,
) {
    let source = Unknown { bytes: MORE, fails };
    let prefix = Prefix {
        bytes: FORTY,
        length: FORTY.len() as u64 + u64::from(more),
    };
    let mut holder = 0u64;
    let answer = push_from(
        alloc,
        disk,
        &mut holder,
        "main",
        &ID,
        &HISTORY,
        SYSTEM,
        &source,
        prefix,
    );
    match answer {
        Ok((pushed, _)) => same(rt, word_of(pushed), want),
        Err(PushFault::Source) => same(rt, "source", want),
        Err(PushFault::Archive(ArchiveFault::NoMemory)) => same(rt, "memory", want),
        Err(PushFault::Archive(fault)) => same(rt, well(rt, known(alloc, fault)).as_str(), want),
    }
}

#[test]
fn pushes_from_a_source(rt: HostRuntime) {
    let alloc = rt.alloc();
    let mut disk = well(&rt, disk_of(alloc, &[]));
    check_push_from(&rt, alloc, &mut disk, true, 9, "source");
    check_push_from(&rt, alloc, &mut disk, false, 8, "memory");
    check_push_from(&rt, alloc, &mut disk, false, 10, "memory");
    check_push_from(&rt, alloc, &mut disk, false, 9, "new");
    check_push_from(&rt, alloc, &mut disk, true, 9, "source");
    check_push_from(&rt, alloc, &mut disk, false, 8, "memory");
    check_push_from(&rt, alloc, &mut disk, false, 9, "same");
    let stored = well(&rt, got(alloc, &mut disk, &HISTORY));
    same(&rt, stored.as_bytes(), MORE);
}
