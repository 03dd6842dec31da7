// Files of the archive by hand, as pgBackRest lays them out, with digests of `sha1sum`.
use crate::same::{same, well};
use archive_lookup::{ArchiveFault, Stored, all};
use archive_store::{get, present};
use base_model::{ArchiveId, ArchiveName, Segment};
use base_text::{NoMemory, Sum};
use memory_devices::{MemDisk, named_bytes};
use std::alloc::{AllocError, Global};
use std::process::Abort;

pub(crate) const ID: ArchiveId = ArchiveId {
    version: 16,
    number: 1,
};

const THIRD: Segment = Segment {
    timeline: 1,
    log: 0,
    seg: 3,
};

pub(crate) const WHOLE: ArchiveName = ArchiveName::Segment(THIRD);

pub(crate) const PARTIAL: ArchiveName = ArchiveName::Partial(THIRD);

pub(crate) const HISTORY: ArchiveName = ArchiveName::History(2);

pub(crate) const BACKUP: ArchiveName = ArchiveName::Backup(THIRD, 40);

const ABC: &str =
    "archive/main/16-1/0000000100000000/000000010000000000000003-a9993e364706816aba3e25717850c26c9cd0d89d";

const ABD: &str =
    "archive/main/16-1/0000000100000000/000000010000000000000003-cb4cc28df0fdbe0ecf9d9662e294b118092a5735";

const PARTIAL_ABC: &str =
    "archive/main/16-1/0000000100000000/000000010000000000000003.partial-a9993e364706816aba3e25717850c26c9cd0d89d";

pub(crate) const HISTORY_PATH: &str = "archive/main/16-1/00000002.history";

pub(crate) const BACKUP_PATH: &str =
    "archive/main/16-1/0000000100000000/000000010000000000000003.00000028.backup";

pub(crate) fn disk_of(alloc: Global, held: &[(&str, &[u8])]) -> Result<MemDisk, AllocError> {
    MemDisk::new(alloc, named_bytes(alloc, held)?, Vec::new(alloc))
}

// Two digests after a word.
fn sums(alloc: Global, word: &str, first: &Sum, second: &Sum) -> Result<String, NoMemory> {
    let first = first.hex(alloc)?;
    let second = second.hex(alloc)?;
    Ok(format!(in alloc; "{word} {first} {second}")?)
}

// A fault as a text, where it is one that a test wants.
pub(crate) fn known(alloc: Global, fault: ArchiveFault) -> Result<String, NoMemory> {
    match fault {
        ArchiveFault::HeaderForm { info } => Ok(format!(in alloc; "form {info}")?),
        ArchiveFault::Ambiguous { first, second } => {
            Ok(format!(in alloc; "two {first} {second}")?)
        }
        ArchiveFault::Duplicate { kept, found } => sums(alloc, "other", &kept, &found),
        ArchiveFault::NotFound => Ok(String::from_str(alloc, "none")?),
        ArchiveFault::SegmentDamaged { known, found } => sums(alloc, "damaged", &known, &found),
        _ => Ok(String::from_str(alloc, "another fault")?),
    }
}

pub(crate) fn got(
    alloc: Global,
    disk: &mut MemDisk,
    name: &ArchiveName,
) -> Result<String, NoMemory> {
    match get(alloc, disk, "main", &ID, name) {
        Ok(bytes) => Ok(String::from_utf8_lossy(alloc, &bytes)?),
        Err(fault) => known(alloc, fault),
    }
}

pub(crate) fn check_got(
    rt: &impl Abort,
    alloc: Global,
    disk: &mut MemDisk,
    name: &ArchiveName,
    want: &str,
) {
    same(rt, well(rt, got(alloc, disk, name)).as_str(), want);
}

// Where the file is stored, if it is.
pub(crate) fn check_path(
    rt: &impl Abort,
    alloc: Global,
    disk: &mut MemDisk,
    name: &ArchiveName,
    path: Option<&str>,
) {
    let found = well(rt, present(alloc, disk, "main", &ID, name));
    same(rt, found.as_ref().map(|file| file.path.as_str()), path);
}

fn check_stored(rt: &impl Abort, file: &Stored, name: ArchiveName, path: &str, size: u64) {
    same(rt, file.id, ID);
    same(rt, file.name, name);
    same(rt, file.path.as_str(), path);
    same(rt, file.size, size);
}

// A file with this name and the bytes `abc` is stored at this path, with their sum in it or not.
fn check_place(rt: &impl Abort, alloc: Global, name: ArchiveName, path: &str, sum: Option<Sum>) {
    let mut disk = well(rt, disk_of(alloc, &[(path, b"abc")]));
    check_path(rt, alloc, &mut disk, &name, Some(path));
    check_got(rt, alloc, &mut disk, &name, "abc");
    let files = well(rt, all(alloc, &mut disk, "main"));
    same(rt, files.len(), 1);
    for file in &files {
        check_stored(rt, file, name, path, 3);
        same(rt, file.sum, sum);
    }
}

#[test]
fn places(rt: HostRuntime) {
    let alloc = rt.alloc();
    let sum = Some(Sum::of(b"abc"));
    check_place(&rt, alloc, WHOLE, ABC, sum);
    check_place(&rt, alloc, PARTIAL, PARTIAL_ABC, sum);
    check_place(&rt, alloc, HISTORY, HISTORY_PATH, None);
    check_place(&rt, alloc, BACKUP, BACKUP_PATH, None);
}

// Each of these is no path of an archive file.
const OTHERS: &[&str] = &[
    "archive/main/archive.info",
    "archive/main/archive.info.copy",
    "archive/main/16-1/.pgbackrest.tmp",
    "archive/main/16-1/00000002.history.gz",
    "archive/main/16-1/0000000100000000/00000002.history",
    "archive/main/016-1/00000002.history",
    "archive/main/16-4294967296/00000002.history",
    "archive/main/16/00000002.history",
    "archive/main/16-1/000000010000000000000003-a9993e364706816aba3e25717850c26c9cd0d89d",
    "archive/main/16-1/0000000100000001/000000010000000000000003-a9993e364706816aba3e25717850c26c9cd0d89d",
    "archive/main/16-1/0000000100000000/000000010000000000000003-A9993E364706816ABA3E25717850C26C9CD0D89D",
    "archive/main/16-1/0000000100000000/000000010000000000000003-a9993e364706816aba3e25717850c26c9cd0d89d.gz",
    "archive/main/16-1/0000000100000000/000000010000000000000003.00000028.backup-a9993e364706816aba3e25717850c26c9cd0d89d",
    "archive/main/16-1/0000000100000000/000000010000000000000003",
];

fn check_no_file(rt: &impl Abort, alloc: Global, path: &str) {
    let mut disk = well(rt, disk_of(alloc, &[(path, b"abc")]));
    let files = well(rt, all(alloc, &mut disk, "main"));
    same(rt, (path, files.len()), (path, 0));
}

#[test]
fn reads_no_other_paths(rt: HostRuntime) {
    for path in OTHERS {
        check_no_file(&rt, rt.alloc(), path);
    }
}

// What the disk holds, the file that is asked for, and the answer.
const GETS: &[(&[(&str, &[u8])], ArchiveName, &str)] = &[
    (&[], WHOLE, "none"),
    (&[(ABC, b"abc"), (PARTIAL_ABC, b"abd")], WHOLE, "abc"),
    (&[(PARTIAL_ABC, b"abc")], WHOLE, "none"),
    (&[(PARTIAL_ABC, b"abc")], PARTIAL, "abc"),
    (
        &[(ABC, b"abd")],
        WHOLE,
        "damaged a9993e364706816aba3e25717850c26c9cd0d89d cb4cc28df0fdbe0ecf9d9662e294b118092a5735",
    ),
    (
        &[(ABC, b"abc"), (ABD, b"abd")],
        WHOLE,
        "two archive/main/16-1/0000000100000000/000000010000000000000003-a9993e364706816aba3e25717850c26c9cd0d89d archive/main/16-1/0000000100000000/000000010000000000000003-cb4cc28df0fdbe0ecf9d9662e294b118092a5735",
    ),
    (&[(HISTORY_PATH, b"hello")], HISTORY, "hello"),
    (&[(ABC, b"abc")], BACKUP, "none"),
];

#[test]
fn gets(rt: HostRuntime) {
    let alloc = rt.alloc();
    for (held, name, want) in GETS {
        let mut disk = well(&rt, disk_of(alloc, held));
        check_got(&rt, alloc, &mut disk, name, want);
    }
}

const LISTED: &[(&str, &[u8])] = &[
    ("archive/main/archive.info", b"x"),
    ("archive/other/16-1/00000002.history", b"x"),
    (HISTORY_PATH, b"hello"),
    (ABC, b"abc"),
];

const WANTED: &[(ArchiveName, &str, u64, bool)] = &[
    (WHOLE, ABC, 3, true),
    (HISTORY, HISTORY_PATH, 5, false),
];

#[test]
fn lists_what_is_stored(rt: HostRuntime) {
    let alloc = rt.alloc();
    let mut disk = well(&rt, disk_of(alloc, LISTED));
    let files = well(&rt, all(alloc, &mut disk, "main"));
    same(&rt, files.len(), 2);
    for (file, (name, path, size, has_sum)) in files.iter().zip(WANTED) {
        check_stored(&rt, file, *name, path, *size);
        same(&rt, file.sum.is_some(), *has_sum);
    }
    check_path(&rt, alloc, &mut disk, &WHOLE, Some(ABC));
    check_path(&rt, alloc, &mut disk, &HISTORY, Some(HISTORY_PATH));
    check_path(&rt, alloc, &mut disk, &PARTIAL, None);
}
