//! Names and positions as PostgreSQL 16 writes them, and one segment's header by hand.

use crate::same::{same, same_of};
use repo_names::{
    ArchiveName, HeaderFault, Lsn, SegSize, Segment, archive_name_text, check_header, compare,
    next, read_archive_name, read_lsn, read_seg_size, read_segment, segment_folder, segment_text,
};
use std::alloc::{AllocError, Global};
use std::cmp::Ordering;
use std::process::Abort;
use std::test::Fail;

const THIRD: Segment = Segment {
    timeline: 1,
    log: 0,
    seg: 3,
};

const OTHER: Segment = Segment {
    timeline: 10,
    log: 0xABCDEF,
    seg: 255,
};

const SYSTEM: u64 = 6917529027641081857;

// Segments, each with its name and its folder.
const SEGMENTS: &[(Segment, &str, &str)] = &[
    (THIRD, "000000010000000000000003", "0000000100000000"),
    (OTHER, "0000000A00ABCDEF000000FF", "0000000A00ABCDEF"),
];

#[test]
fn segments(rt: HostRuntime) -> Result<(), Fail> {
    for (segment, name, folder) in SEGMENTS {
        same(&rt, read_segment(name.as_bytes()), Some(*segment));
        same(&rt, segment_text(rt.alloc(), segment)?.as_str(), *name);
        same(&rt, segment_folder(rt.alloc(), segment)?.as_str(), *folder);
    }
    Ok(())
}

const NO_SEGMENTS: &[&str] = &[
    "",
    "00000001000000000000000",
    "0000000100000000000000030",
    "00000001000000000000000a",
    "00000001000000000000000G",
    "00000001000000000000000:",
    "00000001000000000000000@",
    "00000001000000000000000/",
    "+00000010000000000000003",
];

#[test]
fn no_segments(rt: HostRuntime) {
    for text in NO_SEGMENTS {
        same_of(&rt, text, read_segment(text.as_bytes()), None);
    }
}

const ARCHIVE_NAMES: &[(ArchiveName, &str)] = &[
    (ArchiveName::Segment(THIRD), "000000010000000000000003"),
    (
        ArchiveName::Partial(THIRD),
        "000000010000000000000003.partial",
    ),
    (ArchiveName::History(18), "00000012.history"),
    (
        ArchiveName::Backup(THIRD, 40),
        "000000010000000000000003.00000028.backup",
    ),
];

#[test]
fn archive_names(rt: HostRuntime) -> Result<(), Fail> {
    for (name, text) in ARCHIVE_NAMES {
        same(&rt, read_archive_name(text.as_bytes()), Some(*name));
        same(&rt, archive_name_text(rt.alloc(), name)?.as_str(), *text);
    }
    Ok(())
}

const NO_ARCHIVE_NAMES: &[&str] = &[
    "",
    "00000012",
    "0000012.history",
    "0000001a.history",
    "00000012.history.ready",
    "000000010000000000000003.",
    "000000010000000000000003.PARTIAL",
    "000000010000000000000003.partial2",
    "000000010000000000000003.00000028",
    "000000010000000000000003.0000028.backup",
    "000000010000000000000003.0000002b.backup",
    "000000010000000000000003.history",
    "000000010000000000000003.00000028.backup.ready",
];

#[test]
fn no_archive_names(rt: HostRuntime) {
    for text in NO_ARCHIVE_NAMES {
        same_of(&rt, text, read_archive_name(text.as_bytes()), None);
    }
}

const SIZES: &[(u64, Option<SegSize>)] = &[
    (1048576, Some(SegSize(1048576))),
    (16777216, Some(SegSize(16777216))),
    (1073741824, Some(SegSize(1073741824))),
    (0, None),
    (524288, None),
    (1048577, None),
    (3145728, None),
    (2147483648, None),
    (4296015872, None),
];

#[test]
fn sizes(rt: HostRuntime) {
    for &(bytes, size) in SIZES {
        same(&rt, read_seg_size(bytes), size);
    }
}

// A segment, the size of each, and the segment that follows.
const FOLLOWERS: &[(&str, u64, &str)] = &[
    (
        "000000010000000000000003",
        16777216,
        "000000010000000000000004",
    ),
    (
        "0000000100000001000000FF",
        16777216,
        "000000010000000200000000",
    ),
    (
        "000000010000000000000003",
        1073741824,
        "000000010000000100000000",
    ),
    (
        "000000030000000000000FFF",
        1048576,
        "000000030000000100000000",
    ),
    (
        "00000001FFFFFFFF000000FE",
        16777216,
        "00000001FFFFFFFF000000FF",
    ),
    ("00000001FFFFFFFF000000FF", 16777216, ""),
    ("FFFFFFFFFFFFFFFF00000003", 1073741824, ""),
];

fn segment_of(rt: &impl Abort, name: &str) -> Segment {
    read_segment(name.as_bytes()).expect(rt, "a name")
}

#[test]
fn next_segments(rt: HostRuntime) {
    for &(name, bytes, follower) in FOLLOWERS {
        let segment = segment_of(&rt, name);
        let size = read_seg_size(bytes).expect(&rt, "a size");
        assert!(rt; u64::from(segment.seg) < (1 << 32) / u64::from(size.0));
        let want = read_segment(follower.as_bytes());
        same_of(&rt, name, next(&segment, size), want);
    }
}

const ORDERS: &[(&str, &str, Ordering)] = &[
    (
        "000000010000000000000003",
        "000000010000000000000003",
        Ordering::Equal,
    ),
    (
        "00000001FFFFFFFF000000FF",
        "000000020000000000000000",
        Ordering::Less,
    ),
    (
        "0000000100000001000000FF",
        "000000010000000200000000",
        Ordering::Less,
    ),
    (
        "000000010000000A00000000",
        "000000010000000900000000",
        Ordering::Greater,
    ),
    (
        "000000010000000000000010",
        "00000001000000000000000F",
        Ordering::Greater,
    ),
];

#[test]
fn orders(rt: HostRuntime) {
    for &(left, right, order) in ORDERS {
        let found = compare(&segment_of(&rt, left), &segment_of(&rt, right));
        same_of(&rt, left, found, order);
    }
}

const POSITIONS: &[(&str, Option<u64>)] = &[
    ("0/0", Some(0)),
    ("1/6000028", Some(4395630632)),
    ("01/06000028", Some(4395630632)),
    ("16/B374D848", Some(97500059720)),
    ("16/b374d848", Some(97500059720)),
    ("FFFFFFFF/FFFFFFFF", Some(18446744073709551615)),
    ("", None),
    ("1", None),
    ("/0", None),
    ("0/", None),
    ("0/0/0", None),
    ("100000000/0", None),
    ("0/000000000", None),
    ("+1/0", None),
    ("1/-1", None),
    ("1/ 0", None),
    ("G/0", None),
];

#[test]
fn positions(rt: HostRuntime) {
    for &(text, at) in POSITIONS {
        let found = read_lsn(text.as_bytes());
        same_of(&rt, text, found, at.map(|at| Lsn(at)));
    }
}

// One mebibyte whose page states the long header, this system and this size.
fn segment_bytes(alloc: Global) -> Result<Vec<u8>, AllocError> {
    let mut bytes = vec![in alloc; 0; 1048576]?;
    bytes[2] = 2;
    bytes[24] = 1;
    bytes[31] = 0x60;
    bytes[34] = 0x10;
    Ok(bytes)
}

// How many of the bytes are taken, the system that is asked for, and the fault.
const FAULTS: &[(usize, u64, HeaderFault)] = &[
    (3, SYSTEM, HeaderFault::Form { length: 3, info: 0 }),
    (
        39,
        SYSTEM,
        HeaderFault::Form {
            length: 39,
            info: 2,
        },
    ),
    (
        40,
        SYSTEM,
        HeaderFault::Size {
            known: 1048576,
            found: 40,
        },
    ),
    (
        1048575,
        5,
        HeaderFault::Size {
            known: 1048576,
            found: 1048575,
        },
    ),
    (
        1048576,
        5,
        HeaderFault::System {
            kept: 5,
            found: SYSTEM,
        },
    ),
];

#[test]
fn headers(rt: HostRuntime) -> Result<(), Fail> {
    let owned = segment_bytes(rt.alloc())?;
    let bytes = owned.as_slice();
    same(&rt, check_header(bytes, SYSTEM), Ok(SegSize(1048576)));
    let blank = HeaderFault::Form {
        length: 64,
        info: 0,
    };
    same(&rt, check_header(&[0; 64], SYSTEM), Err(blank));
    for &(length, system, fault) in FAULTS {
        let part = bytes.get(..length).ok_or("fewer bytes")?;
        same(&rt, check_header(part, system), Err(fault));
    }
    Ok(())
}
