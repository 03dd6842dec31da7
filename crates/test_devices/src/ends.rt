// The ends of archives by hand.
use crate::same::{same, well};
use archive_lookup::{ArchiveFault, ends};
use base_model::ArchiveId;
use memory_devices::MemDisk;
use repo_names::segment_text;
use std::alloc::{AllocError, Global};

const ID: ArchiveId = ArchiveId {
    version: 16,
    number: 1,
};

const SUM: &str = "a9993e364706816aba3e25717850c26c9cd0d89d";

// The names of these below the stanza's folder are given; those of whole segments lack the sum.
struct Row {
    whole: &'static [&'static str],
    others: &'static [&'static str],
    want: &'static str,
}

const ROWS: &[Row] = &[
    Row {
        whole: &[],
        others: &[],
        want: "",
    },
    // no whole segment under the id
    Row {
        whole: &["16-2/0000000100000000/000000010000000000000001"],
        others: &[
            "16-1/00000002.history",
            "16-1/0000000100000000/000000010000000000000001.partial-a9993e364706816aba3e25717850c26c9cd0d89d",
            "16-1/0000000100000000/000000010000000000000001.00000028.backup",
        ],
        want: "",
    },
    Row {
        whole: &["16-1/0000000100000000/000000010000000000000003"],
        others: &["16-1/00000002.history"],
        want: "000000010000000000000003 000000010000000000000003 ",
    },
    // the timeline is before the log
    Row {
        whole: &[
            "16-1/0000000200000001/000000020000000100000000",
            "16-1/000000010000000A/000000010000000A00000000",
            "16-1/0000000100000009/0000000100000009000000FE",
            "16-1/0000000100000009/0000000100000009000000FF",
        ],
        others: &[],
        want: "0000000100000009000000FE 0000000100000009000000FF 000000020000000100000000 ",
    },
    // folders without whole segments at both ends
    Row {
        whole: &["16-1/0000000200000000/000000020000000000000005"],
        others: &[
            "16-1/0000000100000000/000000010000000000000001.partial-a9993e364706816aba3e25717850c26c9cd0d89d",
            "16-1/0000000300000000/000000030000000000000009.00000028.backup",
        ],
        want: "000000020000000000000005 000000020000000000000005 ",
    },
    // foreign names
    Row {
        whole: &[
            "16-1/000000010000000a/000000010000000A00000001",
            "16-1/0000000100000001/000000010000000200000001",
            "16-1/0000000100000002/000000010000000200000001",
            "16-1/0000000100000003/x/000000010000000300000001",
        ],
        others: &[
            "16-1/.pgbackrest.tmp",
            "16-1/0000000000000000/foreign",
            "16-1/zzzzzzzzzzzzzzzz/foreign",
        ],
        want: "000000010000000200000001 000000010000000200000001 ",
    },
];

fn disk_of(alloc: Global, whole: &[&str], others: &[&str]) -> Result<MemDisk, AllocError> {
    let mut names = Vec::new(alloc);
    for path in whole {
        let name = format!(in alloc; "archive/main/{path}-{SUM}")?;
        names.push((name, Vec::new(alloc)))?;
    }
    for path in others {
        let name = format!(in alloc; "archive/main/{path}")?;
        names.push((name, Vec::new(alloc)))?;
    }
    MemDisk::new(alloc, names, Vec::new(alloc))
}

fn known(alloc: Global, row: &Row) -> Result<String, ArchiveFault> {
    let mut disk = disk_of(alloc, row.whole, row.others)?;
    let mut text = String::new(alloc);
    for segment in &ends(alloc, &mut disk, "main", &ID)? {
        text.push_str(segment_text(alloc, segment)?.as_str())?;
        text.push(' ')?;
    }
    Ok(text)
}

#[test]
fn bounds_what_is_stored(rt: HostRuntime) {
    for row in ROWS {
        same(&rt, well(&rt, known(rt.alloc(), row)).as_str(), row.want);
    }
}
