//! Histories of timelines: as PostgreSQL writes them, as a person changes them, and texts that are none.

use crate::same::same_of;
use repo_names::Lsn;
use restore_target::{Ancestor, HistoryFault, read_history};
use std::alloc::Global;
use std::process::Abort;

const FIRST: Ancestor = Ancestor {
    timeline: 1,
    until: Lsn(0x300000),
};

const SECOND: Ancestor = Ancestor {
    timeline: 2,
    until: Lsn(0xA00000028),
};

const LAST: Ancestor = Ancestor {
    timeline: 4294967294,
    until: Lsn(0xFFFFFFFFFFFFFFFF),
};

const NUMBERED_ZERO: Ancestor = Ancestor {
    timeline: 0,
    until: Lsn(1),
};

// The ancestors of a timeline. None of these texts has more than a thousand bytes.
fn history_of(alloc: Global, timeline: u32, text: &str) -> Result<Vec<Ancestor>, HistoryFault> {
    if text.len() > 1000 {
        return Err(HistoryFault::NoMemory);
    }
    read_history(alloc, timeline, text.as_bytes())
}

// Timelines, each with its history and its ancestors. (PostgreSQL puts an empty line before each line but the first.)
const HISTORIES: &[(u32, &str, &[Ancestor])] = &[
    (2, "1\t0/300000\tno recovery target specified\n", &[FIRST]),
    (
        3,
        "1\t0/300000\tbefore 2024-01-02 03:05:05+00\n\n2\tA/28\tat restore point \"a\"\n",
        &[FIRST, SECOND],
    ),
    (7, "1\t0/300000\tx\n2\tA/28\tx\n", &[FIRST, SECOND]),
    (2, "1\t0/300000\tx", &[FIRST]),
    (2, "1\t0/300000\t", &[FIRST]),
    (2, "1\t0/300000\t\t2\tx\n", &[FIRST]),
    (2, "1\t0/300000\tx\r\n", &[FIRST]),
    (2, "1\t00000000/00300000\tx\n", &[FIRST]),
    (3, "2\ta/28\tx\n", &[SECOND]),
    (2, "# by hand\n1\t0/300000\tx\n#\n", &[FIRST]),
    (2, "\n\n1\t0/300000\tx\n\n\n", &[FIRST]),
    (4294967295, "4294967294\tFFFFFFFF/ffffffff\tx\n", &[LAST]),
    (1, "0\t0/1\tx\n", &[NUMBERED_ZERO]),
    (2, "#1\t0/300000\tx\n", &[]),
    (2, "\n", &[]),
    (2, "", &[]),
];

#[test]
fn reads_histories(rt: HostRuntime) {
    for &(timeline, text, ancestors) in HISTORIES {
        match history_of(rt.alloc(), timeline, text) {
            Ok(found) => same_of(&rt, text, found.as_slice(), ancestors),
            Err(fault) => panic!(rt; "of {text:?}: {fault:?}"),
        }
    }
}

// Timelines, each with a text and its first wrong line.
const NO_HISTORIES: &[(u32, &str, u32)] = &[
    // the timeline's own number, and a later one
    (2, "2\t0/300000\tx\n", 1),
    (2, "3\t0/300000\tx\n", 1),
    (3, "1\t0/300000\tx\n3\t0/400000\tx\n", 2),
    (1, "1\t0/300000\tx\n", 1),
    // a later one before an earlier one, and one twice
    (3, "2\t0/300000\tx\n1\t0/200000\tx\n", 2),
    (3, "1\t0/300000\tx\n1\t0/400000\tx\n", 2),
    (1, "0\t0/1\tx\n0\t0/2\tx\n", 2),
    // lines that are passed over count
    (3, "# by hand\n\n1\t0/300000\tx\n\n1\n", 5),
    (3, "x\n1\t0/300000\tx\nx\n", 1),
    // other spellings of the number
    (2, "01\t0/300000\tx\n", 1),
    (2, "0x1\t0/300000\tx\n", 1),
    (2, "+1\t0/300000\tx\n", 1),
    (2, "\t0/300000\tx\n", 1),
    (4294967295, "4294967296\t0/300000\tx\n", 1),
    (4294967295, "18446744073709551617\t0/300000\tx\n", 1),
    // other spellings of the position
    (2, "1\t300000\tx\n", 1),
    (2, "1\t/300000\tx\n", 1),
    (2, "1\t0/\tx\n", 1),
    (2, "1\t0/000300000\tx\n", 1),
    (2, "1\t0/g\tx\n", 1),
    (2, "1\t\t0/300000\tx\n", 1),
    // no tabs, or one
    (2, "1\t0/300000\n", 1),
    (2, "1\t0/300000\r\n", 1),
    (2, "1 0/300000 x\n", 1),
    (2, "1\t0/300000 \tx\n", 1),
    // blanks in front, and a line of a carriage return
    (2, " 1\t0/300000\tx\n", 1),
    (2, "1\t0/300000\tx\r\n\r\n", 2),
    (2, "1\t0/300000\tx\n # by hand\n", 2),
];

#[test]
fn reads_no_histories(rt: HostRuntime) {
    for &(timeline, text, line) in NO_HISTORIES {
        let fault = history_of(rt.alloc(), timeline, text).err();
        same_of(&rt, text, fault, Some(HistoryFault::Form { line }));
    }
}
