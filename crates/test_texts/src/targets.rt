//! Targets of recovery: moments by GNU `date`, and the bounds of PostgreSQL's other targets.

use crate::same::same_of;
use restore_target::{is_restore_point, is_transaction, read_moment};

const MOMENTS: &[(&str, u64)] = &[
    ("2024-01-02 03:05:05+00", 1704164705),
    ("2024-01-02 04:05:05.5+01", 1704164705),
    ("2026-11-30 12:00:00+00:00", 1796040000),
    ("2024-02-29 23:59:59-15:59", 1709308739),
    ("1970-01-01 00:00:00+00", 0),
    ("1970-01-01 01:00:00+01", 0),
    ("1970-01-01 00:30:00-01", 5400),
    ("9999-12-31 23:59:59+00", 253402300799),
    ("9999-12-31 23:59:59-15:59", 253402358339),
    ("2000-02-29 00:00:00.123456+05:30", 951762600),
    ("2024-01-02 03:05:05.000000-03:30", 1704177305),
    ("2038-01-19 03:14:08+15:59", 2147426108),
    ("2100-03-01 00:00:00-00", 4107542400),
];

#[test]
fn reads_moments(rt: HostRuntime) {
    for &(text, second) in MOMENTS {
        same_of(&rt, text, read_moment(text), Some(second));
    }
}

const NO_MOMENTS: &[&str] = &[
    "",
    "2024-01-02",
    "2024-01-02 03:05:05",
    "2024-01-02 03:05:05Z",
    "2024-01-02 03:05:05 +00",
    "2024-01-02 03:05:05+00 ",
    "2024-01-02T03:05:05+00",
    "2024-01-02 03:05+00",
    "2024-04-31 03:05:05+00",
    "2024-02-30 03:05:05+00",
    "2023-02-29 03:05:05+00",
    "2100-02-29 03:05:05+00",
    "2024-00-02 03:05:05+00",
    "2024-13-02 03:05:05+00",
    "2024-01-00 03:05:05+00",
    "10000-01-01 00:00:00+00",
    "2024-01-02 24:00:00+00",
    "2024-01-02 03:60:05+00",
    "2024-01-02 03:05:60+00",
    "2024-01-02 03:05:05+16",
    "2024-01-02 03:05:05-16:00",
    "2024-01-02 03:05:05+15:60",
    "2024-01-02 03:05:05+1",
    "2024-01-02 03:05:05+0100",
    "2024-01-02 03:05:05+01:0",
    "2024-01-02 03:05:05+01:00:00",
    "2024-01-02 03:05:05+0a",
    "2024-01-02 03:05:05++1",
    "2024-01-02 03:05:05.+00",
    "2024-01-02 03:05:05.1234567+00",
    "2024-01-02 03:05:05.12a+00",
    "2024-01-02 03:05:05,5+00",
    "1970-01-01 00:30:00+01",
    "1969-12-31 23:30:00-01",
];

#[test]
fn reads_no_moments(rt: HostRuntime) {
    for &text in NO_MOMENTS {
        same_of(&rt, text, read_moment(text), None);
    }
}

const TRANSACTIONS: &[(&str, bool)] = &[
    ("0", true),
    ("745", true),
    ("4294967295", true),
    ("4294967296", false),
    ("18446744073709551616", false),
    ("010", false),
    ("00", false),
    ("+7", false),
    ("-7", false),
    ("7 ", false),
    ("7a", false),
    ("0x7", false),
    ("", false),
];

#[test]
fn transactions(rt: HostRuntime) {
    for &(text, is) in TRANSACTIONS {
        same_of(&rt, text, is_transaction(text), is);
    }
}

// Names of 63 and of 64 bytes, in two spellings.
const RESTORE_POINTS: &[(&str, bool)] = &[
    ("before upgrade", true),
    ("o'clock", true),
    ("a\\b", true),
    ("~", true),
    (
        "aaaaaaaaaaaaaaaaaaaaaaaaaaaaaaaaaaaaaaaaaaaaaaaaaaaaaaaaaaaaaaa",
        true,
    ),
    (
        "aaaaaaaaaaaaaaaaaaaaaaaaaaaaaaaaaaaaaaaaaaaaaaaaaaaaaaaaaaaaaaaa",
        false,
    ),
    ("aééééééééééééééééééééééééééééééé", true),
    ("éééééééééééééééééééééééééééééééé", false),
    ("", false),
    ("a\nb", false),
    ("a\tb", false),
    ("a\u{1f}", false),
    ("\u{7f}", false),
    ("a\0", false),
];

#[test]
fn restore_points(rt: HostRuntime) {
    for &(text, is) in RESTORE_POINTS {
        same_of(&rt, text, is_restore_point(text), is);
    }
}
