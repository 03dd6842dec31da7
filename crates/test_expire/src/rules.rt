// Which backups the rules expire (pgBackRest user guide, "Retention").
use crate::listed::{Listed, entries_of, label_of, labels_of};
use crate::same::{same, well};
use base_model::BackupKind;
use expire_rules::{FullRule, Rules, expired, has_label};
use std::alloc::Global;
use std::process::Abort;

const FULL_A: &str = "20240101-000000F";

const DIFF_A: &str = "20240101-000000F_20240102-000000D";

const INCR_A: &str = "20240101-000000F_20240103-000000I";

const FULL_B: &str = "20240104-000000F";

const DIFF_B: &str = "20240104-000000F_20240105-000000D";

const DIFF_C: &str = "20240104-000000F_20240106-000000D";

const INCR_C: &str = "20240104-000000F_20240107-000000I";

const FULL_C: &str = "20240108-000000F";

/// A full backup with a differential and its incremental, and another with two differentials.
const SIX: &[Listed] = &[
    (FULL_A, None, 1, None, 1),
    (DIFF_A, Some(FULL_A), 1, None, 2),
    (INCR_A, Some(DIFF_A), 1, None, 3),
    (FULL_B, None, 1, None, 4),
    (DIFF_B, Some(FULL_B), 1, None, 5),
    (DIFF_C, Some(FULL_B), 1, None, 6),
];

/// Three full backups, a day apart.
const DAILY: &[Listed] = &[
    (FULL_A, None, 1, None, 0),
    (FULL_B, None, 1, None, 86400),
    (FULL_C, None, 1, None, 172800),
];

/// A full backup of one cluster, and one of the next.
const CLUSTERS: &[Listed] = &[(FULL_A, None, 1, None, 1), (FULL_B, None, 2, None, 4)];

/// An incremental on each of two differentials.
const CHAINS: &[Listed] = &[
    (FULL_B, None, 1, None, 4),
    (DIFF_B, Some(FULL_B), 1, None, 5),
    (DIFF_C, Some(FULL_B), 1, None, 6),
    (INCR_C, Some(DIFF_C), 1, None, 7),
];

/// The backups, the rule on full backups, that on differentials, the moment, and the labels that expire.
type Row = (
    &'static [Listed],
    FullRule,
    Option<u32>,
    u64,
    &'static [&'static str],
);

const ROWS: &[Row] = &[
    (SIX, FullRule::Unset, None, 0, &[]),
    (
        SIX,
        FullRule::Count(2),
        Some(1),
        0,
        &[DIFF_A, INCR_A, DIFF_B],
    ),
    (SIX, FullRule::Count(2), None, 0, &[]),
    (SIX, FullRule::Count(1), None, 0, &[FULL_A, DIFF_A, INCR_A]),
    (SIX, FullRule::Count(9), None, 0, &[]),
    (
        SIX,
        FullRule::Count(1),
        Some(1),
        0,
        &[FULL_A, DIFF_A, INCR_A, DIFF_B],
    ),
    (SIX, FullRule::Unset, Some(3), 0, &[DIFF_A, INCR_A]),
    (CHAINS, FullRule::Unset, Some(1), 0, &[DIFF_B]),
    (DAILY, FullRule::Days(1), None, 172800, &[FULL_A]),
    (DAILY, FullRule::Days(1), None, 172799, &[]),
    (DAILY, FullRule::Days(1), None, 259200, &[FULL_A, FULL_B]),
    (DAILY, FullRule::Days(5), None, 172800, &[]),
    (DAILY, FullRule::Days(1), None, 0, &[]),
    (DAILY, FullRule::Count(1), None, 0, &[FULL_A, FULL_B]),
    (CLUSTERS, FullRule::Count(1), None, 0, &[FULL_A]),
    (&[], FullRule::Count(1), Some(1), 0, &[]),
];

fn check_row(rt: &impl Abort, alloc: Global, row: &Row) {
    let (backups, full, diff, moment, want) = *row;
    let entries = well(rt, entries_of(rt, alloc, backups));
    let rules = Rules {
        full,
        diff,
        archive: None,
        archive_kind: BackupKind::Full,
    };
    let labels = well(rt, expired(alloc, &entries, &rules, moment));
    let wanted = well(rt, labels_of(rt, alloc, want));
    same(rt, labels.as_slice(), wanted.as_slice());
}

#[test]
fn labels_go_by_the_rules(rt: HostRuntime) {
    for row in ROWS {
        check_row(&rt, rt.alloc(), row);
    }
}

#[test]
fn a_label_is_in_a_list(rt: HostRuntime) {
    let labels = [label_of(&rt, FULL_A), label_of(&rt, DIFF_A)];
    same(&rt, has_label(&labels, &label_of(&rt, DIFF_A)), true);
    same(&rt, has_label(&labels, &label_of(&rt, DIFF_B)), false);
}
