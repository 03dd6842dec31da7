// Which files of the archive the backups that are left need.
use crate::listed::{Listed, entries_of, segment};
use crate::same::{same, well};
use base_model::{ArchiveId, ArchiveName, BackupKind};
use expire_rules::{FullRule, KeptFiles, Rules, keeps, spans};
use std::alloc::{AllocError, Global};
use std::process::Abort;

const FULL_A: &str = "20240101-000000F";

const DIFF_A: &str = "20240101-000000F_20240102-000000D";

const INCR_A: &str = "20240101-000000F_20240103-000000I";

const FULL_B: &str = "20240104-000000F";

/// Two full backups, of segments 2 and 5.
const TWO: &[Listed] = &[
    (FULL_A, None, 1, Some((2, 2)), 1),
    (FULL_B, None, 1, Some((5, 5)), 4),
];

/// The second of them.
const SECOND: &[Listed] = &[(FULL_B, None, 1, Some((5, 5)), 4)];

/// A full backup, a differential and an incremental.
const KINDS: &[Listed] = &[
    (FULL_A, None, 1, Some((1, 1)), 1),
    (DIFF_A, Some(FULL_A), 1, Some((3, 3)), 2),
    (INCR_A, Some(DIFF_A), 1, Some((5, 5)), 3),
];

/// A backup of the next cluster.
const NEXT: &[Listed] = &[(FULL_B, None, 2, Some((5, 5)), 4)];

/// A backup of a stopped server.
const OFFLINE: &[Listed] = &[(FULL_B, None, 1, None, 4)];

/// The backups, whether cluster 1 is the current one, the rules on full backups, on the archive and its kind, and
/// which of segments 1 to 6 are kept.
type Row = (
    &'static [Listed],
    bool,
    FullRule,
    Option<u32>,
    BackupKind,
    &'static str,
);

const ROWS: &[Row] = &[
    (
        SECOND,
        true,
        FullRule::Count(1),
        None,
        BackupKind::Full,
        "----56",
    ),
    (
        TWO,
        true,
        FullRule::Count(2),
        Some(1),
        BackupKind::Full,
        "-2--56",
    ),
    (
        TWO,
        true,
        FullRule::Count(2),
        None,
        BackupKind::Full,
        "-23456",
    ),
    (
        TWO,
        true,
        FullRule::Count(3),
        None,
        BackupKind::Full,
        "123456",
    ),
    (TWO, true, FullRule::Unset, None, BackupKind::Full, "123456"),
    (
        TWO,
        true,
        FullRule::Days(7),
        None,
        BackupKind::Full,
        "-23456",
    ),
    (
        TWO,
        true,
        FullRule::Count(2),
        None,
        BackupKind::Diff,
        "123456",
    ),
    (
        KINDS,
        true,
        FullRule::Unset,
        Some(1),
        BackupKind::Full,
        "123456",
    ),
    (
        KINDS,
        true,
        FullRule::Unset,
        Some(1),
        BackupKind::Diff,
        "1-3456",
    ),
    (
        KINDS,
        true,
        FullRule::Unset,
        Some(1),
        BackupKind::Incr,
        "1-3-56",
    ),
    (
        KINDS,
        true,
        FullRule::Unset,
        Some(2),
        BackupKind::Incr,
        "1-3456",
    ),
    (
        OFFLINE,
        true,
        FullRule::Count(1),
        None,
        BackupKind::Full,
        "123456",
    ),
    (
        &[],
        true,
        FullRule::Days(7),
        None,
        BackupKind::Full,
        "123456",
    ),
    (
        NEXT,
        false,
        FullRule::Count(1),
        None,
        BackupKind::Full,
        "------",
    ),
    (
        NEXT,
        false,
        FullRule::Unset,
        None,
        BackupKind::Full,
        "123456",
    ),
    (
        TWO,
        false,
        FullRule::Count(3),
        None,
        BackupKind::Full,
        "-23456",
    ),
];

// The digits of the segments that are kept.
fn kept_of(alloc: Global, kept: &KeptFiles) -> Result<String, AllocError> {
    let mut text = String::new(alloc);
    for number in 1u32..=6 {
        if keeps(&ArchiveName::Segment(segment(number)), kept) {
            write!(text, "{number}")?;
        } else {
            text.push('-')?;
        }
    }
    Ok(text)
}

fn check_row(rt: &impl Abort, alloc: Global, row: &Row) {
    let (backups, current, full, archive, archive_kind, want) = *row;
    let entries = well(rt, entries_of(rt, alloc, backups));
    let rules = Rules {
        full,
        diff: None,
        archive,
        archive_kind,
    };
    let id = ArchiveId {
        version: 16,
        number: 1,
    };
    let kept = well(rt, spans(alloc, &entries, &id, current, &rules));
    same(rt, kept.id, id);
    same(rt, well(rt, kept_of(alloc, &kept)).as_str(), want);
    same(rt, keeps(&ArchiveName::History(2), &kept), true);
    for number in 1u32..=6 {
        let is_kept = keeps(&ArchiveName::Segment(segment(number)), &kept);
        same(
            rt,
            keeps(&ArchiveName::Partial(segment(number)), &kept),
            is_kept,
        );
        same(
            rt,
            keeps(&ArchiveName::Backup(segment(number), 40), &kept),
            is_kept,
        );
    }
}

#[test]
fn files_stay_by_the_rules(rt: HostRuntime) {
    for row in ROWS {
        check_row(&rt, rt.alloc(), row);
    }
}
