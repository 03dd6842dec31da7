// What verification finds.
use crate::contradictions::{
    ARCHIVE_COPY, ARCHIVE_OF_ANOTHER, ARCHIVE_OF_TWO, LATER_OF_SECOND, LIST_COPY, LIST_OF_TWO,
    SEGMENT_4_OF_SECOND,
};
use crate::fixture::{
    ARCHIVE_INFO, BACKUP_INFO, BUNDLE, CONTROL, ENDS_LATER, FULL_COPY, FULL_MAIN, Held, LATER_COPY,
    LATER_MAIN, OF_ANOTHER, SEGMENT_2, SEGMENT_3, SEGMENT_3_BEFORE, SEGMENT_4, disk_with,
};
use crate::same::{same, well};
use base_devices::Disk;
use base_model::BackupInfo;
use cmd_verify::verify;
use repo_pair::load_pair;
use std::alloc::{AllocError, Global};
use std::process::Abort;

// What is reported about the stanza: a line for each finding.
fn known<D: Disk>(alloc: Global, d: &mut D) -> Result<String, AllocError> {
    let listed: BackupInfo = match load_pair(alloc, d, BACKUP_INFO) {
        Ok(listed) => listed,
        Err(fault) => return format!(in alloc; "{fault:?}"),
    };
    let found = match verify(alloc, d, "demo", &listed) {
        Ok(found) => found,
        Err(fault) => return format!(in alloc; "{fault:?}"),
    };
    let mut text = String::new(alloc);
    for finding in &found {
        text.push_str(finding.name.as_str())?;
        text.push_str(": ")?;
        text.push_str(finding.line.as_str())?;
        text.push_str("\n")?;
    }
    Ok(text)
}

/// Other bytes, lost names, and what is reported.
type Row = (&'static [Held], &'static [&'static str], &'static str);

const SOUND: Row = (&[], &[], "");

/// Each member of the pairs lost or broken.
const MEMBERS: &[Row] = &[
    (
        &[],
        &[ARCHIVE_INFO],
        "archive/demo/archive.info: member absent\n",
    ),
    (
        &[("archive/demo/archive.info.copy", "[")],
        &[],
        "archive/demo/archive.info.copy: member not valid\n",
    ),
    (
        &[(BACKUP_INFO, "")],
        &[],
        "backup/demo/backup.info: member not valid\n",
    ),
    (
        &[],
        &["backup/demo/backup.info.copy"],
        "backup/demo/backup.info.copy: member absent\n",
    ),
    (
        &[(FULL_MAIN, "x")],
        &[],
        "backup/demo/20240102-030405F/backup.manifest: member not valid\n",
    ),
    (
        &[],
        &[FULL_COPY],
        "backup/demo/20240102-030405F/backup.manifest.copy: member absent\n",
    ),
    (
        &[],
        &[FULL_MAIN, FULL_COPY],
        "backup/demo/20240102-030405F/backup.manifest: member absent\nbackup/demo/20240102-030405F/backup.manifest.copy: member absent\n",
    ),
    (
        &[(LATER_COPY, ENDS_LATER)],
        &[],
        "backup/demo/20240102-030405F_20240102-030505I/backup.manifest: members differ\n",
    ),
    (
        &[(LATER_MAIN, ENDS_LATER), (LATER_COPY, ENDS_LATER)],
        &[],
        "backup/demo/20240102-030405F_20240102-030505I/backup.manifest: unlike its entry\n",
    ),
    (
        &[(LATER_MAIN, OF_ANOTHER), (LATER_COPY, OF_ANOTHER)],
        &[],
        "backup/demo/20240101-030405F/bundle/1: absent\nbackup/demo/20240102-030405F_20240102-030505I/backup.manifest: refers to 20240101-030405F, not listed\nbackup/demo/20240102-030405F_20240102-030505I/backup.manifest: unlike its entry\n",
    ),
];

/// Files of backups and of the archive lost or broken. A bundle that both backups refer to is reported once, and each of
/// its files for itself.
const FILES: &[Row] = &[
    (
        &[],
        &[CONTROL],
        "backup/demo/20240102-030405F/pg_data/global/pg_control: absent\n",
    ),
    (
        &[(CONTROL, "hea")],
        &[],
        "backup/demo/20240102-030405F/pg_data/global/pg_control: short, 3 of 4 bytes\n",
    ),
    (
        &[(CONTROL, "tail")],
        &[],
        "backup/demo/20240102-030405F/pg_data/global/pg_control: checksum 1a954628a960aaef81d7b2d4521929579f3541e6, found fbf5f2a2875b3bb65b8e3b23e6cc01d58ca30447\n",
    ),
    (&[(CONTROL, "head and more")], &[], ""),
    (
        &[(BUNDLE, "16\nhell")],
        &[],
        "backup/demo/20240102-030405F/bundle/1: short, 4 of 5 bytes\n",
    ),
    (
        &[(BUNDLE, "16\nhellp")],
        &[],
        "backup/demo/20240102-030405F/bundle/1: checksum aaf4c61ddcc5e8a2dabede0f3b482cd9aea9434d, found d4baaad7a68a379b1e133e0fea0603051b0124ca\n",
    ),
    (
        &[(BUNDLE, "15\nhell")],
        &[],
        "backup/demo/20240102-030405F/bundle/1: short, 4 of 5 bytes\nbackup/demo/20240102-030405F/bundle/1: checksum 3596ea087bfdaf52380eae441077572ed289d657, found 587b596f04f7db9c2cad3d6b87dd2b3a05de4f35\n",
    ),
    (&[(BUNDLE, "16\nhello and more")], &[], ""),
    (
        &[],
        &[BUNDLE],
        "backup/demo/20240102-030405F/bundle/1: absent\n",
    ),
    (
        &[(SEGMENT_4, "segment 5")],
        &[],
        "archive/demo/16-1/0000000100000000/000000010000000000000004-7173bfc7c0c2797532a37fbb3f05c4dea8f24ac6: checksum 7173bfc7c0c2797532a37fbb3f05c4dea8f24ac6, found 5a784b44131dc505218f8c1ce1adcd30591c1454\n",
    ),
    (
        &[(SEGMENT_2, "")],
        &[],
        "archive/demo/16-1/0000000100000000/000000010000000000000002-5663f85bf64f6ed024e157d0f377c81b30721b5e: checksum 5663f85bf64f6ed024e157d0f377c81b30721b5e, found da39a3ee5e6b4b0d3255bfef95601890afd80709\n",
    ),
    (
        &[],
        &[SEGMENT_3],
        "backup/demo/20240102-030405F: segment 000000010000000000000003 absent\n",
    ),
    (
        &[(SEGMENT_3_BEFORE, "another segment 3")],
        &[],
        "archive/demo/16-1/0000000100000000/000000010000000000000003-fc2526011f6e261af2770b5131fa27cb70632fc6: second name of 000000010000000000000003\n",
    ),
    (&[(SEGMENT_3_BEFORE, "another segment 3")], &[SEGMENT_3], ""),
];

/// Values that contradict each other, each valid by itself.
const CONTRADICTIONS: &[Row] = &[
    (
        &[
            (ARCHIVE_INFO, ARCHIVE_OF_ANOTHER),
            (ARCHIVE_COPY, ARCHIVE_OF_ANOTHER),
        ],
        &[],
        "backup/demo/backup.info: history differs from archive.info\n",
    ),
    (
        &[(SEGMENT_4_OF_SECOND, "segment 4")],
        &[],
        "archive/demo/16-2/0000000100000000/000000010000000000000004-7173bfc7c0c2797532a37fbb3f05c4dea8f24ac6: cluster not in the history\n",
    ),
    (
        &[
            (ARCHIVE_INFO, ARCHIVE_OF_TWO),
            (ARCHIVE_COPY, ARCHIVE_OF_TWO),
            (BACKUP_INFO, LIST_OF_TWO),
            (LIST_COPY, LIST_OF_TWO),
            (LATER_MAIN, LATER_OF_SECOND),
            (LATER_COPY, LATER_OF_SECOND),
            (SEGMENT_4_OF_SECOND, "segment 4"),
        ],
        &[],
        "backup/demo/20240102-030405F_20240102-030505I/backup.manifest: prior of another cluster\n",
    ),
];

fn check_rows(rt: &impl Abort, alloc: Global, rows: &[Row]) {
    for (other, lost, wanted) in rows {
        let mut disk = well(rt, disk_with(alloc, other, lost, &[]));
        let lines = well(rt, known(alloc, &mut disk));
        same(rt, lines.as_str(), *wanted);
        same(rt, disk.faulty_calls(), 0);
    }
}

#[test]
fn a_sound_repository_has_no_finding(rt: HostRuntime) {
    let alloc = rt.alloc();
    check_rows(&rt, alloc, &[SOUND]);
}

#[test]
fn members_of_pairs(rt: HostRuntime) {
    let alloc = rt.alloc();
    check_rows(&rt, alloc, MEMBERS);
}

#[test]
fn files_of_backups_and_of_the_archive(rt: HostRuntime) {
    let alloc = rt.alloc();
    check_rows(&rt, alloc, FILES);
}

#[test]
fn values_that_contradict_each_other(rt: HostRuntime) {
    let alloc = rt.alloc();
    check_rows(&rt, alloc, CONTRADICTIONS);
}
