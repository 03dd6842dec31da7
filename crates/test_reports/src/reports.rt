//! Reports by hand, as pgBackRest prints them; dates by `date`.

use crate::same::same;
use crate::texts::{BACKUP, SYSTEM, THREE_BACKUPS, value_of};
use base_model::{ArchiveId, ArchiveInfo, BackupInfo, ClusterId};
use cmd_info::{ArchivedName, Report, report_json, report_text};
use repo_names::read_archive_name;
use std::alloc::{AllocError, Global};
use std::process::Abort;
use std::test::Fail;

const NEW_TEXT: &str = "stanza: demo
    status: error (no valid backups)
    cipher: none

    db (current)
        wal archive min/max (16): none present
";

const NEW_JSON: &str =
    "[{\"archive\":[{\"id\":\"16-1\",\"max\":null,\"min\":null}],\"backup\":[],\"cipher\":\"none\",\"db\":[{\"db-catalog-version\":202307071,\"db-control-version\":1300,\"db-system-id\":6917529027641081857,\"db-version\":\"16\",\"id\":1}],\"name\":\"demo\",\"status\":{\"code\":2,\"message\":\"no valid backups\"}}]
";

const PUSHED_TEXT: &str = "stanza: demo
    status: error (no valid backups)
    cipher: none

    db (current)
        wal archive min/max (16): 000000010000000000000003/000000010000000000000003
";

const BACKUPS_TEXT: &str = "stanza: demo
    status: ok
    cipher: none

    db (prior)
        wal archive min/max (16): 000000010000000000000002/00000001000000010000000A

    db (current)
        wal archive min/max (17): none present

        full backup: 20240102-030405F
            timestamp start/stop: 2024-01-02 03:04:05+00 / 2024-01-02 03:04:06+00
            wal start/stop: 000000010000000000000002 / 000000010000000000000002
            database size: 814083B, backup size: 814083B

        diff backup: 20240102-030405F_20240102-030505D
            timestamp start/stop: 2024-01-02 03:05:05+00 / 2024-01-02 03:05:06+00
            wal start/stop: n/a
            database size: 814083B, backup size: 500B
            backup reference list: 20240102-030405F

        incr backup: 20240102-030405F_20240102-030605I
            timestamp start/stop: 2024-01-02 03:06:05+00 / 2024-01-02 23:59:59+00
            wal start/stop: 000000010000000000000003 / 000000010000000000000004
            database size: 814090B, backup size: 7B
            backup reference list: 20240102-030405F, 20240102-030405F_20240102-030505D
";

// The second cluster isn't in the archive yet.
const PENDING_JSON: &str =
    "[{\"archive\":[{\"id\":\"16-1\",\"max\":\"00000001000000010000000A\",\"min\":\"000000010000000000000002\"}],\"backup\":[{\"backup-archive-start\":\"000000010000000000000002\",\"backup-archive-stop\":\"000000010000000000000002\",\"backup-info-repo-size-delta\":814083,\"backup-info-size\":814083,\"backup-prior\":null,\"backup-reference\":[],\"backup-timestamp-start\":1704164645,\"backup-timestamp-stop\":1704164646,\"backup-type\":\"full\",\"db-id\":1,\"label\":\"20240102-030405F\"},{\"backup-archive-start\":null,\"backup-archive-stop\":null,\"backup-info-repo-size-delta\":500,\"backup-info-size\":814083,\"backup-prior\":\"20240102-030405F\",\"backup-reference\":[\"20240102-030405F\"],\"backup-timestamp-start\":1704164705,\"backup-timestamp-stop\":1704164706,\"backup-type\":\"diff\",\"db-id\":1,\"label\":\"20240102-030405F_20240102-030505D\"},{\"backup-archive-start\":\"000000010000000000000003\",\"backup-archive-stop\":\"000000010000000000000004\",\"backup-info-repo-size-delta\":7,\"backup-info-size\":814090,\"backup-prior\":\"20240102-030405F_20240102-030505D\",\"backup-reference\":[\"20240102-030405F\",\"20240102-030405F_20240102-030505D\"],\"backup-timestamp-start\":1704164765,\"backup-timestamp-stop\":1704239999,\"backup-type\":\"incr\",\"db-id\":1,\"label\":\"20240102-030405F_20240102-030605I\"}],\"cipher\":\"none\",\"db\":[{\"db-catalog-version\":202307071,\"db-control-version\":1300,\"db-system-id\":6917529027641081857,\"db-version\":\"16\",\"id\":1}],\"name\":\"demo\",\"status\":{\"code\":0,\"message\":\"ok\"}}]
";

const FIRST: ClusterId = ClusterId {
    id: 1,
    system: SYSTEM,
    version: 16,
};

const SECOND: ClusterId = ClusterId {
    id: 2,
    system: SYSTEM,
    version: 17,
};

// Archived files, each with the number of its cluster.
const FILES: &[(u32, &str)] = &[
    (1, "000000010000000000000003"),
    (1, "000000010000000000000001.partial"),
    (1, "00000001000000010000000A"),
    (1, "000000010000000200000000.00000028.backup"),
    (1, "000000010000000000000002"),
    (2, "000000010000000000000001"),
    (1, "00000002.history"),
];

fn archived(
    rt: &impl Abort,
    alloc: Global,
    rows: &[(u32, &str)],
) -> Result<Vec<ArchivedName>, AllocError> {
    let mut files = Vec::new(alloc);
    for &(number, name) in rows {
        let id = ArchiveId {
            version: 16,
            number,
        };
        let name = read_archive_name(name.as_bytes()).expect(rt, "a name");
        files.push(ArchivedName { id, name })?;
    }
    Ok(files)
}

fn archive(alloc: Global, current: u32, clusters: &[ClusterId]) -> Result<ArchiveInfo, AllocError> {
    Ok(ArchiveInfo {
        current,
        history: Vec::from_slice(alloc, clusters)?,
    })
}

#[test]
fn new_stanza(rt: HostRuntime) -> Result<(), Fail> {
    let alloc = rt.alloc();
    let archive = archive(alloc, 1, &[FIRST])?;
    let info: BackupInfo = value_of(&rt, alloc, BACKUP)?;
    let mut report = Report {
        stanza: "demo",
        archive: &archive,
        info: &info,
        archived: &[],
    };
    same(&rt, report_text(alloc, &report)?.as_str(), NEW_TEXT);
    same(&rt, report_json(alloc, &report)?.as_str(), NEW_JSON);
    let third = archived(&rt, alloc, &[(1, "000000010000000000000003")])?;
    report.archived = &third;
    same(&rt, report_text(alloc, &report)?.as_str(), PUSHED_TEXT);
    Ok(())
}

#[test]
fn backups(rt: HostRuntime) -> Result<(), Fail> {
    let alloc = rt.alloc();
    let info: BackupInfo = value_of(&rt, alloc, THREE_BACKUPS)?;
    let files = archived(&rt, alloc, FILES)?;
    let both = archive(alloc, 2, &[FIRST, SECOND])?;
    let mut report = Report {
        stanza: "demo",
        archive: &both,
        info: &info,
        archived: &files,
    };
    same(&rt, report_text(alloc, &report)?.as_str(), BACKUPS_TEXT);
    let first = archive(alloc, 1, &[FIRST])?;
    report.archive = &first;
    same(&rt, report_json(alloc, &report)?.as_str(), PENDING_JSON);
    Ok(())
}
