// A stanza with a full backup of segments 2 and 3 and an incremental one of segment 4, which has two files of the
// first. Checksums of texts and digests of files are by `sha1sum`.
use memory_devices::{MemDisk, named_bytes};
use std::alloc::{AllocError, Global};

pub(crate) const ARCHIVE_INFO: &str = "archive/demo/archive.info";

pub(crate) const BACKUP_INFO: &str = "backup/demo/backup.info";

pub(crate) const FULL_MAIN: &str = "backup/demo/20240102-030405F/backup.manifest";

pub(crate) const FULL_COPY: &str = "backup/demo/20240102-030405F/backup.manifest.copy";

pub(crate) const LATER_MAIN: &str = "backup/demo/20240102-030405F_20240102-030505I/backup.manifest";

pub(crate) const LATER_COPY: &str =
    "backup/demo/20240102-030405F_20240102-030505I/backup.manifest.copy";

pub(crate) const BUNDLE: &str = "backup/demo/20240102-030405F/bundle/1";

pub(crate) const CONTROL: &str = "backup/demo/20240102-030405F/pg_data/global/pg_control";

/// The text of `archive.info`.
const ARCHIVE: &str =
    "[backrest]\nbackrest-format=5\n\n[db]\ndb-id=1\ndb-system-id=6917529027641081857\ndb-version=\"16\"\n\n[db:history]\n1={\"db-id\":6917529027641081857,\"db-version\":\"16\"}\n\n[backrest]\nbackrest-checksum=\"5ab4590d6c21779f8a41b4a22f28e5f580cee6ee\"\n";

/// The text of `backup.info`.
const LIST: &str =
    "[backrest]\nbackrest-format=5\n\n[backup:current]\n20240102-030405F={\"backup-archive-start\":\"000000010000000000000002\",\"backup-archive-stop\":\"000000010000000000000003\",\"backup-info-repo-size-delta\":13,\"backup-info-size\":13,\"backup-prior\":null,\"backup-reference\":[],\"backup-timestamp-start\":1704164645,\"backup-timestamp-stop\":1704164655,\"backup-type\":\"full\",\"db-id\":1}\n20240102-030405F_20240102-030505I={\"backup-archive-start\":\"000000010000000000000004\",\"backup-archive-stop\":\"000000010000000000000004\",\"backup-info-repo-size-delta\":4,\"backup-info-size\":14,\"backup-prior\":\"20240102-030405F\",\"backup-reference\":[\"20240102-030405F\"],\"backup-timestamp-start\":1704164705,\"backup-timestamp-stop\":1704164715,\"backup-type\":\"incr\",\"db-id\":1}\n\n[db]\ndb-catalog-version=202307071\ndb-control-version=1300\ndb-id=1\ndb-system-id=6917529027641081857\ndb-version=\"16\"\n\n[db:history]\n1={\"db-catalog-version\":202307071,\"db-control-version\":1300,\"db-system-id\":6917529027641081857,\"db-version\":\"16\"}\n\n[backrest]\nbackrest-checksum=\"bfaa1bbec4cae3e9160681ed4307bad7730abec7\"\n";

/// The manifest of the full backup.
const FULL: &str =
    "[backrest]\nbackrest-format=5\n\n[backup]\nbackup-archive-start=\"000000010000000000000002\"\nbackup-archive-stop=\"000000010000000000000003\"\nbackup-label=\"20240102-030405F\"\nbackup-lsn-start=\"0/2000028\"\nbackup-lsn-stop=\"0/3000138\"\nbackup-timestamp-start=1704164645\nbackup-timestamp-stop=1704164655\nbackup-type=\"full\"\nbackup-wal-segment-size=16777216\n\n[backup:db]\ndb-catalog-version=202307071\ndb-control-version=1300\ndb-id=1\ndb-system-id=6917529027641081857\ndb-version=\"16\"\n\n[backup:option]\noption-bundle=true\noption-delta=false\noption-online=true\n\n[target:file]\npg_data/PG_VERSION={\"bni\":1,\"bno\":0,\"checksum\":\"3596ea087bfdaf52380eae441077572ed289d657\",\"size\":3,\"timestamp\":1704164000}\npg_data/base/1/2={\"bni\":1,\"bno\":3,\"checksum\":\"aaf4c61ddcc5e8a2dabede0f3b482cd9aea9434d\",\"size\":5,\"timestamp\":1704164000}\npg_data/base/1/3={\"checksum\":\"da39a3ee5e6b4b0d3255bfef95601890afd80709\",\"size\":0,\"timestamp\":1704164000}\npg_data/global/pg_control={\"checksum\":\"1a954628a960aaef81d7b2d4521929579f3541e6\",\"size\":4,\"timestamp\":1704164000}\n\n[target:path]\npg_data={}\npg_data/base={}\npg_data/base/1={}\npg_data/global={}\n\n[backrest]\nbackrest-checksum=\"23e852dbb3d1dae86fb253292f48db82e220cbe2\"\n";

/// The manifest of the incremental backup.
const LATER: &str =
    "[backrest]\nbackrest-format=5\n\n[backup]\nbackup-archive-start=\"000000010000000000000004\"\nbackup-archive-stop=\"000000010000000000000004\"\nbackup-label=\"20240102-030405F_20240102-030505I\"\nbackup-lsn-start=\"0/4000028\"\nbackup-lsn-stop=\"0/4000138\"\nbackup-prior=\"20240102-030405F\"\nbackup-timestamp-start=1704164705\nbackup-timestamp-stop=1704164715\nbackup-type=\"incr\"\nbackup-wal-segment-size=16777216\n\n[backup:db]\ndb-catalog-version=202307071\ndb-control-version=1300\ndb-id=1\ndb-system-id=6917529027641081857\ndb-version=\"16\"\n\n[backup:option]\noption-bundle=true\noption-delta=false\noption-online=true\n\n[target:file]\npg_data/PG_VERSION={\"bni\":1,\"bno\":0,\"checksum\":\"3596ea087bfdaf52380eae441077572ed289d657\",\"reference\":\"20240102-030405F\",\"size\":3,\"timestamp\":1704164000}\npg_data/base/1/2={\"bni\":1,\"bno\":3,\"checksum\":\"aaf4c61ddcc5e8a2dabede0f3b482cd9aea9434d\",\"reference\":\"20240102-030405F\",\"size\":5,\"timestamp\":1704164000}\npg_data/base/1/3={\"checksum\":\"da39a3ee5e6b4b0d3255bfef95601890afd80709\",\"size\":0,\"timestamp\":1704164000}\npg_data/global/pg_control={\"checksum\":\"fbf5f2a2875b3bb65b8e3b23e6cc01d58ca30447\",\"size\":4,\"timestamp\":1704164700}\n\n[target:path]\npg_data={}\npg_data/base={}\npg_data/base/1={}\npg_data/global={}\n\n[backrest]\nbackrest-checksum=\"50a446ed7bfb8bb6563d6af94a6fcc65f8926df1\"\n";

/// The same, which states that the backup ended a second later.
pub(crate) const ENDS_LATER: &str =
    "[backrest]\nbackrest-format=5\n\n[backup]\nbackup-archive-start=\"000000010000000000000004\"\nbackup-archive-stop=\"000000010000000000000004\"\nbackup-label=\"20240102-030405F_20240102-030505I\"\nbackup-lsn-start=\"0/4000028\"\nbackup-lsn-stop=\"0/4000138\"\nbackup-prior=\"20240102-030405F\"\nbackup-timestamp-start=1704164705\nbackup-timestamp-stop=1704164716\nbackup-type=\"incr\"\nbackup-wal-segment-size=16777216\n\n[backup:db]\ndb-catalog-version=202307071\ndb-control-version=1300\ndb-id=1\ndb-system-id=6917529027641081857\ndb-version=\"16\"\n\n[backup:option]\noption-bundle=true\noption-delta=false\noption-online=true\n\n[target:file]\npg_data/PG_VERSION={\"bni\":1,\"bno\":0,\"checksum\":\"3596ea087bfdaf52380eae441077572ed289d657\",\"reference\":\"20240102-030405F\",\"size\":3,\"timestamp\":1704164000}\npg_data/base/1/2={\"bni\":1,\"bno\":3,\"checksum\":\"aaf4c61ddcc5e8a2dabede0f3b482cd9aea9434d\",\"reference\":\"20240102-030405F\",\"size\":5,\"timestamp\":1704164000}\npg_data/base/1/3={\"checksum\":\"da39a3ee5e6b4b0d3255bfef95601890afd80709\",\"size\":0,\"timestamp\":1704164000}\npg_data/global/pg_control={\"checksum\":\"fbf5f2a2875b3bb65b8e3b23e6cc01d58ca30447\",\"size\":4,\"timestamp\":1704164700}\n\n[target:path]\npg_data={}\npg_data/base={}\npg_data/base/1={}\npg_data/global={}\n\n[backrest]\nbackrest-checksum=\"b2975d0ec6cfb3fd4e63fe76742c5c130948eb2b\"\n";

/// The same, where a file refers to a backup that isn't listed.
pub(crate) const OF_ANOTHER: &str =
    "[backrest]\nbackrest-format=5\n\n[backup]\nbackup-archive-start=\"000000010000000000000004\"\nbackup-archive-stop=\"000000010000000000000004\"\nbackup-label=\"20240102-030405F_20240102-030505I\"\nbackup-lsn-start=\"0/4000028\"\nbackup-lsn-stop=\"0/4000138\"\nbackup-prior=\"20240102-030405F\"\nbackup-timestamp-start=1704164705\nbackup-timestamp-stop=1704164715\nbackup-type=\"incr\"\nbackup-wal-segment-size=16777216\n\n[backup:db]\ndb-catalog-version=202307071\ndb-control-version=1300\ndb-id=1\ndb-system-id=6917529027641081857\ndb-version=\"16\"\n\n[backup:option]\noption-bundle=true\noption-delta=false\noption-online=true\n\n[target:file]\npg_data/PG_VERSION={\"bni\":1,\"bno\":0,\"checksum\":\"3596ea087bfdaf52380eae441077572ed289d657\",\"reference\":\"20240102-030405F\",\"size\":3,\"timestamp\":1704164000}\npg_data/base/1/2={\"bni\":1,\"bno\":3,\"checksum\":\"aaf4c61ddcc5e8a2dabede0f3b482cd9aea9434d\",\"reference\":\"20240101-030405F\",\"size\":5,\"timestamp\":1704164000}\npg_data/base/1/3={\"checksum\":\"da39a3ee5e6b4b0d3255bfef95601890afd80709\",\"size\":0,\"timestamp\":1704164000}\npg_data/global/pg_control={\"checksum\":\"fbf5f2a2875b3bb65b8e3b23e6cc01d58ca30447\",\"size\":4,\"timestamp\":1704164700}\n\n[target:path]\npg_data={}\npg_data/base={}\npg_data/base/1={}\npg_data/global={}\n\n[backrest]\nbackrest-checksum=\"9fc8afba7d3c7235b1e889baeae6beba640d5fe2\"\n";

pub(crate) const SEGMENT_2: &str =
    "archive/demo/16-1/0000000100000000/000000010000000000000002-5663f85bf64f6ed024e157d0f377c81b30721b5e";

pub(crate) const SEGMENT_3: &str =
    "archive/demo/16-1/0000000100000000/000000010000000000000003-fc2526011f6e261af2770b5131fa27cb70632fc6";

pub(crate) const SEGMENT_4: &str =
    "archive/demo/16-1/0000000100000000/000000010000000000000004-7173bfc7c0c2797532a37fbb3f05c4dea8f24ac6";

/// An earlier name of segment 3.
pub(crate) const SEGMENT_3_BEFORE: &str =
    "archive/demo/16-1/0000000100000000/000000010000000000000003-259ef59023858007575c257e5d4890846166596e";

/// A name and the text that is there.
pub(crate) type Held = (&'static str, &'static str);

const HELD: &[Held] = &[
    (ARCHIVE_INFO, ARCHIVE),
    ("archive/demo/archive.info.copy", ARCHIVE),
    (BACKUP_INFO, LIST),
    ("backup/demo/backup.info.copy", LIST),
    (FULL_MAIN, FULL),
    (FULL_COPY, FULL),
    (LATER_MAIN, LATER),
    (LATER_COPY, LATER),
    (BUNDLE, "16\nhello"),
    (CONTROL, "head"),
    (
        "backup/demo/20240102-030405F_20240102-030505I/pg_data/global/pg_control",
        "tail",
    ),
    (SEGMENT_2, "segment 2"),
    (SEGMENT_3, "segment 3"),
    (SEGMENT_4, "segment 4"),
];

// Whether the name is one of these.
fn is_among(names: &[Held], name: &str) -> bool {
    for (other, _) in names {
        if *other == name {
            return true;
        }
    }
    false
}

/// A disk with the stanza, where other texts are at some names, and nothing at others.
pub(crate) fn disk_with(
    alloc: Global,
    other: &[Held],
    lost: &[&str],
    fail: &[u64],
) -> Result<MemDisk, AllocError> {
    let mut names = Vec::new(alloc);
    for (name, text) in HELD {
        if !is_among(other, name) && !lost.contains(name) {
            names.extend(named_bytes(alloc, &[(*name, text.as_bytes())])?)?;
        }
    }
    for (name, text) in other {
        names.extend(named_bytes(alloc, &[(*name, text.as_bytes())])?)?;
    }
    MemDisk::new(alloc, names, fail.to_vec(alloc)?)
}
