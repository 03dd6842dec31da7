// A stanza with two full backups, of which the first has segment 2 and the second segment 5, and six segments.
// Checksums of texts and digests of segments are by `sha1sum`.
use memory_devices::{MemDisk, named_bytes};
use std::alloc::{AllocError, Global};

pub(crate) const INFO: &str = "backup/demo/backup.info";

pub(crate) const COPY: &str = "backup/demo/backup.info.copy";

/// The text of `archive.info`.
const ARCHIVE: &str =
    "[backrest]\nbackrest-format=5\n\n[db]\ndb-id=1\ndb-system-id=6917529027641081857\ndb-version=\"16\"\n\n[db:history]\n1={\"db-id\":6917529027641081857,\"db-version\":\"16\"}\n\n[backrest]\nbackrest-checksum=\"5ab4590d6c21779f8a41b4a22f28e5f580cee6ee\"\n";

/// The same for another cluster.
pub(crate) const OTHER: &str =
    "[backrest]\nbackrest-format=5\n\n[db]\ndb-id=1\ndb-system-id=6917529027641081858\ndb-version=\"16\"\n\n[db:history]\n1={\"db-id\":6917529027641081858,\"db-version\":\"16\"}\n\n[backrest]\nbackrest-checksum=\"21451cf2883d56fe3cfc81d83d673041cd2adebb\"\n";

/// The text of `backup.info` with both backups.
pub(crate) const BOTH: &str =
    "[backrest]\nbackrest-format=5\n\n[backup:current]\n20240102-030405F={\"backup-archive-start\":\"000000010000000000000002\",\"backup-archive-stop\":\"000000010000000000000002\",\"backup-info-repo-size-delta\":3,\"backup-info-size\":3,\"backup-prior\":null,\"backup-reference\":[],\"backup-timestamp-start\":1704164645,\"backup-timestamp-stop\":1704164655,\"backup-type\":\"full\",\"db-id\":1}\n20240103-030405F={\"backup-archive-start\":\"000000010000000000000005\",\"backup-archive-stop\":\"000000010000000000000005\",\"backup-info-repo-size-delta\":3,\"backup-info-size\":3,\"backup-prior\":null,\"backup-reference\":[],\"backup-timestamp-start\":1704251045,\"backup-timestamp-stop\":1704251055,\"backup-type\":\"full\",\"db-id\":1}\n\n[db]\ndb-catalog-version=202307071\ndb-control-version=1300\ndb-id=1\ndb-system-id=6917529027641081857\ndb-version=\"16\"\n\n[db:history]\n1={\"db-catalog-version\":202307071,\"db-control-version\":1300,\"db-system-id\":6917529027641081857,\"db-version\":\"16\"}\n\n[backrest]\nbackrest-checksum=\"dacafdb0739159e559e2968017b9a5123f46c9a9\"\n";

/// The text with both backups and a second cluster, which is still to come.
pub(crate) const COMING: &str =
    "[backrest]\nbackrest-format=5\n\n[backup:current]\n20240102-030405F={\"backup-archive-start\":\"000000010000000000000002\",\"backup-archive-stop\":\"000000010000000000000002\",\"backup-info-repo-size-delta\":3,\"backup-info-size\":3,\"backup-prior\":null,\"backup-reference\":[],\"backup-timestamp-start\":1704164645,\"backup-timestamp-stop\":1704164655,\"backup-type\":\"full\",\"db-id\":1}\n20240103-030405F={\"backup-archive-start\":\"000000010000000000000005\",\"backup-archive-stop\":\"000000010000000000000005\",\"backup-info-repo-size-delta\":3,\"backup-info-size\":3,\"backup-prior\":null,\"backup-reference\":[],\"backup-timestamp-start\":1704251045,\"backup-timestamp-stop\":1704251055,\"backup-type\":\"full\",\"db-id\":1}\n\n[db]\ndb-catalog-version=202406281\ndb-control-version=1700\ndb-id=2\ndb-system-id=6917529027641081858\ndb-version=\"17\"\n\n[db:history]\n1={\"db-catalog-version\":202307071,\"db-control-version\":1300,\"db-system-id\":6917529027641081857,\"db-version\":\"16\"}\n2={\"db-catalog-version\":202406281,\"db-control-version\":1700,\"db-system-id\":6917529027641081858,\"db-version\":\"17\"}\n\n[backrest]\nbackrest-checksum=\"7f32097afe5801c6dd4fe1d6f7480226e49c553b\"\n";

/// The text with the second backup alone.
pub(crate) const SECOND: &str =
    "[backrest]\nbackrest-format=5\n\n[backup:current]\n20240103-030405F={\"backup-archive-start\":\"000000010000000000000005\",\"backup-archive-stop\":\"000000010000000000000005\",\"backup-info-repo-size-delta\":3,\"backup-info-size\":3,\"backup-prior\":null,\"backup-reference\":[],\"backup-timestamp-start\":1704251045,\"backup-timestamp-stop\":1704251055,\"backup-type\":\"full\",\"db-id\":1}\n\n[db]\ndb-catalog-version=202307071\ndb-control-version=1300\ndb-id=1\ndb-system-id=6917529027641081857\ndb-version=\"16\"\n\n[db:history]\n1={\"db-catalog-version\":202307071,\"db-control-version\":1300,\"db-system-id\":6917529027641081857,\"db-version\":\"16\"}\n\n[backrest]\nbackrest-checksum=\"e00da9f3ff1ffb0a184fdf57172cd100f9f0fc66\"\n";

pub(crate) type Held = (&'static str, &'static [u8]);

/// What expires with the first backup: its folder, and the files before segment 5.
pub(crate) const GOES: &[Held] = &[
    ("backup/demo/20240102-030405F/backup.manifest", b"first"),
    ("backup/demo/20240102-030405F/pg_data/PG_VERSION", b"16\n"),
    (
        "archive/demo/16-1/0000000100000000/000000010000000000000001-82950123137e5021ae717ec21c51a784a5693681",
        b"segment 1",
    ),
    (
        "archive/demo/16-1/0000000100000000/000000010000000000000002-5663f85bf64f6ed024e157d0f377c81b30721b5e",
        b"segment 2",
    ),
    (
        "archive/demo/16-1/0000000100000000/000000010000000000000003-fc2526011f6e261af2770b5131fa27cb70632fc6",
        b"segment 3",
    ),
    (
        "archive/demo/16-1/0000000100000000/000000010000000000000003.partial-355705cf62a56669303d2561f29e0620a676c36e",
        b"partial",
    ),
    (
        "archive/demo/16-1/0000000100000000/000000010000000000000004-7173bfc7c0c2797532a37fbb3f05c4dea8f24ac6",
        b"segment 4",
    ),
    (
        "archive/demo/16-1/0000000100000000/000000010000000000000001.00000028.backup",
        b"START WAL LOCATION: 0/1000028\n",
    ),
];

/// Folders of labels that aren't listed, as an interrupted backup leaves one.
pub(crate) const UNLISTED: &[Held] = &[
    ("backup/demo/20240101-030405F/pg_data/PG_VERSION", b"16\n"),
    (
        "backup/demo/20240102-030405F_20240102-030505D/pg_data/base/1/112",
        b"x",
    ),
];

/// What stays: the second backup, the files from segment 5 on, histories, and all that is no name of an expiry's.
pub(crate) const STAYS: &[Held] = &[
    ("backup/demo/20240103-030405F/backup.manifest", b"second"),
    ("backup/demo/20240103-030405F/pg_data/PG_VERSION", b"16\n"),
    (
        "archive/demo/16-1/0000000100000000/000000010000000000000005-5a784b44131dc505218f8c1ce1adcd30591c1454",
        b"segment 5",
    ),
    (
        "archive/demo/16-1/0000000100000000/000000010000000000000006-5f0ad32e82fc18266ad5352397df1c0f58dca22b",
        b"segment 6",
    ),
    (
        "archive/demo/16-1/00000002.history",
        b"1\t0/5000000\tno recovery target specified\n",
    ),
    (
        "archive/demo/16-1/0000000100000000/000000010000000000000001-notes",
        b"no digest",
    ),
    ("archive/demo/16-1/0000000100000000/readme", b"no segment"),
    ("archive/demo/out/000000010000000000000001.ok", b"a receipt"),
    (
        "backup/demo/notes/20240101-030405F/readme",
        b"no label's folder",
    ),
    ("backup/demo/latest", b"no folder"),
    (
        "backup/other/20240101-030405F/backup.manifest",
        b"another stanza's",
    ),
    (
        "archive/other/16-1/0000000100000000/000000010000000000000001-82950123137e5021ae717ec21c51a784a5693681",
        b"segment 1",
    ),
];

/// A disk with these names, whose calls with these numbers fail.
pub(crate) fn disk_with(
    alloc: Global,
    list: &str,
    held: &[&[Held]],
    fail: &[u64],
) -> Result<MemDisk, AllocError> {
    disk_of(alloc, ARCHIVE, list, held, fail)
}

/// The same with this `archive.info`.
pub(crate) fn disk_of(
    alloc: Global,
    archive: &str,
    list: &str,
    held: &[&[Held]],
    fail: &[u64],
) -> Result<MemDisk, AllocError> {
    let mut names = named_bytes(
        alloc,
        &[
            ("archive/demo/archive.info", archive.as_bytes()),
            ("archive/demo/archive.info.copy", archive.as_bytes()),
            (INFO, list.as_bytes()),
            (COPY, list.as_bytes()),
        ],
    )?;
    for some in held {
        names.extend(named_bytes(alloc, some)?)?;
    }
    MemDisk::new(alloc, names, fail.to_vec(alloc)?)
}
