// Expiries of a stanza with two clusters: a full backup of each, with segments 2 and 5. Checksums and digests are by
// `sha1sum`.
use crate::expiries::{check_expiry, check_gone, check_held, stopped};
use crate::fixture::{COPY, Held, INFO, disk_of};
use crate::same::{same, well};
use base_model::BackupKind;
use expire_make::expire;
use expire_rules::{FullRule, Rules};
use memory_devices::MemDisk;
use std::alloc::Global;
use std::process::Abort;

const ARCHIVE: &str =
    "[backrest]\nbackrest-format=5\n\n[db]\ndb-id=2\ndb-system-id=6917529027641081858\ndb-version=\"17\"\n\n[db:history]\n1={\"db-id\":6917529027641081857,\"db-version\":\"16\"}\n2={\"db-id\":6917529027641081858,\"db-version\":\"17\"}\n\n[backrest]\nbackrest-checksum=\"3d6eb477c7574b032bd72a8b1c80332e1bf4b60a\"\n";

// The list with both backups, and with the second one alone.
const LIST: &str =
    "[backrest]\nbackrest-format=5\n\n[backup:current]\n20240102-030405F={\"backup-archive-start\":\"000000010000000000000002\",\"backup-archive-stop\":\"000000010000000000000002\",\"backup-info-repo-size-delta\":3,\"backup-info-size\":3,\"backup-prior\":null,\"backup-reference\":[],\"backup-timestamp-start\":1704164645,\"backup-timestamp-stop\":1704164655,\"backup-type\":\"full\",\"db-id\":1}\n20240103-030405F={\"backup-archive-start\":\"000000010000000000000005\",\"backup-archive-stop\":\"000000010000000000000005\",\"backup-info-repo-size-delta\":3,\"backup-info-size\":3,\"backup-prior\":null,\"backup-reference\":[],\"backup-timestamp-start\":1704251045,\"backup-timestamp-stop\":1704251055,\"backup-type\":\"full\",\"db-id\":2}\n\n[db]\ndb-catalog-version=202406281\ndb-control-version=1700\ndb-id=2\ndb-system-id=6917529027641081858\ndb-version=\"17\"\n\n[db:history]\n1={\"db-catalog-version\":202307071,\"db-control-version\":1300,\"db-system-id\":6917529027641081857,\"db-version\":\"16\"}\n2={\"db-catalog-version\":202406281,\"db-control-version\":1700,\"db-system-id\":6917529027641081858,\"db-version\":\"17\"}\n\n[backrest]\nbackrest-checksum=\"d23f3c58e8c3609d865da4656557e580418ebba5\"\n";

const SHORTER: &str =
    "[backrest]\nbackrest-format=5\n\n[backup:current]\n20240103-030405F={\"backup-archive-start\":\"000000010000000000000005\",\"backup-archive-stop\":\"000000010000000000000005\",\"backup-info-repo-size-delta\":3,\"backup-info-size\":3,\"backup-prior\":null,\"backup-reference\":[],\"backup-timestamp-start\":1704251045,\"backup-timestamp-stop\":1704251055,\"backup-type\":\"full\",\"db-id\":2}\n\n[db]\ndb-catalog-version=202406281\ndb-control-version=1700\ndb-id=2\ndb-system-id=6917529027641081858\ndb-version=\"17\"\n\n[db:history]\n1={\"db-catalog-version\":202307071,\"db-control-version\":1300,\"db-system-id\":6917529027641081857,\"db-version\":\"16\"}\n2={\"db-catalog-version\":202406281,\"db-control-version\":1700,\"db-system-id\":6917529027641081858,\"db-version\":\"17\"}\n\n[backrest]\nbackrest-checksum=\"288f6399369a39a4b28efa0e374e9136bb4e7c2e\"\n";

// The first backup, which is of the old cluster.
const FIRST: &[Held] = &[
    ("backup/demo/20240102-030405F/backup.manifest", b"first"),
    ("backup/demo/20240102-030405F/pg_data/PG_VERSION", b"16\n"),
];

// The old cluster's log before that backup, and from its start on.
const OLD_BEFORE: &[Held] = &[(
    "archive/demo/16-1/0000000100000000/000000010000000000000001-82950123137e5021ae717ec21c51a784a5693681",
    b"segment 1",
)];

const OLD_REST: &[Held] = &[
    (
        "archive/demo/16-1/0000000100000000/000000010000000000000002-5663f85bf64f6ed024e157d0f377c81b30721b5e",
        b"segment 2",
    ),
    (
        "archive/demo/16-1/0000000100000000/000000010000000000000005-5a784b44131dc505218f8c1ce1adcd30591c1454",
        b"segment 5",
    ),
    (
        "archive/demo/16-1/0000000100000000/000000010000000000000002.00000028.backup",
        b"START WAL LOCATION: 0/2000028\n",
    ),
];

// The new cluster's log before the second backup.
const NEW_BEFORE: &[Held] = &[(
    "archive/demo/17-2/0000000100000000/000000010000000000000004-7173bfc7c0c2797532a37fbb3f05c4dea8f24ac6",
    b"segment 4",
)];

// What stays: the second backup, its log, and the histories of both clusters.
const STAYS: &[Held] = &[
    ("backup/demo/20240103-030405F/backup.manifest", b"second"),
    ("backup/demo/20240103-030405F/pg_data/PG_VERSION", b"17\n"),
    (
        "archive/demo/16-1/00000002.history",
        b"1\t0/5000000\tno recovery target specified\n",
    ),
    (
        "archive/demo/17-2/0000000100000000/000000010000000000000005-5a784b44131dc505218f8c1ce1adcd30591c1454",
        b"segment 5",
    ),
    (
        "archive/demo/17-2/0000000100000000/000000010000000000000006-5f0ad32e82fc18266ad5352397df1c0f58dca22b",
        b"segment 6",
    ),
    (
        "archive/demo/17-2/00000002.history",
        b"1\t0/5000000\tno recovery target specified\n",
    ),
];

const ALL: &[&[Held]] = &[FIRST, OLD_BEFORE, OLD_REST, NEW_BEFORE, STAYS];

const NONE: &[&str] = &[];

// The first backup has ended a day ago from this second on, and the second one from this.
const FIRST_DAY: u64 = 1_704_251_055;

const SECOND_DAY: u64 = 1_704_337_455;

fn full_rules(full: FullRule) -> Rules {
    Rules {
        full,
        diff: None,
        archive: None,
        archive_kind: BackupKind::Full,
    }
}

fn new_disk(rt: &impl Abort, alloc: Global) -> MemDisk {
    well(rt, disk_of(alloc, ARCHIVE, LIST, ALL, &[]))
}

// The list has this text, and these names are as they were.
fn check_kept(rt: &impl Abort, disk: &MemDisk, list: &str, kept: &[&[Held]]) {
    same(rt, disk.bytes(INFO), Some(list.as_bytes()));
    same(rt, disk.bytes(COPY), Some(list.as_bytes()));
    for held in kept {
        check_held(rt, disk, held);
    }
}

// The old cluster's backup is gone, and of its log only histories are left.
fn check_old_gone(rt: &impl Abort, disk: &MemDisk) {
    check_kept(rt, disk, SHORTER, &[STAYS]);
    check_gone(rt, disk, FIRST);
    check_gone(rt, disk, OLD_BEFORE);
    check_gone(rt, disk, OLD_REST);
    check_gone(rt, disk, NEW_BEFORE);
}

#[test]
fn the_old_log_goes_with_the_last_backup_of_its_cluster(rt: HostRuntime) {
    let alloc = rt.alloc();
    let mut disk = new_disk(&rt, alloc);
    let rules = full_rules(FullRule::Count(1));
    check_expiry(&rt, alloc, &mut disk, &rules, &["20240102-030405F"], 5);
    check_old_gone(&rt, &disk);
    check_expiry(&rt, alloc, &mut disk, &rules, NONE, 0);
    check_old_gone(&rt, &disk);
}

// The new cluster has fewer backups than are to be kept, so all of its log stays.
#[test]
fn the_old_log_stays_from_the_start_of_its_last_backup(rt: HostRuntime) {
    let alloc = rt.alloc();
    let mut disk = new_disk(&rt, alloc);
    let rules = full_rules(FullRule::Count(2));
    check_expiry(&rt, alloc, &mut disk, &rules, NONE, 1);
    check_kept(&rt, &disk, LIST, &[FIRST, OLD_REST, NEW_BEFORE, STAYS]);
    check_gone(&rt, &disk, OLD_BEFORE);
}

// By days as many backups keep the log as their own cluster has, so that of the new one goes too before its first.
#[test]
fn by_days_too_the_old_log_stays_as_long_as_its_backup(rt: HostRuntime) {
    let alloc = rt.alloc();
    let mut disk = new_disk(&rt, alloc);
    let rules = full_rules(FullRule::Days(1));
    let known = well(&rt, expire(alloc, &mut disk, "demo", &rules, FIRST_DAY));
    same(&rt, (known.labels.len(), known.removed), (0, 2));
    check_kept(&rt, &disk, LIST, &[FIRST, OLD_REST, STAYS]);
    check_gone(&rt, &disk, OLD_BEFORE);
    check_gone(&rt, &disk, NEW_BEFORE);
    let known = well(&rt, expire(alloc, &mut disk, "demo", &rules, SECOND_DAY));
    same(&rt, (known.labels.len(), known.removed), (1, 3));
    check_old_gone(&rt, &disk);
}

// What an expiry that is stopped leaves is completed by the next one.
#[test]
fn an_expiry_of_the_old_cluster_is_stopped_at_each_moment(rt: HostRuntime) {
    let alloc = rt.alloc();
    let mut disk = new_disk(&rt, alloc);
    let rules = full_rules(FullRule::Count(1));
    check_expiry(&rt, alloc, &mut disk, &rules, &["20240102-030405F"], 5);
    for moment in 0..=disk.moment() {
        for oldest in [false, true] {
            let mut left = well(&rt, stopped(alloc, &disk, moment, oldest));
            check_held(&rt, &left, STAYS);
            let _again = well(&rt, expire(alloc, &mut left, "demo", &rules, 0));
            check_old_gone(&rt, &left);
        }
    }
}
