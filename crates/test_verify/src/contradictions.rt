// Texts of pairs and manifests that contradict each other. Their checksums are by `sha1sum`.
/// The text of `archive.info` of another cluster.
pub(crate) const ARCHIVE_OF_ANOTHER: &str =
    "[backrest]\nbackrest-format=5\n\n[db]\ndb-id=1\ndb-system-id=6917529027641081858\ndb-version=\"16\"\n\n[db:history]\n1={\"db-id\":6917529027641081858,\"db-version\":\"16\"}\n\n[backrest]\nbackrest-checksum=\"21451cf2883d56fe3cfc81d83d673041cd2adebb\"\n";

/// The same after an upgrade, with a second cluster.
pub(crate) const ARCHIVE_OF_TWO: &str =
    "[backrest]\nbackrest-format=5\n\n[db]\ndb-id=2\ndb-system-id=6917529027641081858\ndb-version=\"16\"\n\n[db:history]\n1={\"db-id\":6917529027641081857,\"db-version\":\"16\"}\n2={\"db-id\":6917529027641081858,\"db-version\":\"16\"}\n\n[backrest]\nbackrest-checksum=\"1e919a2ef35407b0792a1d868eb49cb333b5192b\"\n";

/// The text of `backup.info` that lists the incremental backup under the second cluster.
pub(crate) const LIST_OF_TWO: &str =
    "[backrest]\nbackrest-format=5\n\n[backup:current]\n20240102-030405F={\"backup-archive-start\":\"000000010000000000000002\",\"backup-archive-stop\":\"000000010000000000000003\",\"backup-info-repo-size-delta\":13,\"backup-info-size\":13,\"backup-prior\":null,\"backup-reference\":[],\"backup-timestamp-start\":1704164645,\"backup-timestamp-stop\":1704164655,\"backup-type\":\"full\",\"db-id\":1}\n20240102-030405F_20240102-030505I={\"backup-archive-start\":\"000000010000000000000004\",\"backup-archive-stop\":\"000000010000000000000004\",\"backup-info-repo-size-delta\":4,\"backup-info-size\":14,\"backup-prior\":\"20240102-030405F\",\"backup-reference\":[\"20240102-030405F\"],\"backup-timestamp-start\":1704164705,\"backup-timestamp-stop\":1704164715,\"backup-type\":\"incr\",\"db-id\":2}\n\n[db]\ndb-catalog-version=202307071\ndb-control-version=1300\ndb-id=2\ndb-system-id=6917529027641081858\ndb-version=\"16\"\n\n[db:history]\n1={\"db-catalog-version\":202307071,\"db-control-version\":1300,\"db-system-id\":6917529027641081857,\"db-version\":\"16\"}\n2={\"db-catalog-version\":202307071,\"db-control-version\":1300,\"db-system-id\":6917529027641081858,\"db-version\":\"16\"}\n\n[backrest]\nbackrest-checksum=\"05cc1a10d0e8c2a0bdc5588d2161654d8211b63b\"\n";

/// The manifest of the incremental backup under the second cluster.
pub(crate) const LATER_OF_SECOND: &str =
    "[backrest]\nbackrest-format=5\n\n[backup]\nbackup-archive-start=\"000000010000000000000004\"\nbackup-archive-stop=\"000000010000000000000004\"\nbackup-label=\"20240102-030405F_20240102-030505I\"\nbackup-lsn-start=\"0/4000028\"\nbackup-lsn-stop=\"0/4000138\"\nbackup-prior=\"20240102-030405F\"\nbackup-timestamp-start=1704164705\nbackup-timestamp-stop=1704164715\nbackup-type=\"incr\"\nbackup-wal-segment-size=16777216\n\n[backup:db]\ndb-catalog-version=202307071\ndb-control-version=1300\ndb-id=2\ndb-system-id=6917529027641081858\ndb-version=\"16\"\n\n[backup:option]\noption-bundle=true\noption-delta=false\noption-online=true\n\n[target:file]\npg_data/PG_VERSION={\"bni\":1,\"bno\":0,\"checksum\":\"3596ea087bfdaf52380eae441077572ed289d657\",\"reference\":\"20240102-030405F\",\"size\":3,\"timestamp\":1704164000}\npg_data/base/1/2={\"bni\":1,\"bno\":3,\"checksum\":\"aaf4c61ddcc5e8a2dabede0f3b482cd9aea9434d\",\"reference\":\"20240102-030405F\",\"size\":5,\"timestamp\":1704164000}\npg_data/base/1/3={\"checksum\":\"da39a3ee5e6b4b0d3255bfef95601890afd80709\",\"size\":0,\"timestamp\":1704164000}\npg_data/global/pg_control={\"checksum\":\"fbf5f2a2875b3bb65b8e3b23e6cc01d58ca30447\",\"size\":4,\"timestamp\":1704164700}\n\n[target:path]\npg_data={}\npg_data/base={}\npg_data/base/1={}\npg_data/global={}\n\n[backrest]\nbackrest-checksum=\"6b4ddeb2769694fabfaf88d533700bc6f269ffbf\"\n";

pub(crate) const ARCHIVE_COPY: &str = "archive/demo/archive.info.copy";

pub(crate) const LIST_COPY: &str = "backup/demo/backup.info.copy";

/// A segment under the second cluster.
pub(crate) const SEGMENT_4_OF_SECOND: &str =
    "archive/demo/16-2/0000000100000000/000000010000000000000004-7173bfc7c0c2797532a37fbb3f05c4dea8f24ac6";
