//! Info texts, with their checksums by `sha1sum` of the JSON texts that the rule names, and how they are read.

ghost use Rattle.std.specs.Prelude.{IfOk};

use base_text::NoMemory;
use repo_info::{MemberFault, ReadInfo};
use std::alloc::Global;
use std::process::Abort;

pub(crate) const SYSTEM: u64 = 6917529027641081857;

pub(crate) const ARCHIVE: &str = "[backrest]
backrest-format=5

[db]
db-id=1
db-system-id=6917529027641081857
db-version=\"16\"

[db:history]
1={\"db-id\":6917529027641081857,\"db-version\":\"16\"}

[backrest]
backrest-checksum=\"5ab4590d6c21779f8a41b4a22f28e5f580cee6ee\"
";

pub(crate) const LONG_HISTORY: &str = "[backrest]
backrest-format=5

[db]
db-id=11
db-system-id=11
db-version=\"16\"

[db:history]
1={\"db-id\":1,\"db-version\":\"16\"}
10={\"db-id\":10,\"db-version\":\"16\"}
11={\"db-id\":11,\"db-version\":\"16\"}
2={\"db-id\":2,\"db-version\":\"16\"}
3={\"db-id\":3,\"db-version\":\"16\"}
4={\"db-id\":4,\"db-version\":\"16\"}
5={\"db-id\":5,\"db-version\":\"16\"}
6={\"db-id\":6,\"db-version\":\"16\"}
7={\"db-id\":7,\"db-version\":\"16\"}
8={\"db-id\":8,\"db-version\":\"16\"}
9={\"db-id\":9,\"db-version\":\"16\"}

[backrest]
backrest-checksum=\"940fdbe7e2d468a87a81073a1c8ce8a159679b91\"
";

pub(crate) const BACKUP: &str = "[backrest]
backrest-format=5

[db]
db-catalog-version=202307071
db-control-version=1300
db-id=1
db-system-id=6917529027641081857
db-version=\"16\"

[db:history]
1={\"db-catalog-version\":202307071,\"db-control-version\":1300,\"db-system-id\":6917529027641081857,\"db-version\":\"16\"}

[backrest]
backrest-checksum=\"be92de48e0230895b327d149d674cb8f431e8e3f\"
";

pub(crate) const TWO_BACKUPS: &str = "[backrest]
backrest-format=5

[backup:current]
20240102-030405F={\"backup-archive-start\":\"000000010000000000000003\",\"backup-archive-stop\":\"0000000100000000000000FF\",\"backup-info-repo-size-delta\":300,\"backup-info-size\":400,\"backup-prior\":null,\"backup-reference\":[],\"backup-timestamp-start\":1704164645,\"backup-timestamp-stop\":1704164650,\"backup-type\":\"full\",\"db-id\":1}
20240102-030405F_20240102-030505D={\"backup-archive-start\":null,\"backup-archive-stop\":null,\"backup-info-repo-size-delta\":5,\"backup-info-size\":400,\"backup-prior\":\"20240102-030405F\",\"backup-reference\":[\"20240102-030405F\"],\"backup-timestamp-start\":1704164705,\"backup-timestamp-stop\":1704164706,\"backup-type\":\"diff\",\"db-id\":1}

[db]
db-catalog-version=202307071
db-control-version=1300
db-id=1
db-system-id=6917529027641081857
db-version=\"16\"

[db:history]
1={\"db-catalog-version\":202307071,\"db-control-version\":1300,\"db-system-id\":6917529027641081857,\"db-version\":\"16\"}

[backrest]
backrest-checksum=\"526551f32ddfa85fcaee185001cb85f45123a427\"
";

pub(crate) const THREE_BACKUPS: &str = "[backrest]
backrest-format=5

[backup:current]
20240102-030405F={\"backup-archive-start\":\"000000010000000000000002\",\"backup-archive-stop\":\"000000010000000000000002\",\"backup-info-repo-size-delta\":814083,\"backup-info-size\":814083,\"backup-prior\":null,\"backup-reference\":[],\"backup-timestamp-start\":1704164645,\"backup-timestamp-stop\":1704164646,\"backup-type\":\"full\",\"db-id\":1}
20240102-030405F_20240102-030505D={\"backup-archive-start\":null,\"backup-archive-stop\":null,\"backup-info-repo-size-delta\":500,\"backup-info-size\":814083,\"backup-prior\":\"20240102-030405F\",\"backup-reference\":[\"20240102-030405F\"],\"backup-timestamp-start\":1704164705,\"backup-timestamp-stop\":1704164706,\"backup-type\":\"diff\",\"db-id\":1}
20240102-030405F_20240102-030605I={\"backup-archive-start\":\"000000010000000000000003\",\"backup-archive-stop\":\"000000010000000000000004\",\"backup-info-repo-size-delta\":7,\"backup-info-size\":814090,\"backup-prior\":\"20240102-030405F_20240102-030505D\",\"backup-reference\":[\"20240102-030405F\",\"20240102-030405F_20240102-030505D\"],\"backup-timestamp-start\":1704164765,\"backup-timestamp-stop\":1704239999,\"backup-type\":\"incr\",\"db-id\":1}

[db]
db-catalog-version=202406281
db-control-version=1700
db-id=2
db-system-id=6917529027641081857
db-version=\"17\"

[db:history]
1={\"db-catalog-version\":202307071,\"db-control-version\":1300,\"db-system-id\":6917529027641081857,\"db-version\":\"16\"}
2={\"db-catalog-version\":202406281,\"db-control-version\":1700,\"db-system-id\":6917529027641081857,\"db-version\":\"17\"}

[backrest]
backrest-checksum=\"beb9381d70a45d85577f5b9370fa28209a81a32c\"
";

/// The value of a text, or why it has none.
pub(crate) fn read<I: ReadInfo>(
    alloc: Global,
    text: &str,
) -> Result<Result<I, MemberFault>, NoMemory>
    ensures { IfOk result (λ r. IfOk r I.is_valid) }
{
    if text.len() as u64 > I::limit() {
        return Ok(Err(MemberFault::TooLong));
    }
    I::read(alloc, text.as_bytes())
}

/// The value of a text that has one.
pub(crate) fn value_of<I: ReadInfo>(
    rt: &impl Abort,
    alloc: Global,
    text: &str,
) -> Result<I, NoMemory>
    ensures { IfOk result I.is_valid }
{
    match read::<I>(alloc, text)? {
        Ok(value) => Ok(value),
        Err(fault) => panic!(rt; "{fault:?}"),
    }
}
