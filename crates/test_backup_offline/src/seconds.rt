// Which second names a backup, besides the folders of others.

use crate::same::{same, well};
use base_model::BackupInfo;
use cmd_backup_common::{SecondFault, next_second};
use memory_devices::{MemClock, MemDisk, named_bytes};
use std::alloc::{AllocError, Global};

const AT_15: &str = "backup/demo/20240102-030415F/backup.manifest";

const LATER: &str = "backup/demo/20240101-030405F_20240102-030414I/pg_data/PG_VERSION";

// The second besides a file of this name, where the clock shows these.
fn second_beside(
    alloc: Global,
    name: &str,
    seconds: &[u64],
) -> Result<Result<u64, SecondFault>, AllocError> {
    let names = named_bytes(alloc, &[(name, b"x")])?;
    let mut disk = MemDisk::new(alloc, names, Vec::new(alloc))?;
    let mut clock = MemClock::new(seconds.to_vec(alloc)?, Vec::new(alloc));
    let list = BackupInfo {
        current: 1,
        history: Vec::new(alloc),
        backups: Vec::new(alloc),
    };
    Ok(next_second(alloc, &mut disk, &mut clock, "demo", &list))
}

/// A file's name, what the clock shows, and the second. 1704164655 is 2024-01-02 03:04:15.
const ROWS: &[(&str, &[u64], Result<u64, SecondFault>)] = &[
    (AT_15, &[1704164656, 1704164657], Ok(1704164657)),
    (AT_15, &[1704164645, 1704164645], Ok(1704164656)),
    (
        AT_15,
        &[1704164644],
        Err(SecondFault::ClockBehind {
            latest: 1704164655,
            now: 1704164644,
        }),
    ),
    (LATER, &[1704164650, 1704164651], Ok(1704164655)),
    ("backup/demo/other/x", &[5, 6], Ok(6)),
    ("backup/other/20240102-030415F/x", &[5, 6], Ok(6)),
    (AT_15, &[253402300800], Err(SecondFault::Clock)),
];

#[test]
fn seconds(rt: HostRuntime) {
    let alloc = rt.alloc();
    for (name, clock, want) in ROWS {
        let second = well(&rt, second_beside(alloc, name, clock));
        same(&rt, second, *want);
    }
}
