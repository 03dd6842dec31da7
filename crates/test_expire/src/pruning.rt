// The command's own part after its stages: what it reports, and when it asks the clock.
ghost use Rattle.std.specs.Prelude.{◌≡◌, Ok, IfOk};

use crate::expiries::{ALL, check_done, check_held, check_left, stopped};
use crate::fixture::{BOTH, COMING, GOES, OTHER, SECOND, STAYS, UNLISTED, disk_of, disk_with};
use crate::same::{same, well};
use base_devices::{Clock, Disk};
use base_model::BackupKind;
use cmd_expire::{ExpireCommandFault, InfoValues, expire_message, expire_stanza, expire_status};
use cmd_setup::{lock_names, prepare, take_locks};
use cmd_types::{Halt, Object, Outcome, Pairs, Plan, StageFault, SyncScope};
use expire_rules::{FullRule, Rules};
use memory_devices::{MemClock, MemDataFolder, MemDisk, MemLocks};
use std::alloc::Global;
use std::process::Abort;

// The second backup has ended a day ago from this second on.
const A_DAY_ON: u64 = 1_704_337_455;

const FIRST_WENT: &str = "INFO: expire backup 20240102-030405F\nINFO: removed 6 archive files\n";

fn rules(full: FullRule, archive: Option<u32>) -> Rules {
    Rules {
        full,
        diff: None,
        archive,
        archive_kind: BackupKind::Full,
    }
}

// What a stage found, where it refused nothing.
fn staged<T>(
    rt: &impl Abort,
    done: Result<T, Halt<StageFault>>,
) -> Result<T, Halt<ExpireCommandFault>>
    ensures { IfOk result (λ found. done ≡ Ok found) }
{
    match done {
        Ok(found) => Ok(found),
        Err(Halt::Failed(object)) => Err(Halt::Failed(object)),
        Err(Halt::NoMemory) => Err(Halt::NoMemory),
        Err(Halt::Refused(_)) => panic!(rt; "a stage refuses it"),
    }
}

// The stages of the command, and its own part.
fn prune_on<D: Disk, C: Clock>(
    rt: &impl Abort,
    alloc: Global,
    disk: &mut D,
    clock: &mut C,
    stanza: &str,
    rules: &Rules,
) -> Result<Outcome, Halt<ExpireCommandFault>> {
    let plan = Plan {
        sync_scope: SyncScope::Whole,
        folder: false,
        backup_lock: true,
        archive_lock: false,
        control: false,
        pairs: Pairs::ReadBoth,
    };
    let mut locks = MemLocks::new(alloc, Vec::new(alloc), Vec::new(alloc));
    let names = well(rt, lock_names(alloc, &plan, stanza));
    well(
        rt,
        take_locks(alloc, &mut locks, "/run", &names, &plan, stanza),
    );
    let mut tree = well(
        rt,
        MemDataFolder::new(alloc, Vec::new(alloc), Vec::new(alloc)),
    );
    let ready = staged(rt, prepare(alloc, disk, &mut tree, &locks, stanza, &plan))?;
    let (Some(archive), Some(backup)) = (ready.archive, ready.backup) else {
        panic!(rt; "both pairs are read");
    };
    let pairs = InfoValues { archive, backup };
    expire_stanza(alloc, disk, clock, &locks, stanza, rules, pairs)
}

fn prune(
    rt: &impl Abort,
    alloc: Global,
    disk: &mut MemDisk,
    clock: &mut MemClock,
    rules: &Rules,
) -> Result<Outcome, Halt<ExpireCommandFault>> {
    prune_on(rt, alloc, disk, clock, "demo", rules)
}

// A clock that shows this second, and whose first call may fail.
fn clock_at(rt: &impl Abort, alloc: Global, second: u64, fails: bool) -> MemClock {
    let failing: &[u64] = if fails { &[0] } else { &[] };
    let seconds = well(rt, [second].as_slice().to_vec(alloc));
    MemClock::new(seconds, well(rt, failing.to_vec(alloc)))
}

// The command succeeds, with these lines.
fn check_lines(
    rt: &impl Abort,
    disk: &mut MemDisk,
    clock: &mut MemClock,
    rules: &Rules,
    alloc: Global,
    lines: &str,
) {
    match prune(rt, alloc, disk, clock, rules) {
        Ok(Outcome::Finished { lines: known }) => same(rt, known.as_str(), lines),
        other => panic!(rt; "{other:?}"),
    }
}

/// Of each list by each rule these lines are reported, by a clock that fails where it is asked.
const ROWS: &[(&str, FullRule, Option<u32>, &str)] = &[
    (BOTH, FullRule::Count(1), None, FIRST_WENT),
    (COMING, FullRule::Count(1), None, FIRST_WENT),
    (
        SECOND,
        FullRule::Count(1),
        None,
        "INFO: removed 6 archive files\n",
    ),
    (
        BOTH,
        FullRule::Count(2),
        Some(1),
        "INFO: removed 5 archive files\n",
    ),
    (
        BOTH,
        FullRule::Count(2),
        None,
        "INFO: removed 2 archive files\n",
    ),
    (BOTH, FullRule::Unset, None, ""),
];

#[test]
fn what_went_is_known(rt: HostRuntime) {
    let alloc = rt.alloc();
    for (list, full, archive, lines) in ROWS {
        let mut disk = well(&rt, disk_with(alloc, list, ALL, &[]));
        let mut clock = clock_at(&rt, alloc, 0, true);
        let rules = rules(*full, *archive);
        check_lines(&rt, &mut disk, &mut clock, &rules, alloc, lines);
        same(&rt, clock.faults(), 0);
        check_held(&rt, &disk, STAYS);
    }
}

#[test]
fn a_cluster_to_come_is_no_longer_known(rt: HostRuntime) {
    let alloc = rt.alloc();
    let mut disk = well(&rt, disk_with(alloc, COMING, ALL, &[]));
    let mut clock = clock_at(&rt, alloc, 0, true);
    let rules = rules(FullRule::Count(1), None);
    check_lines(&rt, &mut disk, &mut clock, &rules, alloc, FIRST_WENT);
    check_done(&rt, &disk);
    check_lines(&rt, &mut disk, &mut clock, &rules, alloc, "");
    check_done(&rt, &disk);
}

#[test]
fn days_are_counted_by_the_clock(rt: HostRuntime) {
    let alloc = rt.alloc();
    let rules = rules(FullRule::Days(1), None);
    for (second, lines) in [
        (A_DAY_ON - 1, "INFO: removed 2 archive files\n"),
        (A_DAY_ON, FIRST_WENT),
    ] {
        let mut disk = well(&rt, disk_with(alloc, BOTH, ALL, &[]));
        let mut clock = clock_at(&rt, alloc, second, false);
        check_lines(&rt, &mut disk, &mut clock, &rules, alloc, lines);
    }
}

#[test]
fn the_clock_fails(rt: HostRuntime) {
    let alloc = rt.alloc();
    let mut disk = well(&rt, disk_with(alloc, BOTH, ALL, &[]));
    let mut clock = clock_at(&rt, alloc, A_DAY_ON, true);
    let done = prune(
        &rt,
        alloc,
        &mut disk,
        &mut clock,
        &rules(FullRule::Days(1), None),
    );
    assert!(rt; matches!(done, Err(Halt::Failed(Object::Clock))));
    same(&rt, clock.faults(), 1);
    for held in [GOES, UNLISTED, STAYS] {
        check_held(&rt, &disk, held);
    }
}

#[test]
fn histories_differ(rt: HostRuntime) {
    let alloc = rt.alloc();
    let mut disk = well(&rt, disk_of(alloc, OTHER, BOTH, ALL, &[]));
    let mut clock = clock_at(&rt, alloc, A_DAY_ON, true);
    let done = prune(
        &rt,
        alloc,
        &mut disk,
        &mut clock,
        &rules(FullRule::Days(1), None),
    );
    let Err(Halt::Refused(fault)) = done else {
        panic!(rt; "it is refused");
    };
    same(&rt, expire_status(&fault), 101);
    let message = well(&rt, expire_message(alloc, &fault));
    same(
        &rt,
        message.as_slice(),
        b"archive history and backup history differ at 1",
    );
    same(&rt, clock.faults(), 0);
    for held in [GOES, UNLISTED, STAYS] {
        check_held(&rt, &disk, held);
    }
}

#[test]
fn each_call_of_the_disk_fails(rt: HostRuntime) {
    let alloc = rt.alloc();
    let rules = rules(FullRule::Days(1), None);
    for number in 0u64..200 {
        let mut disk = well(&rt, disk_with(alloc, BOTH, ALL, &[number]));
        let mut clock = clock_at(&rt, alloc, A_DAY_ON, false);
        let done = prune(&rt, alloc, &mut disk, &mut clock, &rules);
        if disk.faults() == 0 {
            check_done(&rt, &disk);
            return;
        }
        assert!(rt; matches!(done, Err(Halt::Failed(Object::Repo))));
        for oldest in [false, true] {
            let mut again = well(&rt, stopped(alloc, &disk, disk.moment(), oldest));
            check_left(&rt, alloc, &mut again);
        }
    }
    panic!(&rt; "no expire ends without a fault");
}
