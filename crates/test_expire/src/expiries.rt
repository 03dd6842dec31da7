// Expiries over a disk in memory.
use crate::fixture::{BOTH, COPY, GOES, Held, INFO, SECOND, STAYS, UNLISTED, disk_with};
use crate::listed::labels_of;
use crate::same::{same, well};
use base_model::BackupKind;
use expire_make::{ExpireFault, Expired, expire};
use expire_rules::{FullRule, Rules};
use memory_devices::MemDisk;
use repo_pair::InfoFault;
use std::alloc::{AllocError, Global};
use std::process::Abort;

const FIRST: &[&str] = &["20240102-030405F"];

const NONE: &[&str] = &[];

pub(crate) const ALL: &[&[Held]] = &[GOES, UNLISTED, STAYS];

// How many full backups are kept, and from how many on the log is.
fn rules(full: u32, archive: Option<u32>) -> Rules {
    Rules {
        full: FullRule::Count(full),
        diff: None,
        archive,
        archive_kind: BackupKind::Full,
    }
}

fn expired(alloc: Global, disk: &mut MemDisk, rules: &Rules) -> Result<Expired, ExpireFault> {
    expire(alloc, disk, "demo", rules, 0)
}

/// An expiry that succeeds.
pub(crate) fn check_expiry(
    rt: &impl Abort,
    alloc: Global,
    disk: &mut MemDisk,
    rules: &Rules,
    labels: &[&str],
    removed: u64,
) {
    let known = well(rt, expired(alloc, disk, rules));
    let wanted = well(rt, labels_of(rt, alloc, labels));
    same(rt, known.labels.as_slice(), wanted.as_slice());
    same(rt, known.removed, removed);
}

pub(crate) fn check_held(rt: &impl Abort, disk: &MemDisk, names: &[Held]) {
    for (name, bytes) in names {
        same(rt, (*name, disk.bytes(name)), (*name, Some(*bytes)));
    }
}

/// These names are gone.
pub(crate) fn check_gone(rt: &impl Abort, disk: &MemDisk, names: &[Held]) {
    for (name, _) in names {
        same(rt, (*name, disk.bytes(name)), (*name, None));
    }
}

fn check_list(rt: &impl Abort, disk: &MemDisk, list: &str) {
    same(rt, disk.bytes(INFO), Some(list.as_bytes()));
    same(rt, disk.bytes(COPY), Some(list.as_bytes()));
}

/// All that expires is gone, and all that stays is there.
pub(crate) fn check_done(rt: &impl Abort, disk: &MemDisk) {
    check_list(rt, disk, SECOND);
    check_gone(rt, disk, GOES);
    check_gone(rt, disk, UNLISTED);
    check_held(rt, disk, STAYS);
    same(rt, disk.faulty_calls(), 0);
}

#[test]
fn a_backup_goes_with_its_log(rt: HostRuntime) {
    let alloc = rt.alloc();
    let mut disk = well(&rt, disk_with(alloc, BOTH, ALL, &[]));
    check_expiry(&rt, alloc, &mut disk, &rules(1, None), FIRST, 6);
    check_done(&rt, &disk);
    check_expiry(&rt, alloc, &mut disk, &rules(1, None), NONE, 0);
    check_done(&rt, &disk);
}

/// The names of the files of segments 1, 3 and 4.
const BESIDE_SPANS: &[usize] = &[2, 4, 5, 6, 7];

#[test]
fn the_span_of_a_kept_backup_stays(rt: HostRuntime) {
    let alloc = rt.alloc();
    let mut disk = well(&rt, disk_with(alloc, BOTH, ALL, &[]));
    check_expiry(&rt, alloc, &mut disk, &rules(2, Some(1)), NONE, 5);
    check_list(&rt, &disk, BOTH);
    check_held(&rt, &disk, STAYS);
    check_gone(&rt, &disk, UNLISTED);
    for (index, (name, bytes)) in GOES.iter().enumerate() {
        let stays = if BESIDE_SPANS.contains(&index) {
            None
        } else {
            Some(*bytes)
        };
        same(&rt, (*name, disk.bytes(name)), (*name, stays));
    }
}

#[test]
fn nothing_goes_without_rules(rt: HostRuntime) {
    let alloc = rt.alloc();
    let mut disk = well(&rt, disk_with(alloc, BOTH, ALL, &[]));
    let rules = Rules {
        full: FullRule::Unset,
        diff: None,
        archive: None,
        archive_kind: BackupKind::Full,
    };
    check_expiry(&rt, alloc, &mut disk, &rules, NONE, 0);
    check_list(&rt, &disk, BOTH);
    check_held(&rt, &disk, GOES);
    check_held(&rt, &disk, STAYS);
    check_gone(&rt, &disk, UNLISTED);
}

/// The list is as before or without the first backup, and what stays is there. The next expiry completes it.
pub(crate) fn check_left(rt: &impl Abort, alloc: Global, disk: &mut MemDisk) {
    check_held(rt, disk, STAYS);
    if disk.bytes(INFO) == Some(BOTH.as_bytes()) {
        check_held(rt, disk, GOES);
    }
    let known = well(rt, expired(alloc, disk, &rules(1, None)));
    let labels = if known.labels.is_empty() { NONE } else { FIRST };
    let wanted = well(rt, labels_of(rt, alloc, labels));
    same(rt, known.labels.as_slice(), wanted.as_slice());
    check_done(rt, disk);
}

fn oldest_of(alloc: Global, name: &str) -> Result<(String, u32), AllocError> {
    Ok((String::from_str(alloc, name)?, 0))
}

fn add_oldest(
    alloc: Global,
    choice: &mut Vec<(String, u32)>,
    held: &[Held],
) -> Result<(), AllocError> {
    for (name, _) in held {
        choice.push(oldest_of(alloc, name)?)?;
    }
    Ok(())
}

// The oldest kept value of each name that an expiry may change.
fn oldest_kept(alloc: Global) -> Result<Vec<(String, u32)>, AllocError> {
    let mut choice = Vec::new(alloc);
    choice.push(oldest_of(alloc, INFO)?)?;
    choice.push(oldest_of(alloc, COPY)?)?;
    for held in ALL {
        add_oldest(alloc, &mut choice, held)?;
    }
    Ok(choice)
}

fn garbage(
    alloc: Global,
    disk: &MemDisk,
    moment: u64,
) -> Result<Vec<(String, Vec<u8>)>, AllocError> {
    let mut unsynced = Vec::new(alloc);
    for name in disk.unsynced(alloc, moment)? {
        unsynced.push((name, b"garbage".to_vec(alloc)?))?;
    }
    Ok(unsynced)
}

fn opened_at(
    alloc: Global,
    disk: &MemDisk,
    moment: u64,
    choice: &[(String, u32)],
    unsynced: &[(String, Vec<u8>)],
) -> Result<MemDisk, AllocError> {
    match disk.image(alloc, moment, choice, unsynced) {
        Ok(names) => MemDisk::new(alloc, names, Vec::new(alloc)),
        Err(_) => MemDisk::new(alloc, Vec::new(alloc), Vec::new(alloc)),
    }
}

/// Opened anew on what a crash at that moment leaves: the newest kept values; or the oldest, and garbage where any
/// bytes may be.
pub(crate) fn stopped(
    alloc: Global,
    disk: &MemDisk,
    moment: u64,
    oldest: bool,
) -> Result<MemDisk, AllocError> {
    if !oldest {
        return opened_at(alloc, disk, moment, &[], &[]);
    }
    let choice = oldest_kept(alloc)?;
    let unsynced = garbage(alloc, disk, moment)?;
    opened_at(alloc, disk, moment, &choice, &unsynced)
}

#[test]
fn stopped_at_each_moment(rt: HostRuntime) {
    let alloc = rt.alloc();
    let mut disk = well(&rt, disk_with(alloc, BOTH, ALL, &[]));
    check_expiry(&rt, alloc, &mut disk, &rules(1, None), FIRST, 6);
    for moment in 0..=disk.moment() {
        for oldest in [false, true] {
            let mut again = well(&rt, stopped(alloc, &disk, moment, oldest));
            check_left(&rt, alloc, &mut again);
        }
    }
    let last = well(&rt, stopped(alloc, &disk, disk.moment(), true));
    check_done(&rt, &last);
}

#[test]
fn each_call_of_the_disk_fails(rt: HostRuntime) {
    let alloc = rt.alloc();
    for number in 0u64..200 {
        let mut disk = well(&rt, disk_with(alloc, BOTH, ALL, &[number]));
        let done = expired(alloc, &mut disk, &rules(1, None));
        if disk.faults() == 0 {
            check_done(&rt, &disk);
            return;
        }
        assert!(rt; matches!(done, Err(ExpireFault::Disk)));
        for oldest in [false, true] {
            let mut again = well(&rt, stopped(alloc, &disk, disk.moment(), oldest));
            check_left(&rt, alloc, &mut again);
        }
    }
    panic!(&rt; "no expiry ends without a fault");
}

#[test]
fn a_stopped_expiry_is_made_good(rt: HostRuntime) {
    let alloc = rt.alloc();
    let mut disk = well(&rt, disk_with(alloc, SECOND, ALL, &[]));
    check_expiry(&rt, alloc, &mut disk, &rules(1, None), NONE, 6);
    check_done(&rt, &disk);
}

#[test]
fn with_a_damaged_pair_nothing_is_done(rt: HostRuntime) {
    let mut disk = well(&rt, disk_with(rt.alloc(), "no list", ALL, &[]));
    let done = expired(rt.alloc(), &mut disk, &rules(1, None));
    assert!(rt; matches!(done, Err(ExpireFault::Info(InfoFault::Damaged { .. }))));
    same(&rt, disk.moment(), 0);
}

#[test]
fn without_a_pair_nothing_is_done(rt: HostRuntime) {
    let none = MemDisk::new(rt.alloc(), Vec::new(rt.alloc()), Vec::new(rt.alloc()));
    let mut none = well(&rt, none);
    let done = expired(rt.alloc(), &mut none, &rules(1, None));
    assert!(rt; matches!(done, Err(ExpireFault::Info(InfoFault::Missing))));
}
