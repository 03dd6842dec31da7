// Locks by files of the system.
use crate::same::{same, shell, well};
use adapters_files::RealLocks;
use adapters_process::Scratch;
use base_devices::{DeviceError, LockAnswer, Locks};

// What a taking of one lock by a program of its own answers, with the counts of refusals and faults.
fn take_anew(
    rt: HostRuntime,
    folder: &str,
    name: &str,
) -> (Result<LockAnswer, DeviceError>, u64, u64) {
    let mut locks = RealLocks::new(rt);
    let answer = locks.take(folder, name);
    (answer, locks.refusals(), locks.faults())
}

const TAKEN: (Result<LockAnswer, DeviceError>, u64, u64) = (Ok(LockAnswer::Acquired), 0, 0);

const HELD: (Result<LockAnswer, DeviceError>, u64, u64) = (Ok(LockAnswer::Busy), 1, 0);

const FAULT: (Result<LockAnswer, DeviceError>, u64, u64) = (Err(DeviceError::Failed), 0, 1);

const MODES: &str = "[ \"$(stat -c %a a a/b a/b/one.lock | tr '\\n' ' ')\" = '700 700 600 ' ]";

#[test]
fn takes_and_releases(rt: HostRuntime) {
    let scratch = well(&rt, Scratch::new(rt, "locks"));
    let folder = well(&rt, scratch.below("a/b"));
    let mut first = RealLocks::new(rt);
    same(
        &rt,
        first.take(&folder, "one.lock"),
        Ok(LockAnswer::Acquired),
    );
    same(&rt, take_anew(rt, &folder, "one.lock"), HELD);
    same(&rt, take_anew(rt, &folder, "two.lock"), TAKEN);
    // the one before ended with its owner
    same(&rt, take_anew(rt, &folder, "two.lock"), TAKEN);
    // a folder is no lock's file
    same(&rt, take_anew(rt, &folder, ".."), FAULT);
    same(&rt, take_anew(rt, &scratch.path, "one.lock"), TAKEN);
    shell(&rt, &scratch, MODES);
    first.release("two.lock");
    same(&rt, take_anew(rt, &folder, "one.lock"), HELD);
    first.release("one.lock");
    same(&rt, take_anew(rt, &folder, "one.lock"), TAKEN);
    let file = well(&rt, scratch.below("one.lock"));
    same(&rt, take_anew(rt, &file, "one.lock"), FAULT);
    well(&rt, scratch.remove());
}

// What is at the place of a lock, or of its folder, and what taking it answers.
const PLACES: &[(&str, Result<LockAnswer, DeviceError>)] = &[
    ("true", Ok(LockAnswer::Acquired)),
    ("mkdir lock", Ok(LockAnswer::Acquired)),
    ("mkdir -m 1777 lock", Ok(LockAnswer::Acquired)),
    ("mkdir -m 777 lock", Err(DeviceError::Failed)),
    ("mkdir -m 702 lock", Err(DeviceError::Failed)),
    ("mkdir -m 2775 lock", Ok(LockAnswer::Acquired)),
    ("mkdir other; ln -s other lock", Ok(LockAnswer::Acquired)),
    ("mkdir lock; mkfifo lock/one.lock", Err(DeviceError::Failed)),
    (
        "mkdir lock; >other; ln -s ../other lock/one.lock",
        Err(DeviceError::Failed),
    ),
    (
        "mkdir lock; ln -s ../absent lock/one.lock",
        Err(DeviceError::Failed),
    ),
];

#[test]
fn is_made_at_no_other_place(rt: HostRuntime) {
    let scratch = well(&rt, Scratch::new(rt, "places"));
    let folder = well(&rt, scratch.below("lock"));
    for (before, wanted) in PLACES {
        shell(&rt, &scratch, before);
        same(&rt, take_anew(rt, &folder, "one.lock").0, *wanted);
        shell(&rt, &scratch, "[ ! -e absent ]; rm -rf lock other");
    }
    well(&rt, scratch.remove());
}

// A lock of a guarded repository that one program holds, and what another finds that has its locks elsewhere.
const GUARDED: &[(&str, &str, LockAnswer)] = &[
    ("s-archive.lock", "s-archive.lock", LockAnswer::Busy),
    ("s-backup.lock", "s-backup.lock", LockAnswer::Busy),
    ("s-archive.lock", "s-backup.lock", LockAnswer::Acquired),
    ("s-archive.lock", "t-archive.lock", LockAnswer::Acquired),
    (
        "absent-archive.lock",
        "absent-archive.lock",
        LockAnswer::Busy,
    ),
    (
        "absent-archive.lock",
        "absent-backup.lock",
        LockAnswer::Acquired,
    ),
    (
        "absent-archive.lock",
        "s-archive.lock",
        LockAnswer::Acquired,
    ),
    ("other.lock", "other.lock", LockAnswer::Acquired),
];

#[test]
fn guards_the_repository(rt: HostRuntime) {
    let scratch = well(&rt, Scratch::new(rt, "guarded"));
    shell(&rt, &scratch, "mkdir -p archive/s archive/t backup/s");
    let one = well(&rt, scratch.below("one"));
    let two = well(&rt, scratch.below("two"));
    for (held, asked, wanted) in GUARDED {
        let mut first = RealLocks::new(rt);
        let mut second = RealLocks::new(rt);
        let mut third = RealLocks::new(rt);
        well(&rt, first.guard(&scratch.path));
        well(&rt, second.guard(&scratch.path));
        well(&rt, third.guard(&scratch.path));
        same(&rt, first.take(&one, held), Ok(LockAnswer::Acquired));
        same(&rt, second.take(&two, asked), Ok(*wanted));
        second.release(asked);
        first.release(held);
        // with the lock its folder is free
        same(&rt, third.take(&two, held), Ok(LockAnswer::Acquired));
    }
    well(&rt, scratch.remove());
}

// The file of a lock that is held is removed: the next program makes another, and the guard finds it held.
#[test]
fn holds_without_its_file(rt: HostRuntime) {
    let scratch = well(&rt, Scratch::new(rt, "exchanged"));
    shell(&rt, &scratch, "mkdir -p archive/s");
    let folder = well(&rt, scratch.below("lock"));
    let mut first = RealLocks::new(rt);
    well(&rt, first.guard(&scratch.path));
    same(
        &rt,
        first.take(&folder, "s-archive.lock"),
        Ok(LockAnswer::Acquired),
    );
    shell(&rt, &scratch, "rm lock/s-archive.lock");
    let mut second = RealLocks::new(rt);
    well(&rt, second.guard(&scratch.path));
    same(
        &rt,
        second.take(&folder, "s-archive.lock"),
        Ok(LockAnswer::Busy),
    );
    same(&rt, second.refusals(), 1);
    well(&rt, scratch.remove());
}
