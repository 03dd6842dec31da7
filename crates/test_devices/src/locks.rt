// Tests of locks in memory.
ghost use Rattle.std.specs.Prelude.{Contains};

use crate::same::{same, well};
use base_devices::{DeviceError, LockAnswer, Locks};
use memory_devices::MemLocks;
use std::alloc::{AllocError, Global};
use std::process::Abort;

fn take_by<L: Locks>(locks: &mut L, folder: &str, name: &str) -> Result<LockAnswer, DeviceError>
    requires { ¬ Contains (L.state locks.old).taken name.now }
{
    locks.take(folder, name)
}

fn release_by<L: Locks>(locks: &mut L, name: &str) {
    locks.release(name);
}

// None where the lock was taken already.
fn take(locks: &mut MemLocks, folder: &str, name: &str) -> Option<Result<LockAnswer, DeviceError>> {
    if locks.has(name) {
        return None;
    }
    Some(take_by(locks, folder, name))
}

// What was taken, and after it all that ever was, the last one first.
fn known(alloc: Global, locks: &MemLocks) -> Result<String, AllocError> {
    let mut text = String::new(alloc);
    for name in locks.taken() {
        write!(text, "{name} ")?;
    }
    for (folder, name) in locks.ever_taken() {
        write!(text, "{folder}/{name} ")?;
    }
    Ok(text)
}

const TAKES: &[(&str, &str, Option<Result<LockAnswer, DeviceError>>)] = &[
    ("/l", "one", Some(Ok(LockAnswer::Acquired))),
    ("/l", "held", Some(Ok(LockAnswer::Busy))),
    ("/l", "one", None),
    ("/m", "two", Some(Ok(LockAnswer::Acquired))),
    ("/m", "three", Some(Err(DeviceError::Failed))),
    ("/m", "three", Some(Ok(LockAnswer::Acquired))),
    ("/m", "held", Some(Ok(LockAnswer::Busy))),
];

fn check_known(rt: &impl Abort, alloc: Global, locks: &MemLocks, want: &str) {
    same(rt, well(rt, known(alloc, locks)).as_str(), want);
}

// Others hold one lock, and the fourth take fails.
fn some_locks(alloc: Global) -> Result<MemLocks, AllocError> {
    let held = vec![in alloc; String::from_str(alloc, "held")?]?;
    Ok(MemLocks::new(alloc, held, vec![in alloc; 3]?))
}

#[test]
fn takes(rt: HostRuntime) {
    let alloc = rt.alloc();
    let mut locks = well(&rt, some_locks(alloc));
    for (folder, name, answer) in TAKES {
        same(&rt, take(&mut locks, folder, name), *answer);
    }
    check_known(&rt, alloc, &locks, "three two one /m/three /m/two /l/one ");
    release_by(&mut locks, "two");
    release_by(&mut locks, "none");
    same(
        &rt,
        take(&mut locks, "/l", "two"),
        Some(Ok(LockAnswer::Acquired)),
    );
    check_known(
        &rt,
        alloc,
        &locks,
        "two three one /l/two /m/three /m/two /l/one ",
    );
    same(&rt, locks.refusals(), 2);
    same(&rt, locks.faults(), 1);
}
