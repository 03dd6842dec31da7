// Waits for segments.
ghost use Rattle.base_model.specs.ManifestText.{IsWalPart};

use crate::pushing::{ID, Pushing};
use crate::same::{same, well};
use crate::talks::whole;
use adapters_process::Others;
use archive_lookup::OtherProcesses;
use archive_wait::{AwaitFault, await_segments};
use base_devices::DeviceError;
use base_model::{Segment, WalPart};
use memory_devices::{MemDisk, named_bytes};
use std::alloc::{AllocError, Global};
use std::process::Abort;

const fn segment(log: u32, seg: u32) -> Segment {
    Segment {
        timeline: 1,
        log,
        seg,
    }
}

// The part of the log from one segment to another, as the server of a backup reports them.
fn part(rt: &impl Abort, alloc: Global, first: &str, last: &str) -> WalPart
    ensures { IsWalPart result }
{
    well(rt, whole(rt, alloc, first, last, "")).wal
}

const SECOND: &str =
    "archive/main/16-1/0000000100000000/000000010000000000000002-a9993e364706816aba3e25717850c26c9cd0d89d";

const SECOND_AGAIN: &str =
    "archive/main/16-1/0000000100000000/000000010000000000000002-cb4cc28df0fdbe0ecf9d9662e294b118092a5735";

const LAST_OF_LOG: &str =
    "archive/main/16-1/0000000100000000/000000010000000000000FFF-a9993e364706816aba3e25717850c26c9cd0d89d";

const FIRST_OF_NEXT: &str =
    "archive/main/16-1/0000000100000001/000000010000000100000000-cb4cc28df0fdbe0ecf9d9662e294b118092a5735";

fn disk_of(alloc: Global, names: &[&str], fail: &[u64]) -> Result<MemDisk, AllocError> {
    let mut held: Vec<(&str, &[u8])> = Vec::new(alloc);
    for &name in names {
        held.push((name, b"abc".as_slice()))?;
    }
    let fail = Vec::from_slice(alloc, fail)?;
    MemDisk::new(alloc, named_bytes(alloc, &held)?, fail)
}

/// The result of a wait for at most three steps of others, and how many were taken.
#[derive(Drop)]
struct Waited {
    done: Result<(), AwaitFault>,
    turns: u64,
}

// A wait for the segments from one to another, of a disk with these names. Others push the second segment in the step
// in the step with this number.
fn wait(
    rt: &impl Abort,
    alloc: Global,
    first: &str,
    last: &str,
    names: &[&str],
    at: u64,
) -> Waited {
    let mut repo = well(rt, disk_of(alloc, names, &[]));
    let mut spool = well(rt, disk_of(alloc, &[], &[]));
    let mut others = Pushing::new(alloc, segment(0, 2), at);
    let wal = part(rt, alloc, first, last);
    let done = await_segments(
        alloc,
        &mut repo,
        &mut spool,
        &mut others,
        "main",
        &ID,
        &wal,
        3,
    );
    Waited {
        done,
        turns: others.turns(),
    }
}

const NAME: &str = "000000010000000000000002";

#[test]
fn a_segment_that_comes_in_the_second_turn(rt: HostRuntime) {
    let waited = wait(&rt, rt.alloc(), NAME, NAME, &[], 2);
    same(&rt, waited.done, Ok(()));
    same(&rt, waited.turns, 2);
}

#[test]
fn a_segment_that_comes_in_the_last_turn(rt: HostRuntime) {
    let waited = wait(&rt, rt.alloc(), NAME, NAME, &[], 3);
    same(&rt, waited.done, Ok(()));
    same(&rt, waited.turns, 3);
}

#[test]
fn a_segment_that_does_not_come(rt: HostRuntime) {
    let waited = wait(&rt, rt.alloc(), NAME, NAME, &[], 4);
    let fault = AwaitFault::NotArrived {
        segment: segment(0, 2),
        turns: 3,
    };
    same(&rt, waited.done, Err(fault));
    same(&rt, waited.turns, 3);
}

#[test]
fn no_turn_where_none_is_missing(rt: HostRuntime) {
    let waited = wait(&rt, rt.alloc(), NAME, NAME, &[SECOND], 9);
    same(&rt, waited.done, Ok(()));
    same(&rt, waited.turns, 0);
}

// From the last segment of a log to the first of the next.
#[test]
fn two_logs(rt: HostRuntime) {
    let first = "000000010000000000000FFF";
    let last = "000000010000000100000000";
    let waited = wait(
        &rt,
        rt.alloc(),
        first,
        last,
        &[LAST_OF_LOG, FIRST_OF_NEXT],
        9,
    );
    same(&rt, waited.done, Ok(()));
    let waited = wait(&rt, rt.alloc(), first, last, &[LAST_OF_LOG], 9);
    let fault = AwaitFault::NotArrived {
        segment: segment(1, 0),
        turns: 3,
    };
    same(&rt, waited.done, Err(fault));
}

#[test]
fn a_segment_under_two_names(rt: HostRuntime) {
    let waited = wait(&rt, rt.alloc(), NAME, NAME, &[SECOND_AGAIN, SECOND], 9);
    match waited.done {
        Err(AwaitFault::Ambiguous { first, second }) => {
            same(&rt, first.as_str(), SECOND);
            same(&rt, second.as_str(), SECOND_AGAIN);
        }
        _ => panic!(&rt; "the second segment is stored twice"),
    }
}

#[test]
fn a_repository_that_fails(rt: HostRuntime) {
    let alloc = rt.alloc();
    for call in 0..5u64 {
        let mut repo = well(&rt, disk_of(alloc, &[SECOND], &[call]));
        let mut spool = well(&rt, disk_of(alloc, &[], &[]));
        let mut others = Pushing::new(alloc, segment(0, 2), 9);
        let wal = part(&rt, alloc, NAME, NAME);
        let done = await_segments(
            alloc,
            &mut repo,
            &mut spool,
            &mut others,
            "main",
            &ID,
            &wal,
            3,
        );
        // A segment is looked for by two calls, and all of them twice.
        let want = if call < 4 {
            Err(AwaitFault::Repo)
        } else {
            Ok(())
        };
        same(&rt, done, want);
    }
}

fn program_arguments(alloc: Global, texts: &[&str]) -> Result<Vec<String>, AllocError> {
    let mut arguments = Vec::new(alloc);
    for text in texts {
        arguments.push(String::from_str(alloc, text)?)?;
    }
    Ok(arguments)
}

#[test]
fn the_real_turn(rt: HostRuntime) {
    let alloc = rt.alloc();
    let mut repo = well(&rt, disk_of(alloc, &[], &[]));
    let mut spool = well(&rt, disk_of(alloc, &[], &[]));
    let program = well(&rt, String::from_str(alloc, "true"));
    let mut others = Others::new(rt, program);
    same(&rt, others.turn(&mut repo, &mut spool), Ok(()));
}

// A program that isn't there can't be started.
#[test]
fn the_real_start(rt: HostRuntime) {
    let alloc = rt.alloc();
    for (name, want) in [
        ("true", Ok(())),
        ("/nowhere/no-program", Err(DeviceError::Failed)),
    ] {
        let program = well(&rt, String::from_str(alloc, name));
        let mut others = Others::new(rt, program);
        let arguments = well(&rt, program_arguments(alloc, &["--version"]));
        let done = <Others as OtherProcesses<MemDisk, MemDisk>>::start(&mut others, &arguments);
        same(&rt, done, want);
    }
}
