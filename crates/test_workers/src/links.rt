// What a link to a worker in memory gives.
use crate::connection::{ASKS_A, DIGEST, DIGEST_JOB, X, YZ};
use crate::same::{same, well};
use base_devices::{DeviceError, Link};
use memory_devices::named_bytes;
use memory_workers::{MeetLink, MemLink};
use std::alloc::{AllocError, Global};
use std::process::Abort;

// At most two bytes of the repository's `a`, and at most one of `b`, which is neither there nor in the data folder.
const ASKS_REPO: &[u8] =
    b"J\x00\x00\x00\x19R\x00\x00\x00\x01R\x00\x01a\x00\x00\x00\x00\x00\x00\x00\x00\x00\x00\x00\x00\x00\x00\x00\x02";

const ASKS_ABSENT: &[u8] =
    b"J\x00\x00\x00\x19R\x00\x00\x00\x01T\x00\x01b\x00\x00\x00\x00\x00\x00\x00\x00\x00\x00\x00\x00\x00\x00\x00\x01";

const ASKS_UNREAD: &[u8] =
    b"J\x00\x00\x00\x19R\x00\x00\x00\x01R\x00\x01b\x00\x00\x00\x00\x00\x00\x00\x00\x00\x00\x00\x00\x00\x00\x00\x01";

fn link(alloc: Global, fail: &[u64]) -> Result<MemLink, AllocError> {
    let tree = named_bytes(alloc, &[("PG_VERSION", b"abc"), ("a", b"x")])?;
    let repo = named_bytes(alloc, &[("a", b"yz")])?;
    MemLink::new(alloc, tree, repo, fail.to_vec(alloc)?)
}

// What a link gives next, as far as there is room for it, for at most 100 bytes.
fn check_next<L: Link>(rt: &impl Abort, link: &mut L, room: usize, want: &[u8]) {
    let mut buf = [0; 100];
    let count = well(rt, link.receive(&mut buf[..room.min(100)]));
    same(rt, buf.get(..count), Some(want));
}

// The whole answer to a frame.
fn check_answer(rt: &impl Abort, alloc: Global, frame: &[u8], answer: &[u8]) {
    let mut link = well(rt, link(alloc, &[]));
    same(rt, link.send(frame), Ok(()));
    check_next(rt, &mut link, 100, answer);
    check_next(rt, &mut link, 100, b"");
}

#[test]
fn a_worker_answers(rt: HostRuntime) {
    let alloc = rt.alloc();
    check_answer(&rt, alloc, DIGEST_JOB, DIGEST);
    check_answer(&rt, alloc, ASKS_A, X);
    check_answer(&rt, alloc, ASKS_REPO, YZ);
    check_answer(&rt, alloc, ASKS_ABSENT, b"V\0\0\0\0");
    check_answer(&rt, alloc, ASKS_UNREAD, b"U\0\0\0\0");
    // A setup, and a frame that is cut short.
    check_answer(&rt, alloc, b"S\0\0\0\x08\0\x02/a\0\x02/b", b"");
    check_answer(&rt, alloc, b"J\0\0\0\x22D", b"");
}

#[test]
fn answers_come_in_order(rt: HostRuntime) {
    let mut link = well(&rt, link(rt.alloc(), &[1, 5]));
    same(&rt, link.send(ASKS_ABSENT), Ok(()));
    same(&rt, link.send(ASKS_UNREAD), Err(DeviceError::Failed));
    same(&rt, link.send(ASKS_UNREAD), Ok(()));
    check_next(&rt, &mut link, 3, b"V\0\0");
    check_next(&rt, &mut link, 7, b"\0\0U\0\0\0\0");
    same(&rt, link.receive(&mut [0; 7]), Err(DeviceError::Failed));
    same(&rt, link.jobs(), 2);
    same(&rt, link.faults(), 2);
}

// Two links to workers whose folders hold `a`.
fn two_links(alloc: Global) -> Result<(MeetLink, MeetLink), AllocError> {
    let tree = named_bytes(alloc, &[("a", b"x")])?;
    let repo = named_bytes(alloc, &[("a", b"yz")])?;
    MeetLink::two(alloc, tree, repo)
}

#[test]
fn two_links_wait_for_each_other(rt: HostRuntime) {
    let (mut one, mut other) = well(&rt, two_links(rt.alloc()));
    same(&rt, one.send(ASKS_A), Ok(()));
    same(&rt, other.send(b"S\0\0\0\x04\0\0\0\0"), Ok(()));
    check_next(&rt, &mut one, 100, b"");
    check_next(&rt, &mut other, 100, b"");
    same(&rt, other.send(ASKS_REPO), Ok(()));
    check_next(&rt, &mut one, 100, X);
    check_next(&rt, &mut other, 100, YZ);
}
