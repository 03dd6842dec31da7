// Jobs over links that give fixed bytes, with digests of `sha1sum`.
ghost use Rattle.std.specs.Prelude.{◌≡◌, ◌<◌, ◌^◌, All, IfOk, length, map, vec_len};
ghost use Rattle.worker_protocol.specs.Frames.{FitsJob};
ghost use Rattle.worker_protocol.specs.Views.{job_of};
ghost use Rattle.worker_pool.specs.Run.{AreReady};

use crate::connection::{ASKS_A, SETUP, X, YZ};
use crate::same::{same, well};
use base_devices::Link;
use memory_workers::{MemPartSink, MemScheduler, RawLink};
use std::alloc::{AllocError, Global};
use std::process::Abort;
use worker_pool::{Pool, run_jobs, setup};
use worker_protocol::{Frame, FrameFault, Job, decode_frame};

// At most two bytes of `b`.
const ASKS_B: &[u8] =
    b"J\x00\x00\x00\x19R\x00\x00\x00\x01T\x00\x01b\x00\x00\x00\x00\x00\x00\x00\x00\x00\x00\x00\x00\x00\x00\x00\x02";

// The replies on both jobs, one after the other.
const BOTH: &[u8] =
    b"P\x00\x00\x00\x01xE\x00\x00\x00\x1c\x00\x00\x00\x00\x00\x00\x00\x01\x11\xf6\xad\x8e\xc5*)\x84\xab\xaa\xfd|;Qe\x03x\x5c rP\x00\x00\x00\x02yzE\x00\x00\x00\x1c\x00\x00\x00\x00\x00\x00\x00\x02\x8c\xdacjy\x8co\x89k{\x82\xcf!y~\xc3\xf7\xaduY";

// At most 70,000 bytes of `a`, and at most 65,536 of `b`.
pub(crate) const ASKS_LONG: &[u8] =
    b"J\x00\x00\x00-R\x00\x00\x00\x02T\x00\x01a\x00\x00\x00\x00\x00\x00\x00\x00\x00\x00\x00\x00\x00\x01\x11pT\x00\x01b\x00\x00\x00\x00\x00\x00\x00\x00\x00\x00\x00\x00\x00\x01\x00\x00";

// Digests of this many bytes 7.
const SUM_OF_70000: &[u8] = b"8\xe8\x0e\x04\x15\xbc\xb15\xc1>\xf0\xb7\x13\x98\xf0\xd7k<\xd7\xce";

const SUM_OF_65536: &[u8] =
    b"\xa4\x8f`\xa4\xc5\x09\x9a\x1b\x00\x08[\xe3\xb4,\x9f\x0b\xbb\x94\xd1\xc6";

// The second reply with the digest of the first, and with three bytes.
const OTHER_SUM: &[u8] =
    b"P\x00\x00\x00\x02yzE\x00\x00\x00\x1c\x00\x00\x00\x00\x00\x00\x00\x02\x11\xf6\xad\x8e\xc5*)\x84\xab\xaa\xfd|;Qe\x03x\x5c r";

const TOO_LONG: &[u8] =
    b"P\x00\x00\x00\x03yzyE\x00\x00\x00\x1c\x00\x00\x00\x00\x00\x00\x00\x038:O3I\xa4d@\xbaEY\xfeU\xd1\x10\xe5\xa7\x0d\xb2\xec";

/// The jobs that these frames state; where one states none, its form is at fault.
pub(crate) fn jobs_of(alloc: Global, frames: &[&[u8]]) -> Result<Vec<Job>, FrameFault>
    ensures fits { IfOk result (λ jobs. All (λ j. FitsJob (job_of j)) jobs.items) }
    ensures count { IfOk result (λ jobs. length jobs.items ≡ length frames.now) }
{
    let mut jobs = Vec::new(alloc);
    for frame in frames {
        match decode_frame(alloc, frame) {
            Ok((Frame::Job(job), _)) => jobs.push(job)?,
            _ => return Err(FrameFault::Form { at: 0 }),
        }
    }
    Ok(jobs)
}

// Adds what is held of each item of the job.
fn add_held(text: &mut String, keep: &MemPartSink<'_>, job: usize) -> Result<(), AllocError> {
    text.push(' ')?;
    for item in keep.ended(job) {
        for byte in &item.bytes {
            text.push(char::from(*byte))?;
        }
        text.push('.')?;
    }
    Ok(())
}

/// The result of the two jobs: the ending, the losses, how many links are left, and what is held of each.
pub(crate) fn known<L: Link>(
    alloc: Global,
    links: Vec<L>,
    picks: &[u64],
    fail: &[u64],
) -> Result<String, FrameFault>
    requires few { vec_len links < 2 ^ 32 }
    requires ready { AreReady (map L.link_state links.items) }
{
    let jobs = jobs_of(alloc, &[ASKS_A, ASKS_B])?;
    let mut keep = MemPartSink::new(alloc, &jobs, fail.to_vec(alloc)?)?;
    let mut pool = Pool {
        links,
        scheduler: MemScheduler::new(picks.to_vec(alloc)?),
        lost: Vec::new(alloc),
    };
    let ending = run_jobs(alloc, &jobs, &mut pool, &mut keep, &mut ());
    let left = pool.links.len();
    let lost = pool.lost;
    let mut text = format!(in alloc; "{ending:?} {lost:?} {left} left:")?;
    add_held(&mut text, &keep, 0)?;
    add_held(&mut text, &keep, 1)?;
    Ok(text)
}

// What a link gives, and which of its calls fail.
#[derive(Clone, Copy)]
struct Gives<'a>(&'a [u8], &'a [u64]);

fn raw_link(alloc: Global, gives: Gives<'_>) -> Result<RawLink, AllocError> {
    Ok(RawLink::new(gives.0.to_vec(alloc)?, gives.1.to_vec(alloc)?))
}

// The result of the two jobs over two links.
fn known_two(
    alloc: Global,
    first: Gives<'_>,
    second: Gives<'_>,
    picks: &[u64],
    fail: &[u64],
) -> Result<String, FrameFault> {
    let first = raw_link(alloc, first)?;
    let second = raw_link(alloc, second)?;
    let links = vec![in alloc; first, second]?;
    known(alloc, links, picks, fail)
}

// Two links are picked so, and this call of the keeper fails.
fn check_two(
    rt: &impl Abort,
    alloc: Global,
    first: Gives<'_>,
    second: Gives<'_>,
    picks: &[u64],
    fail: &[u64],
    want: &str,
) {
    let found = well(rt, known_two(alloc, first, second, picks, fail));
    same(rt, found.as_str(), want);
}

const DONE: &str = "Ok(()) [] 2 left: x. yz.";

const SECOND_FAILED: &str = "Ok(()) [Lost { place: 1, cause: Device }] 1 left: x. yz.";

const NO_REPLY: &str = "Ok(()) [Lost { place: 1, cause: Form { at: 5 } }] 1 left: x. yz.";

const LONGER: &str = "Ok(()) [Lost { place: 1, cause: Form { at: 8 } }] 1 left: x. yz.";

const BROKEN_OFF: &str = "Ok(()) [Lost { place: 1, cause: Ended { at: 9 } }] 1 left: x. yz.";

const WRONG_SUM: &str =
    "Ok(()) [Lost { place: 1, cause: Sum { known: Sum([17, 246, 173, 142, 197, 42, 41, 132, 171, 170, 253, 124, 59, 81, 101, 3, 120, 92, 32, 114]), found: Sum([140, 218, 99, 106, 121, 140, 111, 137, 107, 123, 130, 207, 33, 121, 126, 195, 247, 173, 117, 89]) } }] 1 left: x. yz.";

const FIRST_GIVES_NOTHING: &str =
    "Err(WorkersLost) [Lost { place: 0, cause: Ended { at: 0 } }, Lost { place: 1, cause: Ended { at: 0 } }] 0 left:  yz.";

const BOTH_FAILED: &str =
    "Err(WorkersLost) [Lost { place: 0, cause: Device }, Lost { place: 1, cause: Device }] 0 left:  ";

const UNREAD: &str = "Err(Unread { job: 1, item: 0 }) [] 1 left:  ";

const NOT_KEPT: &str = "Err(PartSink) [] 0 left:  ";

#[test]
fn two_jobs_over_two_links(rt: HostRuntime) {
    let alloc = rt.alloc();
    let (x, yz, both) = (Gives(X, &[]), Gives(YZ, &[]), Gives(BOTH, &[]));
    check_two(&rt, alloc, x, yz, &[], &[], DONE);
    check_two(&rt, alloc, x, yz, &[1, 0, 1], &[], DONE);
    check_two(&rt, alloc, x, yz, &[1, 1, 0], &[], DONE);
    // A call on the second fails: as the job is sent, and as its reply is received.
    check_two(&rt, alloc, both, Gives(YZ, &[0]), &[], &[], SECOND_FAILED);
    check_two(
        &rt,
        alloc,
        both,
        Gives(YZ, &[3]),
        &[1, 1],
        &[],
        SECOND_FAILED,
    );
    // What the second gives is no reply, or breaks off.
    check_two(&rt, alloc, both, Gives(ASKS_B, &[]), &[], &[], NO_REPLY);
    check_two(&rt, alloc, both, Gives(TOO_LONG, &[]), &[], &[], LONGER);
    check_two(&rt, alloc, both, Gives(&YZ[..9], &[]), &[], &[], BROKEN_OFF);
    check_two(&rt, alloc, both, Gives(OTHER_SUM, &[]), &[], &[], WRONG_SUM);
}

#[test]
fn jobs_that_end_otherwise(rt: HostRuntime) {
    let alloc = rt.alloc();
    let (nothing, x, yz) = (Gives(b"", &[]), Gives(X, &[]), Gives(YZ, &[]));
    check_two(&rt, alloc, nothing, yz, &[], &[], FIRST_GIVES_NOTHING);
    let (first, second) = (Gives(X, &[0]), Gives(YZ, &[0]));
    check_two(&rt, alloc, first, second, &[], &[], BOTH_FAILED);
    check_two(&rt, alloc, x, Gives(b"U\0\0\0\0", &[]), &[1], &[], UNREAD);
    check_two(&rt, alloc, x, yz, &[], &[1], NOT_KEPT);
}

// Adds the reply on an item with this many bytes 7.
fn add_reply(out: &mut Vec<u8>, size: u32, sum: &[u8]) -> Result<(), AllocError> {
    let sevens = [7u8; 32768];
    let mut left = size;
    while left > 0 {
        let part = left.min(32768);
        out.push(b'P')?;
        out.extend_from_slice(&part.to_be_bytes())?;
        out.extend_from_slice(&sevens[..part as usize])?;
        left -= part;
    }
    out.extend_from_slice(b"E\0\0\0\x1c\0\0\0\0")?;
    out.extend_from_slice(&size.to_be_bytes())?;
    out.extend_from_slice(sum)
}

// A link that gives the reply to the long job three times.
fn long_link(alloc: Global, fail: &[u64]) -> Result<RawLink, AllocError> {
    let mut input = Vec::new(alloc);
    for _ in 0..3 {
        add_reply(&mut input, 70000, SUM_OF_70000)?;
        add_reply(&mut input, 65536, SUM_OF_65536)?;
    }
    Ok(RawLink::new(input, fail.to_vec(alloc)?))
}

// Adds how many bytes 7 are held of each item of the job: none where another byte is.
fn add_sevens(text: &mut String, keep: &MemPartSink<'_>, job: usize) -> Result<(), AllocError> {
    text.push(' ')?;
    for item in keep.ended(job) {
        let all = item.bytes.iter().all(|byte| *byte == 7);
        let count = if all { item.bytes.len() } else { 0 };
        write!(text, "{count}.")?;
    }
    Ok(())
}

// The result of three long jobs over three links, of which the second has calls that fail.
fn known_long(alloc: Global, picks: &[u64], fail: &[u64]) -> Result<String, FrameFault> {
    let jobs = jobs_of(alloc, &[ASKS_LONG, ASKS_LONG, ASKS_LONG])?;
    let first = long_link(alloc, &[])?;
    let second = long_link(alloc, fail)?;
    let third = long_link(alloc, &[])?;
    let links = vec![in alloc; first, second, third]?;
    let mut keep = MemPartSink::new(alloc, &jobs, Vec::new(alloc))?;
    let mut pool = Pool {
        links,
        scheduler: MemScheduler::new(picks.to_vec(alloc)?),
        lost: Vec::new(alloc),
    };
    let ending = run_jobs(alloc, &jobs, &mut pool, &mut keep, &mut ());
    let gone = pool.lost.len();
    let left = pool.links.len();
    let mut text = format!(in alloc; "{ending:?} {gone} lost {left} left:")?;
    add_sevens(&mut text, &keep, 0)?;
    add_sevens(&mut text, &keep, 1)?;
    add_sevens(&mut text, &keep, 2)?;
    Ok(text)
}

fn check_long(rt: &impl Abort, alloc: Global, picks: &[u64], fail: &[u64], want: &str) {
    same(rt, well(rt, known_long(alloc, picks, fail)).as_str(), want);
}

const IN_TURN: &[u64] = &[0, 1, 2, 0, 1, 2, 0, 1, 2];

const LAST_FIRST: &[u64] = &[2, 2, 2, 2, 2, 2, 2, 2, 2, 1, 1, 1];

const ALL: &str = "Ok(()) 0 lost 3 left: 70000.65536. 70000.65536. 70000.65536.";

const BUT_ONE: &str = "Ok(()) 1 lost 2 left: 70000.65536. 70000.65536. 70000.65536.";

#[test]
fn three_long_jobs_over_three_links(rt: HostRuntime) {
    let alloc = rt.alloc();
    check_long(&rt, alloc, &[], &[], ALL);
    check_long(&rt, alloc, LAST_FIRST, &[], ALL);
    check_long(&rt, alloc, IN_TURN, &[], ALL);
    // The second link is lost after its second part, or as it is sent another job.
    check_long(&rt, alloc, &[1, 1, 1], &[7], BUT_ONE);
    check_long(&rt, alloc, IN_TURN, &[7], BUT_ONE);
    check_long(&rt, alloc, LAST_FIRST, &[7], BUT_ONE);
}

// The result of giving two workers their roots, where these calls on their links fail.
fn known_setup(alloc: Global, one: &[u64], other: &[u64]) -> Result<String, FrameFault> {
    let (Frame::Setup(roots), _) = decode_frame(alloc, SETUP)? else {
        return Err(FrameFault::Form { at: 0 });
    };
    let first = raw_link(alloc, Gives(b"", one))?;
    let second = raw_link(alloc, Gives(b"", other))?;
    let mut pool = Pool {
        links: vec![in alloc; first, second]?,
        scheduler: MemScheduler::new(Vec::new(alloc)),
        lost: Vec::new(alloc),
    };
    let ending = setup(alloc, &mut pool, &roots);
    let left = pool.links.len();
    let lost = pool.lost;
    Ok(format!(in alloc; "{ending:?} {lost:?} {left} left")?)
}

fn check_setup(rt: &impl Abort, alloc: Global, one: &[u64], other: &[u64], want: &str) {
    same(rt, well(rt, known_setup(alloc, one, other)).as_str(), want);
}

const FIRST_LOST: &str = "Ok(()) [Lost { place: 0, cause: Device }] 1 left";

const SECOND_LOST: &str = "Ok(()) [Lost { place: 1, cause: Device }] 1 left";

const BOTH_LOST: &str =
    "Err(WorkersLost) [Lost { place: 0, cause: Device }, Lost { place: 1, cause: Device }] 0 left";

#[test]
fn workers_are_known_their_roots(rt: HostRuntime) {
    let alloc = rt.alloc();
    check_setup(&rt, alloc, &[], &[], "Ok(()) [] 2 left");
    check_setup(&rt, alloc, &[0], &[], FIRST_LOST);
    check_setup(&rt, alloc, &[], &[0], SECOND_LOST);
    check_setup(&rt, alloc, &[0], &[0], BOTH_LOST);
}
