// Jobs over links to workers in memory, which read their files.
ghost use Rattle.std.specs.Prelude.{◌≡◌, IfOk, length, map};
ghost use Rattle.worker_pool.specs.Run.{AreReady};

use crate::dispatch::{ASKS_LONG, jobs_of, known};
use crate::same::{same, well};
use base_devices::Link;
use memory_devices::named_bytes;
use memory_workers::{MeetLink, MemLink, MemPartSink, MemScheduler};
use std::alloc::{AllocError, Global};
use std::process::Abort;
use worker_pool::{Pool, run_jobs};
use worker_protocol::FrameFault;

// At most 70,000 bytes of one file, and at most 65,536 of the next.
const ASKS_B_AND_C: &[u8] =
    b"J\x00\x00\x00-R\x00\x00\x00\x02T\x00\x01b\x00\x00\x00\x00\x00\x00\x00\x00\x00\x00\x00\x00\x00\x01\x11pT\x00\x01c\x00\x00\x00\x00\x00\x00\x00\x00\x00\x00\x00\x00\x00\x01\x00\x00";

const ASKS_C_AND_A: &[u8] =
    b"J\x00\x00\x00-R\x00\x00\x00\x02T\x00\x01c\x00\x00\x00\x00\x00\x00\x00\x00\x00\x00\x00\x00\x00\x01\x11pT\x00\x01a\x00\x00\x00\x00\x00\x00\x00\x00\x00\x00\x00\x00\x00\x01\x00\x00";

// A link for each of these lists of calls that fail, all to workers whose data folder holds these files.
fn links_to(
    alloc: Global,
    files: &[(&str, &[u8])],
    fails: &[&[u64]],
) -> Result<Vec<MemLink>, AllocError>
    ensures count { IfOk result (λ links. length links.items ≡ length fails.now) }
    ensures ready { IfOk result (λ links. AreReady (map ⟦<MemLink as Link>⟧.link_state links.items)) }
{
    let mut links = Vec::new(alloc);
    for fail in fails {
        let tree = named_bytes(alloc, files)?;
        links.push(MemLink::new(alloc, tree, Vec::new(alloc), fail.to_vec(alloc)?)?)?;
    }
    Ok(links)
}

const SHORT_FILES: &[(&str, &[u8])] = &[("a", b"x"), ("b", b"yz")];

const DONE: &str = "Ok(()) [] 2 left: x. yz.";

const SECOND_FAILED: &str = "Ok(()) [Lost { place: 1, cause: Device }] 1 left: x. yz.";

// The result of the two jobs over two workers.
fn known_two(alloc: Global, fail: &[u64], picks: &[u64]) -> Result<String, FrameFault> {
    let links = links_to(alloc, SHORT_FILES, &[&[], fail])?;
    known(alloc, links, picks, &[])
}

// Two workers are picked so, and these calls on the second fail.
fn check_two(rt: &impl Abort, alloc: Global, fail: &[u64], picks: &[u64], want: &str) {
    same(rt, well(rt, known_two(alloc, fail, picks)).as_str(), want);
}

#[test]
fn two_jobs_over_two_workers(rt: HostRuntime) {
    let alloc = rt.alloc();
    check_two(&rt, alloc, &[], &[], DONE);
    // A frame of the second is received first.
    check_two(&rt, alloc, &[], &[1, 0, 1], DONE);
    check_two(&rt, alloc, &[], &[1, 1, 0], DONE);
    // A call on the second fails: as its job is sent, right after that, and after its part.
    check_two(&rt, alloc, &[0], &[], SECOND_FAILED);
    check_two(&rt, alloc, &[1], &[1, 1], SECOND_FAILED);
    check_two(&rt, alloc, &[3], &[1, 1], SECOND_FAILED);
}

// The result of the two jobs over links that wait for each other.
fn known_meeting(alloc: Global) -> Result<String, FrameFault> {
    let files = named_bytes(alloc, SHORT_FILES)?;
    let (one, other) = MeetLink::two(alloc, files, Vec::new(alloc))?;
    let links = vec![in alloc; one, other]?;
    known(alloc, links, &[], &[])
}

#[test]
fn both_jobs_are_sent_before_one_is_received(rt: HostRuntime) {
    same(&rt, well(&rt, known_meeting(rt.alloc())).as_str(), DONE);
}

// Adds what is held of each item of the job: its first byte and how many there are, if all are the same.
fn add_held(text: &mut String, keep: &MemPartSink<'_>, job: usize) -> Result<(), AllocError> {
    text.push(' ')?;
    for item in keep.ended(job) {
        let first = item.bytes.first().copied().unwrap_or(b'-');
        let is_one = item.bytes.iter().all(|byte| *byte == first);
        let letter = if is_one { char::from(first) } else { '?' };
        write!(text, "{letter}{}.", item.bytes.len())?;
    }
    Ok(())
}

// The result of three long jobs over three workers whose data folder holds these files.
fn known_three(
    alloc: Global,
    files: &[(&str, &[u8])],
    picks: &[u64],
    fail: &[u64],
) -> Result<String, FrameFault> {
    let links = links_to(alloc, files, &[&[], fail, &[]])?;
    let jobs = jobs_of(alloc, &[ASKS_LONG, ASKS_B_AND_C, ASKS_C_AND_A])?;
    let mut keep = MemPartSink::new(alloc, &jobs, Vec::new(alloc))?;
    let mut pool = Pool {
        links,
        scheduler: MemScheduler::new(picks.to_vec(alloc)?),
        lost: Vec::new(alloc),
    };
    let ending = run_jobs(alloc, &jobs, &mut pool, &mut keep, &mut ());
    let gone = pool.lost.len();
    let left = pool.links.len();
    let mut text = format!(in alloc; "{ending:?} {gone} lost {left} left:")?;
    add_held(&mut text, &keep, 0)?;
    add_held(&mut text, &keep, 1)?;
    add_held(&mut text, &keep, 2)?;
    Ok(text)
}

// Three workers are picked so, and these calls on the second fail.
fn check_three(
    rt: &impl Abort,
    alloc: Global,
    files: &[(&str, &[u8])],
    picks: &[u64],
    fail: &[u64],
    want: &str,
) {
    same(
        rt,
        well(rt, known_three(alloc, files, picks, fail)).as_str(),
        want,
    );
}

const IN_TURN: &[u64] = &[0, 1, 2, 0, 1, 2, 0, 1, 2];

const LAST_FIRST: &[u64] = &[2, 2, 2, 2, 2, 2, 2, 2, 2, 1, 1, 1];

const ALL: &str = "Ok(()) 0 lost 3 left: a70000.b65536. b70000.c65536. c70000.a65536.";

const BUT_ONE: &str = "Ok(()) 1 lost 2 left: a70000.b65536. b70000.c65536. c70000.a65536.";

#[test]
fn three_long_jobs_over_three_workers(rt: HostRuntime) {
    let alloc = rt.alloc();
    let a = well(&rt, vec![in alloc; b'a'; 70000]);
    let b = well(&rt, vec![in alloc; b'b'; 70000]);
    let c = well(&rt, vec![in alloc; b'c'; 70000]);
    let files: &[(&str, &[u8])] = &[("a", &a), ("b", &b), ("c", &c)];
    check_three(&rt, alloc, files, &[], &[], ALL);
    check_three(&rt, alloc, files, LAST_FIRST, &[], ALL);
    check_three(&rt, alloc, files, IN_TURN, &[], ALL);
    // The second link is lost after its second part, or as it is sent its job.
    check_three(&rt, alloc, files, &[], &[0], BUT_ONE);
    check_three(&rt, alloc, files, &[1, 1, 1], &[7], BUT_ONE);
    check_three(&rt, alloc, files, IN_TURN, &[7], BUT_ONE);
    check_three(&rt, alloc, files, LAST_FIRST, &[7], BUT_ONE);
}
