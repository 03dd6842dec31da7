// Two workers that are processes of the system.
ghost use Rattle.std.specs.Prelude.{IfOk};
ghost use Rattle.worker_protocol.specs.Frames.{FitsJob, FitsRoots};
ghost use Rattle.worker_protocol.specs.Views.{job_of, roots_of};

use crate::pace::read_all;
use adapters_process::{RealLink, RoundRobin, Scratch};
use std::alloc::Global;
use std::test::Fail;
use std::{fs, io};
use worker_pool::Pool;
use worker_protocol::{Frame, Job, Roots, decode_frame};

// The roots `t` and `r`.
const SETUP: &[u8] = b"S\0\0\0\x06\0\x01t\0\x01r";

// At most one byte of the file `a`, of which the digest is requested.
const ASKS: &[u8] =
    b"J\x00\x00\x00\x19D\x00\x00\x00\x01T\x00\x01a\x00\x00\x00\x00\x00\x00\x00\x00\x00\x00\x00\x00\x00\x00\x00\x01";

// The reply where it holds `x`, by `sha1sum`.
const REPLY: &[u8] =
    b"E\x00\x00\x00\x1c\x00\x00\x00\x00\x00\x00\x00\x01\x11\xf6\xad\x8e\xc5*)\x84\xab\xaa\xfd|;Qe\x03x\x5c r";

fn job(alloc: Global) -> Result<Job, Fail>
    ensures { IfOk result (λ job. FitsJob (job_of job)) }
{
    match decode_frame(alloc, ASKS) {
        Ok((Frame::Job(job), _)) => Ok(job),
        _ => Err(Fail::new("it is a job")),
    }
}

fn roots(alloc: Global) -> Result<Roots, Fail>
    ensures { IfOk result (λ roots. FitsRoots (roots_of roots)) }
{
    match decode_frame(alloc, SETUP) {
        Ok((Frame::Setup(roots), _)) => Ok(roots),
        _ => Err(Fail::new("it is a setup")),
    }
}

// A child of the shell. It waits for its setup and the first byte of its job, and then for the other child to have come
// as far: only then it replies.
fn child(rt: HostRuntime, folder: &str, own: &str, other: &str) -> io::Result<RealLink> {
    let alloc = rt.alloc();
    let lines = format!(in alloc;
        "cd '{folder}'; head -c 12 >asked-{own}; : >here-{own}; turns=0; while [ ! -e here-{other} ]; do turns=$((turns + 1)); \
        [ $turns -le 300 ] || exit 1; sleep 0.1; done; cat reply"
    )?;
    let arguments = vec![in alloc; String::from_str(alloc, "-ec")?, lines]?;
    Ok(RealLink::new(rt, String::from_str(alloc, "sh")?, arguments))
}

#[test]
fn beside(rt: HostRuntime) -> Result<(), Fail> {
    let alloc = rt.alloc();
    let scratch = Scratch::new(rt, "beside")?;
    fs::write(&rt, scratch.below("reply")?.as_str(), REPLY)?;
    let jobs = vec![in alloc; job(alloc)?, job(alloc)?]?;
    let links = vec![in alloc;
        child(rt, &scratch.path, "one", "two")?,
        child(rt, &scratch.path, "two", "one")?,
    ]?;
    let mut pool = Pool {
        links,
        scheduler: RoundRobin::new(),
        lost: Vec::new(alloc),
    };
    let read = read_all(alloc, &jobs, &roots(alloc)?, &mut pool)?;
    assert_eq!(rt; read, Some(0));
    assert_eq!(rt; pool.links.len(), 2);
    for name in ["asked-one", "asked-two"] {
        let asked = fs::read(&rt, scratch.below(name)?.as_str())?;
        assert!(rt; asked.get(..11) == Some(SETUP));
        assert!(rt; asked.get(11..) == Some(b"J".as_slice()));
    }
    scratch.remove()?;
    Ok(())
}
