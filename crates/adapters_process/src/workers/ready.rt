// Waiting for a worker's pipe, with a time limit.
use libc::net::{POLLIN, POLLOUT, poll};
use libc::types::pollfd;
use std::io::ErrorKind;
use std::{fs, io};

/// What a pipe is to be ready for.
#[derive(Clone, Copy)]
pub(crate) enum Ready {
    ToRead,
    ToWrite,
}

// The system is asked to wait for this many milliseconds at once.
const AT_ONCE: u64 = 1000;

// A worker that was silent for long as it is waited for gets this many milliseconds more, if it may be silent so long.
const LOOK: u64 = 60_000;

/// How long a worker may be silent, and how long it was, in milliseconds.
#[derive(Clone, Copy)]
pub(crate) struct Silence {
    pub longest: u64,
    pub so_far: u64,
}

impl Silence {
    // How long its silence may last, once it was waited for.
    fn rest(&self) -> u64 {
        let rest = self.longest.saturating_sub(AT_ONCE).max(AT_ONCE);
        rest.saturating_sub(self.so_far).max(rest.min(LOOK))
    }
}

// Waits until a pipe is ready, or has no other end any more, for at most this many milliseconds, and returns whether.
fn is_ready_within(pipe: i32, ready: Ready, longest: u64) -> bool {
    let events = match ready {
        Ready::ToRead => POLLIN,
        Ready::ToWrite => POLLOUT,
    };
    for _ in 0..longest.div_ceil(AT_ONCE) {
        let mut asked = [pollfd {
            fd: pipe,
            events,
            revents: 0,
        }];
        // a signal ends it early, too
        if poll(&mut asked, longest.min(AT_ONCE) as i32) > 0 {
            return true;
        }
    }
    false
}

// What the system counted so far of what a process read and wrote: None where it can't be asked.
fn work_of(rt: &HostRuntime, process: u32) -> Option<String> {
    let path = format!(in rt.alloc(); "/proc/{process}/io").ok()?;
    fs::read_to_string(rt, path.as_str()).ok()
}

fn is_idle(before: &Option<String>, now: &Option<String>) -> bool {
    match (before, now) {
        (_, None) => true,
        (Some(before), Some(now)) => before.as_str() == now.as_str(),
        (None, Some(_)) => false,
    }
}

/// Waits until a pipe of a worker is ready. One that may be silent no longer may be summing a large file: it is waited for
/// as long as it reads, which is looked at each time that it was silent so long.
pub(crate) fn wait_for(
    rt: &HostRuntime,
    worker: u32,
    pipe: i32,
    ready: Ready,
    silence: Silence,
) -> io::Result<()> {
    if is_ready_within(pipe, ready, silence.longest.min(AT_ONCE)) {
        return Ok(());
    }
    let mut before = work_of(rt, worker);
    let mut longest = silence.rest();
    for _ in 0..u64::MAX {
        if is_ready_within(pipe, ready, longest) {
            return Ok(());
        }
        let now = work_of(rt, worker);
        if is_idle(&before, &now) {
            break;
        }
        before = now;
        longest = silence.longest;
    }
    let text = "it says and reads nothing for too long";
    Err(io::Error::new(ErrorKind::TimedOut, text))
}
