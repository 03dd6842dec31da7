// The connection to a worker process.
ghost use Rattle.std.specs.Prelude.{◌≡◌, ◌≤◌, [], None, IfOk, IsErr, length, slice_get, if◌then◌else◌};
ghost use Rattle.base_devices.specs.Links.{is_byte, is_job, is_read_job, bumped, SendLeaves, ReceiveLeaves};
ghost use Rattle.adapters_process.specs.Counts.{CountsTheSame};
ghost use Rattle.adapters_process.specs.Tail.{tail_of};

use crate::workers::ended::end;
use crate::workers::faults::{Call, Faults};
use crate::workers::pieces::read_some;
use crate::workers::ready::{Ready, Silence, wait_for};
use crate::workers::tail::Tail;
use base_devices::{DeviceError, Link};
use std::io;
use std::io::{BufReader, ErrorKind, Write};
use std::os::fd::AsRawFd;
use std::process::{Child, ChildStdout, Command, Stdio};
use std::time::Instant;

// As many bytes as a pipe holds.
const PIPE: usize = 1 << 16;

// As many bytes as a pipe takes at once that is ready to be written to.
const AT_ONCE: usize = 4096;

// A process that was started. Its pipe is emptied at once, so that it can continue while what was read is looked at.
#[derive(Drop)]
struct Started {
    child: Child,
    output: BufReader<ChildStdout>,
}

/// A worker process, which reads frames from its standard input and writes its replies to its standard output. It is
/// started as the first frame is sent, and ends as its input does, when the link is dropped. Its answers are
/// unknown.
#[derive(Drop)]
pub struct RealLink {
    rt: HostRuntime,
    program: String,
    arguments: Vec<String>,
    started: Option<Started>,
    // the process of a worker whose pipes were closed, and that wasn't waited for yet
    ending: Option<Child>,
    // how long it may be silent, in milliseconds
    longest: Option<u64>,
    // when it last took or sent something
    last: Option<Instant>,
    jobs: u64,
    reads: u64,
    given: Tail,
    faults: Faults,
}

fn has_byte(bytes: &[u8], at: usize, byte: u8) -> bool
    ensures { result ≡ is_byte byte (slice_get bytes.now at) }
{
    match bytes.get(at) {
        Some(&found) => found == byte,
        None => false,
    }
}

fn start(rt: &HostRuntime, program: &str, arguments: &[String]) -> io::Result<Started> {
    let mut command = Command::new(rt.alloc(), program)?;
    for word in arguments {
        command.arg(word.as_str())?;
    }
    command.stdin(Stdio::piped());
    command.stdout(Stdio::piped());
    let mut child = command.spawn(rt)?;
    let Some(output) = child.stdout.take() else {
        return broken();
    };
    let output = BufReader::with_capacity(rt.alloc(), PIPE, output)?;
    Ok(Started { child, output })
}

// Writes a frame to a worker, in parts of which each is taken at once.
fn give(
    rt: &HostRuntime,
    started: &mut Started,
    frame: &[u8],
    silence: Option<Silence>,
) -> io::Result<()> {
    let worker = started.child.id();
    let Some(input) = &mut started.child.stdin else {
        return broken();
    };
    let Some(silence) = silence else {
        return input.write_all(frame);
    };
    for part in frame.chunks(AT_ONCE) {
        wait_for(rt, worker, input.as_raw_fd(), Ready::ToWrite, silence)?;
        input.write_all(part)?;
    }
    Ok(())
}

// What a worker sends next.
fn receive_reply(
    rt: &HostRuntime,
    started: &mut Started,
    buf: &mut [u8],
    silence: Option<Silence>,
) -> io::Result<usize>
    ensures { IfOk result (λ n. n ≤ length buf.old) }
{
    if let Some(silence) = silence {
        if started.output.buffer().is_empty() {
            let pipe = started.output.get_ref().as_raw_fd();
            wait_for(rt, started.child.id(), pipe, Ready::ToRead, silence)?;
        }
    }
    read_some(&mut started.output, buf)
}

// No such pipe is there.
fn broken<T>() -> io::Result<T>
    ensures { IsErr result }
{
    Err(io::Error::from(ErrorKind::BrokenPipe))
}

// What is done with the worker of a program.
fn call_of<'a>(rt: &HostRuntime, act: &'a str, program: &'a str) -> Call<'a> {
    Call {
        alloc: rt.alloc(),
        act,
        root: "",
        name: program,
        to: None,
    }
}

impl RealLink {
    /// A worker of this program, started with these arguments.
    pub fn new(rt: HostRuntime, program: String, arguments: Vec<String>) -> Self
        ensures program { result.program ≡ program }
        ensures arguments { result.arguments ≡ arguments }
        ensures counts { (result.jobs ≡ 0) × (result.reads ≡ 0) × (result.faults.count ≡ 0) }
        ensures given { tail_of result.given ≡ [] }
    {
        RealLink {
            rt,
            program,
            arguments,
            started: None,
            ending: None,
            longest: None,
            last: None,
            jobs: 0,
            reads: 0,
            given: Tail::new(),
            faults: Faults::new(),
        }
    }

    /// From now on a worker is lost that sends nothing, takes nothing and reads nothing for this long. 0 is never.
    pub fn set_timeout(&mut self, seconds: u64) {
        self.longest = if seconds == 0 {
            None
        } else {
            Some(seconds.saturating_mul(1000))
        };
    }

    /// What failed last, for a person to read.
    pub fn last_failure(&self) -> Option<&str> {
        self.faults.last()
    }

    // Closes the worker's pipes. It ends as it finds that it has nothing to read, or nobody to write to.
    pub(crate) fn close(&mut self) {
        let Some(started) = self.started.take() else {
            return;
        };
        let Started { mut child, output } = started;
        drop(output);
        drop(child.stdin.take());
        self.ending = Some(child);
    }

    // Whether a worker whose pipes were closed has ended. It is waited for then.
    pub(crate) fn has_ended(&mut self) -> bool {
        let is_there = match &mut self.ending {
            Some(child) => matches!(child.try_wait(), Ok(None)),
            None => false,
        };
        if !is_there {
            self.ending = None;
        }
        !is_there
    }

    // How long it may be silent, and how long it was.
    fn silence(&self) -> Option<Silence> {
        let longest = self.longest?;
        let so_far = match (self.last, Instant::now(&self.rt)) {
            (Some(last), Ok(now)) => u64::try_from(now.duration_since(last).as_millis()).unwrap_or(
                u64::MAX,
            ),
            _ => 0,
        };
        Some(Silence { longest, so_far })
    }

    // It took or sent something.
    fn note(&mut self)
        ensures { CountsTheSame self.old self.new }
    {
        self.last = Instant::now(&self.rt).ok();
    }

    fn put(&mut self, frame: &[u8]) -> io::Result<()>
        ensures { CountsTheSame self.old self.new }
    {
        if self.started.is_none() {
            self.started = Some(start(&self.rt, self.program.as_str(), &self.arguments)?);
        }
        let silence = self.silence();
        let done = match &mut self.started {
            Some(started) => give(&self.rt, started, frame, silence),
            None => broken(),
        };
        match done {
            Ok(()) => self.note(),
            Err(_) => self.end_worker(),
        }
        done
    }

    fn take(&mut self, buf: &mut [u8]) -> io::Result<usize>
        ensures room { IfOk result (λ n. n ≤ length buf.old) }
        ensures same { CountsTheSame self.old self.new }
    {
        let silence = self.silence();
        let done = match &mut self.started {
            Some(started) => receive_reply(&self.rt, started, buf, silence),
            None => broken(),
        };
        let is_over = matches!(done, Ok(0)) && !buf.is_empty();
        if done.is_err() || is_over {
            self.end_worker();
        } else {
            self.note();
        }
        done
    }

    // Ends a worker that failed or sends no more, and waits for it.
    fn end_worker(&mut self)
        ensures { CountsTheSame self.old self.new }
    {
        if let Some(started) = &mut self.started {
            end(&self.rt, &mut started.child);
        }
    }

    // Counts a frame that was sent.
    fn count(&mut self, frame: &[u8])
        ensures jobs { self.new.jobs ≡ (if is_job frame.now then bumped self.old.jobs else self.old.jobs) }
        ensures reads { self.new.reads ≡ (if is_read_job frame.now then bumped self.old.reads else self.old.reads) }
        ensures same { (self.new.given ≡ self.old.given) × (self.new.faults ≡ self.old.faults) }
    {
        if has_byte(frame, 0, b'J') {
            self.jobs = self.jobs.saturating_add(1);
            if has_byte(frame, 5, b'R') {
                self.reads = self.reads.saturating_add(1);
            }
        }
    }
}

impl Link for RealLink {
    ghost link_state = { λ l. record {
      faults = l.faults.count;
      jobs = l.jobs;
      reads = l.reads;
      given = tail_of l.given;
      known = None;
    } };

    fn send(&mut self, bytes: &[u8]) -> Result<(), DeviceError> {
        let done = self.put(bytes);
        let call = call_of(&self.rt, "writing to a worker", &self.program);
        match self.faults.counted(&call, done) {
            Ok(()) => {
                self.count(bytes);
                Ok(())
            }
            Err(error) => Err(error),
        }
    }

    fn receive(&mut self, buf: &mut [u8]) -> Result<usize, DeviceError> {
        let done = self.take(buf);
        let call = call_of(&self.rt, "reading from a worker", &self.program);
        match self.faults.counted(&call, done) {
            Ok(n) => {
                self.given.add(&buf[..n]);
                Ok(n)
            }
            Err(error) => Err(error),
        }
    }
}
