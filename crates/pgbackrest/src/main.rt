//! The program: the system's files and output, handed to the commands.
#![tactic(auto)]

ghost use Rattle.std.specs.Prelude.{◌≤◌, length, IfOk};

mod asked;
mod command_line;
mod devices;
mod guards;
mod help;
mod hints;
mod levels;
mod log_output;
mod meanings;
mod messages;
mod paths;
mod streams;

use adapters_files::{RealDisk, RealFiles, RealInput, RealInputFiles, RealReplies};
use adapters_process::{RealLink, RoundRobin, end_workers};
use asked::read_asked;
use cmd_trait::Outside;
use devices::{make_devices, put_line};
use guards::{Refusal, is_beside, is_fetch, is_in_recovery, is_root, refusal_of, stop_recovery};
use help::asked_for;
use messages::{Telling, end_progress, failure_of};
use paths::absolute;
use program_run::{Status, run};
use std::io::ErrorKind;
use std::process::ExitCode;
use std::{env, fs, io};
use streams::{has_no_streams, open_streams};
use worker_pool::Pool;
use worker_process::serve;

const NOT_UTF8: u8 = 13;

const NO_OUTPUT: u8 = 87;

const NO_MEMORY: u8 = 90;

// The argument that makes the program a worker.
const LOCAL: &'static str = "local";

// A command uses at most this many workers: a rehearsal four times as many as another.
const WORKERS: usize = 256;

fn main(rt: HostRuntime) -> ExitCode {
    let streams = open_streams(&rt);
    let status = answer(rt);
    drop(streams);
    ExitCode::from(status)
}

// Does what the arguments ask for, and returns the status for the system. A server that is the first process of its
// container adopts what was started besides a push or a fetch, and takes any end but 0 and 1 for a crash of its own.
fn answer(rt: HostRuntime) -> u8 {
    match arguments(&rt) {
        Ok(arguments) if is_worker(&arguments) => work(rt),
        Ok(arguments) if is_beside(&arguments) && has_no_streams(&rt) => answer_to(
            rt, &arguments,
        ).min(1),
        Ok(arguments) if is_fetch(&arguments) && is_in_recovery(&rt) => {
            stop_recovery(&rt, status_of(rt, &arguments).unwrap_or(NO_MEMORY))
        }
        Ok(arguments) => answer_to(rt, &arguments),
        Err(e) => refuse_arguments(rt, &e),
    }
}

// (an argument that can't be read may be that of a fetch)
fn refuse_arguments(rt: HostRuntime, error: &io::Error) -> u8 {
    let status = if error.kind() == ErrorKind::OutOfMemory {
        NO_MEMORY
    } else {
        NOT_UTF8
    };
    if is_in_recovery(&rt) {
        stop_recovery(&rt, status)
    } else {
        status
    }
}

fn answer_to(rt: HostRuntime, arguments: &[String]) -> u8 {
    match asked_for(rt.alloc(), arguments) {
        Ok(Some(text)) => show(rt, &text),
        Ok(None) => status_of(rt, arguments).unwrap_or(NO_MEMORY),
        Err(_) => NO_MEMORY,
    }
}

fn is_worker(arguments: &[String]) -> bool {
    arguments.first().is_some_and(|word| word.as_str() == LOCAL)
}

// Serves the parent that started it, over standard input and output.
fn work(rt: HostRuntime) -> u8 {
    let mut input = RealInput::new(rt);
    let mut out = RealReplies::new(rt);
    let mut tree = RealFiles::new(rt);
    let mut repo = RealFiles::new(rt);
    match serve(rt.alloc(), &mut input, &mut out, &mut tree, &mut repo) {
        Ok(_) => 0,
        Err(_) => 1,
    }
}

fn show(rt: HostRuntime, text: &str) -> u8 {
    match print!(rt; "{text}") {
        Ok(()) => 0,
        Err(_) => NO_OUTPUT,
    }
}

// The arguments after the program's own name. They fail as a whole where one isn't UTF-8.
fn arguments(rt: &HostRuntime) -> io::Result<Vec<String>> {
    let mut arguments = Vec::new(rt.alloc());
    for word in env::args(rt)?.skip(1) {
        arguments.push(word).map_err(|_| ErrorKind::OutOfMemory)?;
    }
    absolute(rt, arguments)
}

// The program's own file, whatever the path has where another process starts it: argument 0 where that isn't known, or
// another file was put in its place.
fn program(rt: &HostRuntime) -> io::Result<String> {
    if let Ok(path) = env::current_exe(rt) {
        let path = path.as_path().as_str();
        if fs::metadata(rt, path).is_ok() {
            return Ok(String::from_str(rt.alloc(), path)?);
        }
    }
    Ok(env::args(rt)?.next().unwrap_or(String::new(rt.alloc())))
}

// A worker: this program, started as it is sent its first frame.
fn worker(rt: HostRuntime, program: &str, timeout: u64) -> io::Result<RealLink> {
    let alloc = rt.alloc();
    let arguments = vec![in alloc; String::from_str(alloc, LOCAL)?]?;
    let mut link = RealLink::new(rt, String::from_str(alloc, program)?, arguments);
    link.set_timeout(timeout);
    Ok(link)
}

// All workers that a command may use.
fn workers(rt: HostRuntime, program: &str, timeout: u64) -> io::Result<Vec<RealLink>>
    ensures { IfOk result (λ links. length links.items ≤ 256) }
{
    let mut links = Vec::new(rt.alloc());
    for number in 0..WORKERS {
        links
            .push(worker(rt, program, timeout)?)
            .map_err(|_| ErrorKind::OutOfMemory)?;
    }
    Ok(links)
}

fn status_of(rt: HostRuntime, arguments: &[String]) -> io::Result<u8> {
    let asked = read_asked(rt, arguments)?;
    let refused = match &asked.command {
        Some(command) => refusal_of(&rt, command)?,
        None => None,
    };
    let mut messages = Telling::new(rt, asked, arguments);
    // (what root leaves where a command is refused could be in the way of the right user)
    if refused.is_none() || !is_root() {
        messages.open_log(arguments)?;
    }
    match refused {
        Some(refusal) => Ok(refuse(messages, &refusal)),
        None => Ok(perform(rt, messages, arguments)?.code()),
    }
}

// Says why the command is refused before anything is touched.
fn refuse(mut messages: Telling, refusal: &Refusal) -> u8 {
    let mut out = messages.output();
    let status = match put_line(&mut out, &refusal.line) {
        Ok(()) => refusal.status,
        Err(_) => NO_OUTPUT,
    };
    // (a person who sees less changes nothing)
    let _ = messages.end(&out, None, status);
    status
}

// The status is that of the run: nothing else makes one.
fn perform(rt: HostRuntime, mut messages: Telling, arguments: &[String]) -> io::Result<Status> {
    let alloc = rt.alloc();
    let program = program(&rt)?;
    let devices = make_devices(rt, program.clone()?, &messages)?;
    let links = workers(rt, &program, devices.worker_timeout)?;
    let mut outside = Outside {
        repo: devices.repo,
        spool: RealDisk::new(rt),
        tree: devices.tree,
        server: devices.server,
        processes: devices.processes,
        clock: devices.clock,
        locks: devices.locks,
        config: RealInputFiles::new(rt),
        out: devices.out,
        pool: Pool {
            links,
            scheduler: RoundRobin::new(),
            lost: Vec::new(alloc),
        },
    };
    let status = run(alloc, arguments, &mut outside);
    let code = status.code();
    if code == 0 {
        end_progress(&outside, messages.progress());
    }
    let _ = messages.end(&outside.out, failure_of(&outside, code), code);
    end_workers(&rt, &mut outside.pool.links);
    Ok(status)
}
