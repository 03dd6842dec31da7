//! Stands in for a server, for tests: it serves one connection on the Unix socket of the path that it is given, by
//! fixed answers. It writes the line `ready` once it listens, and ends with 0 where its client ended the talk, else
//! with 1.
//!
//! What is proved, by the contract of the function that is named:
//!
//! - `answer`: the messages that answer a query, by fixed values. The talk itself has no contract.
#![tactic(auto)]

mod answers;
mod serve;
#[cfg(test)]
mod tests;

use serve::serve;
use std::os::unix::net::UnixListener;
use std::process::ExitCode;
use std::{env, fs, io};

// The arguments aren't one path.
const USAGE: u8 = 2;

fn main(rt: HostRuntime) -> ExitCode {
    match socket_of(&rt) {
        Ok(Some(path)) => match stand_in(&rt, &path) {
            Ok(()) => ExitCode::SUCCESS,
            Err(_) => ExitCode::from(1),
        },
        Ok(None) => ExitCode::from(USAGE),
        Err(_) => ExitCode::from(1),
    }
}

// The one argument after the program's own name.
fn socket_of(rt: &HostRuntime) -> io::Result<Option<String>> {
    let mut arguments = env::args(rt)?.skip(1);
    let path = arguments.next();
    if arguments.next().is_some() {
        return Ok(None);
    }
    Ok(path)
}

fn stand_in(rt: &HostRuntime, path: &str) -> io::Result<()> {
    let listener = UnixListener::bind(rt, path)?;
    println!(rt; "ready")?;
    let (mut stream, _) = listener.accept()?;
    fs::remove_file(rt, path)?;
    serve(rt.alloc(), &mut stream)
}
