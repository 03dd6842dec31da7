//! Measures how fast files are read by workers, for the bench: `bench_pace PROGRAM FOLDER FILES SIZE` has two workers
//! of the program read this many files `0`, `1`, .. of the folder, of this many bytes each, which are counted here.
//! Then one pass of SHA-1 is made over as many bytes in memory. It writes how many they are, and the microseconds of
//! both. `bench_pace FROM TO SIZE` copies a file of this many bytes, whole MiB, and sums them on the way, by one
//! process: what a backup or a restore of it costs at least.
#![tactic(auto)]

mod pace;
mod summed_copy;
#[cfg(test)]
mod tests;
mod worker_frames;

use pace::{pace, sum_pace};
use std::process::ExitCode;
use std::{env, io};
use summed_copy::copy_with_sum;

// The arguments are those of neither task.
const USAGE: u8 = 2;

/// What is to be read, and by which program.
#[derive(Drop)]
pub struct Asked {
    pub program: String,
    pub folder: String,
    pub files: u32,
    pub size: u64,
}

/// What the arguments ask for.
#[derive(Drop)]
enum Task {
    Pace(Asked),
    Copy {
        from: String,
        to: String,
        bytes: u64,
    },
}

fn main(rt: HostRuntime) -> ExitCode {
    let task = match task_by(&rt) {
        Ok(Some(task)) => task,
        Ok(None) => return ExitCode::from(USAGE),
        Err(_) => return ExitCode::from(1),
    };
    match measure(rt, task) {
        Ok(true) => ExitCode::SUCCESS,
        Ok(false) | Err(_) => ExitCode::from(1),
    }
}

fn task_by(rt: &HostRuntime) -> io::Result<Option<Task>> {
    let mut arguments = env::args(rt)?.skip(1);
    let (Some(first), Some(second), Some(third)) = (
        arguments.next(),
        arguments.next(),
        arguments.next(),
    ) else {
        return Ok(None);
    };
    let Some(fourth) = arguments.next() else {
        return Ok(match third.parse() {
            Ok(bytes) => Some(Task::Copy {
                from: first,
                to: second,
                bytes,
            }),
            Err(_) => None,
        });
    };
    let (Ok(files), Ok(size)) = (third.parse(), fourth.parse()) else {
        return Ok(None);
    };
    Ok(Some(Task::Pace(Asked {
        program: first,
        folder: second,
        files,
        size,
    })))
}

// Whether all files were read.
fn measure(rt: HostRuntime, task: Task) -> io::Result<bool> {
    match task {
        Task::Pace(asked) => tell_pace(rt, asked),
        Task::Copy { from, to, bytes } => {
            let sum = copy_with_sum(&rt, &from, &to, bytes)?;
            let Ok(sum) = sum.hex(rt.alloc()) else {
                return Ok(false);
            };
            println!(rt; "{sum}")?;
            Ok(true)
        }
    }
}

// Whether all files were read.
fn tell_pace(rt: HostRuntime, asked: Asked) -> io::Result<bool> {
    let Some((bytes, workers)) = pace(rt, &asked)? else {
        return Ok(false);
    };
    let sum = sum_pace(&rt, bytes)?;
    println!(rt; "{bytes} {workers} {sum}")?;
    Ok(true)
}
