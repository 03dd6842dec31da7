// A worker over devices in memory.
use crate::connection::{DIGEST, DIGEST_JOB, SETUP};
use crate::same::{same, well};
use base_devices::{DeviceError, InputFiles};
use memory_devices::{MemFiles, MemInputFiles, MemOutput, named_bytes};
use std::alloc::{AllocError, Global};
use std::process::Abort;
use worker_process::{ServeFault, serve};
use worker_protocol::{Frame, decode_frame};

const NOTHING_READ: &[u8] =
    b"E\x00\x00\x00\x1c\0\0\0\0\0\0\0\0\xda\x39\xa3\xee\x5e\x6b\x4b\x0d\x32\x55\xbf\xef\x95\x60\x18\x90\xaf\xd8\x07\x09";

const SETUP_AND_JOB: &[u8] =
    b"S\0\0\0\x08\0\x02/a\0\x02/bJ\x00\x00\x00\x22D\x00\x00\x00\x01T\x00\x0aPG_VERSION\0\0\0\0\0\0\0\0\0\0\0\0\0\0\0\x03";

fn start(alloc: Global, input: &[u8], fail: &[u64]) -> Result<MemInputFiles, DeviceError> {
    let bytes = Vec::from_slice(alloc, input)?;
    let mut source = MemInputFiles::new(alloc, Some(bytes), Vec::from_slice(alloc, fail)?);
    open(&mut source)?;
    Ok(source)
}

fn open<S: InputFiles>(source: &mut S) -> Result<bool, DeviceError> {
    source.open("input")
}

// A data folder with `PG_VERSION`, and a repository with nothing.
fn version(alloc: Global, fail: &[u64]) -> Result<MemFiles, AllocError> {
    let files = named_bytes(alloc, &[("PG_VERSION", b"abc")])?;
    MemFiles::new(alloc, files, Vec::from_slice(alloc, fail)?)
}

fn nothing(alloc: Global) -> Result<MemFiles, AllocError> {
    MemFiles::new(alloc, Vec::new(alloc), Vec::new(alloc))
}

fn joined(alloc: Global, pieces: &[&[u8]]) -> Result<Vec<u8>, AllocError> {
    let mut all = Vec::new(alloc);
    for piece in pieces {
        all.extend_from_slice(piece)?;
    }
    Ok(all)
}

// How the worker ends on this input, and what it writes.
fn check_served(
    rt: &impl Abort,
    alloc: Global,
    input: &[u8],
    tree: &mut MemFiles,
    ending: Result<u64, ServeFault>,
    written: &[u8],
) {
    let mut source = well(rt, start(alloc, input, &[]));
    let mut out = MemOutput::new(alloc, Vec::new(alloc));
    let mut repo = well(rt, nothing(alloc));
    same(
        rt,
        serve(alloc, &mut source, &mut out, tree, &mut repo),
        ending,
    );
    same(rt, out.written(), written);
}

// The same for an input in pieces, and of what is written in pieces, where these calls on the data folder fail.
fn check_joined(
    rt: &impl Abort,
    alloc: Global,
    input: &[&[u8]],
    fail: &[u64],
    ending: Result<u64, ServeFault>,
    written: &[&[u8]],
) {
    let input = well(rt, joined(alloc, input));
    let written = well(rt, joined(alloc, written));
    let mut tree = well(rt, version(alloc, fail));
    check_served(rt, alloc, &input, &mut tree, ending, &written);
}

const VANISHED: &[u8] = b"V\0\0\0\0";

const UNREAD: &[u8] = b"U\0\0\0\0";

const TWO_JOBS: &[&[u8]] = &[SETUP, DIGEST_JOB, DIGEST_JOB];

#[test]
fn a_digest_job_is_answered(rt: HostRuntime) {
    check_joined(&rt, rt.alloc(), TWO_JOBS, &[], Ok(2), &[DIGEST, DIGEST]);
}

#[test]
fn its_data_folder_is_opened(rt: HostRuntime) {
    let mut tree = well(&rt, version(rt.alloc(), &[]));
    check_served(&rt, rt.alloc(), SETUP_AND_JOB, &mut tree, Ok(1), DIGEST);
    same(&rt, tree.place(), "/a");
}

const OF_REPO: &[u8] = b"J\0\0\0\x19R\0\0\0\x01R\0\x01x\0\0\0\0\0\0\0\0\0\0\0\0\0\0\0\x03";

const OF_TREE: &[u8] = b"J\0\0\0\x19R\0\0\0\x01T\0\x01x\0\0\0\0\0\0\0\0\0\0\0\0\0\0\0\x03";

#[test]
fn absent_files_and_failing_calls(rt: HostRuntime) {
    let alloc = rt.alloc();
    let input: &[&[u8]] = &[SETUP, OF_TREE, OF_REPO, DIGEST_JOB];
    check_joined(&rt, alloc, input, &[], Ok(3), &[VANISHED, UNREAD, DIGEST]);
    // The folder doesn't open, or a file of it isn't read.
    check_joined(&rt, alloc, TWO_JOBS, &[0], Ok(2), &[UNREAD, UNREAD]);
    check_joined(&rt, alloc, TWO_JOBS, &[1], Ok(2), &[UNREAD, DIGEST]);
}

fn check_cut(rt: &impl Abort, alloc: Global, input: &[u8]) {
    let mut tree = well(rt, version(alloc, &[]));
    let (ending, answer) = match input.len() {
        0 | 13 => (Ok(0), b"".as_slice()),
        52 => (Ok(1), DIGEST),
        end => (Err(ServeFault::Ended { at: end as u64 }), b"".as_slice()),
    };
    check_served(rt, alloc, input, &mut tree, ending, answer);
}

#[test]
fn an_input_cut_at_each_length(rt: HostRuntime) {
    same(&rt, SETUP_AND_JOB.len(), 52);
    for end in 0..=SETUP_AND_JOB.len() {
        check_cut(&rt, rt.alloc(), &SETUP_AND_JOB[..end]);
    }
}

// Why the worker ends where this byte of a setup and a digest job is 0.
fn zero_at(place: usize) -> Result<u64, ServeFault> {
    let at = match place {
        0 => 0,
        4 => 5,
        6 => 9,
        10 => 11,
        13 => 13,
        17 | 18 => 18,
        22 => 19,
        23 => 23,
        25..=35 => 26,
        _ => return Ok(1),
    };
    Err(ServeFault::Form { at })
}

fn check_zero(rt: &impl Abort, alloc: Global, place: usize) {
    let mut input = well(rt, Vec::from_slice(alloc, SETUP_AND_JOB));
    if place < input.len() {
        input[place] = 0;
    }
    let mut tree = well(rt, version(alloc, &[]));
    let ending = zero_at(place);
    let answer = match place {
        51 => NOTHING_READ,
        _ if ending.is_ok() => DIGEST,
        _ => b"".as_slice(),
    };
    check_served(rt, alloc, &input, &mut tree, ending, answer);
}

#[test]
fn an_input_with_each_byte_zero(rt: HostRuntime) {
    for place in 0..52usize {
        check_zero(&rt, rt.alloc(), place);
    }
}

// Why the worker ends at a frame that comes right after its setup, or at one that comes first.
fn check_frame(rt: &impl Abort, alloc: Global, setup: &[u8], frame: &[u8], fault: ServeFault) {
    check_joined(rt, alloc, &[setup, frame], &[], Err(fault), &[]);
}

#[test]
fn frames_that_do_not_come_there(rt: HostRuntime) {
    let alloc = rt.alloc();
    let form = ServeFault::Form { at: 13 };
    check_frame(&rt, alloc, SETUP, b"U\0\0\0\0", form);
    check_frame(&rt, alloc, SETUP, b"P\xff", form);
    check_frame(&rt, alloc, SETUP, SETUP, form);
    let long = ServeFault::TooLong { length: 67108865 };
    check_frame(&rt, alloc, SETUP, b"J\x04\0\0\x01", long);
    let ended = ServeFault::Ended { at: 18 };
    check_frame(&rt, alloc, SETUP, b"J\x04\0\0\0", ended);
    check_frame(&rt, alloc, b"", DIGEST_JOB, ServeFault::Form { at: 0 });
}

const SETUP_AND_LONG_JOB: &[u8] =
    b"S\0\0\0\x08\0\x02/a\0\x02/bJ\0\0\0\x19R\0\0\0\x01T\0\x01f\0\0\0\0\0\0\0\0\0\0\0\0\0\x01\x11\x70";

// A data folder with this many bytes `f`.
fn long_file(alloc: Global, size: usize) -> Result<MemFiles, AllocError> {
    let file = vec![in alloc; b'a'; size]?;
    let files = named_bytes(alloc, &[("f", file.as_slice())])?;
    MemFiles::new(alloc, files, Vec::new(alloc))
}

// The heads of at most four frames: their letters, and the lengths that they state.
fn heads(alloc: Global, written: &[u8]) -> Result<Vec<(u8, u64)>, AllocError> {
    let mut heads = Vec::new(alloc);
    let mut rest = written;
    for _ in 0..4 {
        let Ok((frame, length)) = decode_frame(alloc, rest) else {
            break;
        };
        let kind = rest.first().copied().unwrap_or(0);
        let known = match frame {
            Frame::Part(bytes) => bytes.len() as u64,
            Frame::End { length, .. } => length,
            _ => 0,
        };
        heads.push((kind, known))?;
        rest = rest.get(length..).unwrap_or(&[]);
    }
    Ok(heads)
}

// The heads of the answer to a job for at most 70,000 bytes, where there are this many.
fn check_heads(rt: &impl Abort, alloc: Global, size: usize, wanted: &[(u8, u64)]) {
    let mut source = well(rt, start(alloc, SETUP_AND_LONG_JOB, &[]));
    let mut out = MemOutput::new(alloc, Vec::new(alloc));
    let mut tree = well(rt, long_file(alloc, size));
    let mut repo = well(rt, nothing(alloc));
    same(
        rt,
        serve(alloc, &mut source, &mut out, &mut tree, &mut repo),
        Ok(1),
    );
    same(rt, well(rt, heads(alloc, out.written())).as_slice(), wanted);
}

const OF_70000: &[(u8, u64)] = &[(b'P', 32768), (b'P', 32768), (b'P', 4464), (b'E', 70_000)];

const OF_65536: &[(u8, u64)] = &[(b'P', 32768), (b'P', 32768), (b'E', 65_536)];

const OF_NOTHING: &[(u8, u64)] = &[(b'E', 0)];

#[test]
fn items_are_cut_in_parts(rt: HostRuntime) {
    let alloc = rt.alloc();
    check_heads(&rt, alloc, 70_000, OF_70000);
    check_heads(&rt, alloc, 65_536, OF_65536);
    check_heads(&rt, alloc, 0, OF_NOTHING);
}

// How the worker ends where these calls on its input fail.
fn check_ending(
    rt: &impl Abort,
    alloc: Global,
    out: &mut MemOutput,
    fail: &[u64],
    ending: ServeFault,
) {
    let mut source = well(rt, start(alloc, SETUP_AND_JOB, fail));
    let mut tree = well(rt, version(alloc, &[]));
    let mut repo = well(rt, nothing(alloc));
    same(
        rt,
        serve(alloc, &mut source, out, &mut tree, &mut repo),
        Err(ending),
    );
}

#[test]
fn streams_that_fail(rt: HostRuntime) {
    let alloc = rt.alloc();
    let mut out = MemOutput::new(alloc, Vec::new(alloc));
    check_ending(&rt, alloc, &mut out, &[3], ServeFault::Read);
    let mut out = MemOutput::new(alloc, well(&rt, vec![in alloc; 0]));
    check_ending(&rt, alloc, &mut out, &[], ServeFault::OutputStream);
    same(&rt, out.written().len(), 0);
}
