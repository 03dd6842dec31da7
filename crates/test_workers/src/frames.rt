// Frames that are decoded, and encoded again.
use crate::connection::{DIGEST, DIGEST_JOB};
use crate::same::{same, well};
use std::alloc::Global;
use std::process::Abort;
use worker_protocol::{Frame, FrameFault, Item, JobKind, Root, decode_frame, encode_frame};

fn fault_of(alloc: Global, bytes: &[u8]) -> Option<FrameFault> {
    match decode_frame(alloc, bytes) {
        Ok(_) => None,
        Err(fault) => Some(fault),
    }
}

fn check_item(rt: &impl Abort, item: &Item) {
    same(rt, item.root, Root::DataFolder);
    same(rt, item.path.as_str(), "PG_VERSION");
    same(rt, item.at, 0);
    same(rt, item.size, 3);
}

// The frame that these bytes spell, which has this many of them.
fn check_spelled(rt: &impl Abort, alloc: Global, bytes: &[u8]) -> Option<Frame> {
    let Ok((frame, length)) = decode_frame(alloc, bytes) else {
        return None;
    };
    same(rt, length, bytes.len());
    let again = well(rt, encode_frame(alloc, &frame));
    same(rt, again.as_slice(), bytes);
    Some(frame)
}

#[test]
fn a_digest_job(rt: HostRuntime) {
    same(&rt, DIGEST_JOB.len(), 39);
    match check_spelled(&rt, rt.alloc(), DIGEST_JOB) {
        Some(Frame::Job(job)) => {
            same(&rt, job.kind, JobKind::Digest);
            same(&rt, job.items.len(), 1);
            for item in &job.items {
                check_item(&rt, item);
            }
        }
        _ => assert!(rt; false, "it is a job"),
    }
}

#[test]
fn its_reply(rt: HostRuntime) {
    same(&rt, DIGEST.len(), 33);
    match check_spelled(&rt, rt.alloc(), DIGEST) {
        Some(Frame::End { length, sum }) => {
            same(&rt, length, 3);
            same(&rt, sum, base_text::Sum::of(b"abc"));
        }
        _ => assert!(rt; false, "it is an end"),
    }
}

fn check_cuts(rt: &impl Abort, alloc: Global, frame: &[u8]) {
    for end in 0..frame.len() {
        same(rt, fault_of(alloc, &frame[..end]), Some(FrameFault::Short));
    }
}

#[test]
fn cut_short(rt: HostRuntime) {
    check_cuts(&rt, rt.alloc(), DIGEST_JOB);
    check_cuts(&rt, rt.alloc(), DIGEST);
}

// Why the digest job with this byte 0 is no frame.
fn fault_with_zero(place: usize) -> Option<FrameFault> {
    let at = match place {
        0 => 0,
        4 | 5 => 5,
        9 => 6,
        10 => 10,
        12..=22 => 13,
        _ => return None,
    };
    Some(FrameFault::Form { at })
}

#[test]
fn each_byte_zero(rt: HostRuntime) {
    for place in 0..DIGEST_JOB.len() {
        let mut bytes = well(&rt, Vec::from_slice(rt.alloc(), DIGEST_JOB));
        if place < bytes.len() {
            bytes[place] = 0;
        }
        same(&rt, fault_of(rt.alloc(), &bytes), fault_with_zero(place));
    }
}

fn check_fault(rt: &impl Abort, alloc: Global, bytes: &[u8], fault: FrameFault) {
    same(rt, fault_of(alloc, bytes), Some(fault));
}

fn check_form(rt: &impl Abort, alloc: Global, bytes: &[u8], at: u64) {
    check_fault(rt, alloc, bytes, FrameFault::Form { at });
}

fn check_too_long(rt: &impl Abort, alloc: Global, bytes: &[u8], length: u64) {
    check_fault(rt, alloc, bytes, FrameFault::TooLong { length });
}

const WELL: &[&[u8]] = &[
    b"S\0\0\0\x08\0\x02/a\0\x02/b",
    b"P\0\0\0\x01x",
    b"V\0\0\0\0V",
    b"U\0\0\0\0",
];

#[test]
fn faults(rt: HostRuntime) {
    let alloc = rt.alloc();
    for bytes in WELL {
        same(&rt, fault_of(alloc, bytes), None);
    }
    check_fault(&rt, alloc, b"", FrameFault::Short);
    check_form(&rt, alloc, b"X\0\0\0\0", 0);
    check_form(&rt, alloc, b"V\0\0\0\x01", 5);
    check_form(&rt, alloc, b"P\0\0\0\0", 5);
    check_too_long(&rt, alloc, b"P\0\0\x80\x01", 32769);
    check_too_long(&rt, alloc, b"J\x04\0\0\x01", 67108865);
    // A text that isn't UTF-8, and one that the body cuts short.
    check_form(&rt, alloc, b"S\0\0\0\x06\0\x01\xff\0\x01b", 7);
    check_form(&rt, alloc, b"S\0\0\0\x06\0\x01a\0\x02b", 10);
    // The paths `..` and `a=b`.
    check_form(&rt, alloc, b"J\0\0\0\x1aD\0\0\0\x01T\0\x02..", 13);
    check_form(&rt, alloc, b"J\0\0\0\x1bR\0\0\0\x01R\0\x03a=b", 13);
}
