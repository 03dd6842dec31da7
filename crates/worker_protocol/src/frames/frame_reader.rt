// Reads the frame at the front of some bytes.
ghost use Rattle.std.specs.Prelude.{◌≡◌, ◌-◌, ◌≤◌, length, drop, IfOk, IfErr, Ok, Err};
ghost use Rattle.worker_protocol.specs.Frames.{IsPrefix};
ghost use Rattle.worker_protocol.specs.declared.frames.fault.FrameFault.TheVariants.{Short};
ghost use Rattle.worker_protocol.specs.Views.{item_of, items_of, frame_of, rest_of};
ghost use Rattle.worker_protocol.specs.Decoding.{IsOnlyReading, IsSettled};
ghost use Rattle.worker_protocol.specs.Reading.{Gives, is_type, item_at, items_at, job_at, setup_at, end_at, part_at, body_at, frame_at, IsCutShort};

use crate::frames::fault::FrameFault;
use crate::frames::fields::{Rest, field, kind_of, path_of, root_of, text_of, u32_of, u64_of};
use crate::frames::frames::{Frame, Item, Job, Roots};
use base_text::Sum;
use std::alloc::Global;

#[tactic(auto, unfolding(crate::specs::Reading::item_at))]
fn item_of(alloc: Global, end: u64, rest: Rest<'_>) -> Result<(Item, Rest<'_>), FrameFault>
    requires { rest.left ≤ end }
    ensures value { Gives (λ x. (item_of x.0, rest_of x.1)) result (item_at end (rest_of rest.entry)) }
    ensures left { IfOk result (λ x. x.1.left ≤ end) }
{
    let (root, rest) = root_of(end, rest)?;
    let (path, rest) = path_of(alloc, root, end, rest)?;
    let (at, rest) = u64_of(end, rest)?;
    let (size, rest) = u64_of(end, rest)?;
    let item = Item {
        root,
        path,
        at,
        size,
    };
    Ok((item, rest))
}

fn items_of(
    alloc: Global,
    count: u32,
    end: u64,
    rest: Rest<'_>,
) -> Result<(Vec<Item>, Rest<'_>), FrameFault>
    requires { rest.left ≤ end }
    ensures value { Gives (λ x. (items_of x.0.items, rest_of x.1)) result (items_at count end (rest_of rest.entry)) }
    ensures left { IfOk result (λ x. x.1.left ≤ end) }
{
    let mut items = Vec::new(alloc);
    let mut here = rest;
    for _ in 0..count {
        let (item, after) = item_of(alloc, end, here)?;
        items.push(item)?;
        here = after;
    }
    Ok((items, here))
}

#[tactic(auto, unfolding(crate::specs::Reading::job_at))]
fn job_of(alloc: Global, end: u64, rest: Rest<'_>) -> Result<(Frame, Rest<'_>), FrameFault>
    requires { rest.left ≤ end }
    ensures value { Gives (λ x. (frame_of x.0, rest_of x.1)) result (job_at end (rest_of rest.entry)) }
    ensures left { IfOk result (λ x. x.1.left ≤ end) }
{
    let (kind, rest) = kind_of(end, rest)?;
    let at = end - rest.left;
    let (count, rest) = u32_of(end, rest)?;
    if count == 0 {
        return Err(FrameFault::Form { at });
    }
    let (items, rest) = items_of(alloc, count, end, rest)?;
    Ok((Frame::Job(Job { kind, items }), rest))
}

#[tactic(auto, unfolding(crate::specs::Reading::setup_at))]
fn setup_of(alloc: Global, end: u64, rest: Rest<'_>) -> Result<(Frame, Rest<'_>), FrameFault>
    requires { rest.left ≤ end }
    ensures value { Gives (λ x. (frame_of x.0, rest_of x.1)) result (setup_at end (rest_of rest.entry)) }
    ensures left { IfOk result (λ x. x.1.left ≤ end) }
{
    let (tree, rest) = text_of(alloc, end, rest)?;
    let (repo, rest) = text_of(alloc, end, rest)?;
    Ok((Frame::Setup(Roots { tree, repo }), rest))
}

#[tactic(auto, unfolding(crate::specs::Reading::end_at))]
fn end_of(end: u64, rest: Rest<'_>) -> Result<(Frame, Rest<'_>), FrameFault>
    requires { rest.left ≤ end }
    ensures value { Gives (λ x. (frame_of x.0, rest_of x.1)) result (end_at end (rest_of rest.entry)) }
    ensures left { IfOk result (λ x. x.1.left ≤ end) }
{
    let (length, rest) = u64_of(end, rest)?;
    let (bytes, rest) = field(20, end, rest)?;
    let mut sum = [0; 20];
    sum.copy_from_slice(bytes);
    let sum = Sum(sum);
    Ok((Frame::End { length, sum }, rest))
}

#[tactic(auto, unfolding(crate::specs::Reading::part_at))]
fn part_of(alloc: Global, end: u64, rest: Rest<'_>) -> Result<(Frame, Rest<'_>), FrameFault>
    requires { rest.left ≤ end }
    ensures value { Gives (λ x. (frame_of x.0, rest_of x.1)) result (part_at end (rest_of rest.entry)) }
    ensures left { IfOk result (λ x. x.1.left ≤ end) }
{
    if rest.left == 0 {
        return Err(FrameFault::Form {
            at: end - rest.left,
        });
    }
    let (bytes, rest) = field(rest.left, end, rest)?;
    Ok((Frame::Part(Vec::from_slice(alloc, bytes)?), rest))
}

/// The longest body of a job, in bytes.
const JOB_LIMIT: u64 = 64 << 20;

/// The longest part, in bytes.
const PART_SIZE: u64 = 32 << 10;

/// The body of a frame of this type.
#[tactic(auto, unfolding(crate::specs::Reading::body_at, crate::specs::Frames::job_limit, crate::specs::Frames::part_size))]
fn body_of(
    alloc: Global,
    kind: u8,
    end: u64,
    rest: Rest<'_>,
) -> Result<(Frame, Rest<'_>), FrameFault>
    requires { rest.left ≤ end }
    ensures value { Gives (λ x. (frame_of x.0, rest_of x.1)) result (body_at kind end (rest_of rest.entry)) }
    ensures left { IfOk result (λ x. x.1.left ≤ end) }
{
    let length = rest.left;
    match kind {
        b'S' => setup_of(alloc, end, rest),
        b'J' if length > JOB_LIMIT => Err(FrameFault::TooLong { length }),
        b'J' => job_of(alloc, end, rest),
        b'P' if length > PART_SIZE => Err(FrameFault::TooLong { length }),
        b'P' => part_of(alloc, end, rest),
        b'E' => end_of(end, rest),
        b'V' => Ok((Frame::Vanished, rest)),
        _ => Ok((Frame::Unread, rest)),
    }
}

fn is_type(kind: u8) -> bool
    ensures { result ≡ is_type kind }
{
    matches!(kind, b'S' | b'J' | b'P' | b'E' | b'V' | b'U')
}

#[tactic(auto, unfolding(crate::specs::Reading::frame_at))]
fn frame_at(alloc: Global, bytes: &[u8]) -> Result<(Frame, usize), FrameFault>
    ensures { Gives (λ x. (frame_of x.0, x.1)) result (frame_at bytes.now) }
{
    let [kind, tail @ ..] = bytes else {
        return Err(FrameFault::Short);
    };
    if !is_type(*kind) {
        return Err(FrameFault::Form { at: 0 });
    }
    if tail.len() < 4 {
        return Err(FrameFault::Short);
    }
    let (head, body) = tail.split_at(4);
    let left = u32::from_be_bytes([head[0], head[1], head[2], head[3]]) as u64;
    // The type and the length come before the body.
    let end = 5 + left;
    let (frame, rest) = body_of(alloc, *kind, end, Rest { left, bytes: body })?;
    if rest.left != 0 {
        return Err(FrameFault::Form {
            at: end - rest.left,
        });
    }
    Ok((frame, end as usize))
}

/// The frame at the front of the bytes, and its length.
pub fn decode_frame(alloc: Global, bytes: &[u8]) -> Result<(Frame, usize), FrameFault>
    // What is read keeps the rules, and is spelled so.
    ensures found { IfOk result (λ x. IsPrefix bytes.now (frame_of x.0) x.1) }
    // What is spelled so is read, unless memory runs out.
    ensures only { IsOnlyReading result bytes.now }
    // It is short only where the frame isn't whole.
    ensures short { IfErr result (λ e. e ≡ Short → IsCutShort bytes.now) }
    // Every other answer is the same, whatever bytes follow.
    ensures settled { IsSettled result bytes.now }
    // Which fault is the first.
    ensures exact { Gives (λ x. (frame_of x.0, x.1)) result (frame_at bytes.now) }
{
    frame_at(alloc, bytes)
}
