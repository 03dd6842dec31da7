// Takes the frames of a reply.
ghost use Rattle.std.specs.Prelude.{◌≡◌, ◌+◌, ◌^◌, ◌<◌, ◌≤◌, length, IfOk, IfErr, OnOk};
ghost use Rattle.base_devices.specs.Links.{LinkState, last_five};
ghost use Rattle.worker_protocol.specs.Frames.{FitsJob, spell, part_size};
ghost use Rattle.worker_protocol.specs.Frames.Frame.{Part, End, Vanished, Unread};
ghost use Rattle.worker_protocol.specs.Views.{job_of};
ghost use Rattle.worker_protocol.specs.Receives.{IsFullyReceived, frame_of};
ghost use Rattle.worker_pool.specs.Going.{IsAt, FrameLeaves, ReplyLeaves, ReplyFails, IsUnread, KeepsCounts, after_end};
ghost use Rattle.worker_pool.specs.Frames.{IsReplying, CountsMore, ItemRefused, NotTaken, ReceivedBy};

use crate::replies::checks::{end_fault, may_be_absent, may_follow};
use crate::replies::fault::ReplyFault;
use crate::replies::receiving::Receiving;
use base_devices::Link;
use base_text::Sum;
use std::alloc::Global;
use worker_protocol::{ItemEnd, Job, LostCause, PartSink, ReceiveFault, Received, receive_frame};

/// What a frame of a reply leads to.
#[derive(Clone, Copy, Debug, PartialEq, Eq)]
pub enum Verdict {
    /// More of the reply is to come.
    More,
    /// The reply has ended.
    Ended,
    /// The link that gives it is to be lost.
    Lost(LostCause),
}

/// Takes a part of an item.
fn take_part<W, K: PartSink<W>>(
    job: &Job,
    number: u32,
    receiving: &mut Receiving,
    keep: &mut K,
    on: &mut W,
    bytes: &[u8],
) -> Result<Verdict, ReplyFault>
    requires at { IsAt (job_of job.now) number receiving.old (K.kept keep.old on.old) }
    requires fits { FitsJob (job_of job.now) }
    requires some { 0 < length bytes.now }
    requires few { length bytes.now ≤ part_size }
    requires agrees { K.agrees keep.old on.old }
    ensures later { K.later keep.old on.old keep.new on.new }
    ensures agrees { OnOk result (K.agrees keep.new on.new) }
    ensures verdict { IfOk result (λ v. FrameLeaves v (spell (Part bytes.now)) (job_of job.now) number
        receiving.old receiving.new (K.kept keep.old on.old) (K.kept keep.new on.new)) }
    ensures counts { CountsMore result receiving.old (5 + length bytes.now) receiving.new }
    ensures fault { ItemRefused result K.kept job.now receiving.old keep.old on.old keep.new on.new }
    ensures kept { IfErr result (λ e. ¬ IsUnread e) }
{
    let received_reply = receiving
        .received_reply
        .saturating_add(5 + bytes.len() as u64);
    if !may_follow(job, receiving, bytes.len() as u64) {
        return Ok(Verdict::Lost(LostCause::Form { at: received_reply }));
    }
    keep.part(on, number, receiving.item, bytes)?;
    receiving.receive_more(bytes, received_reply);
    Ok(Verdict::More)
}

/// Takes the end of an item.
fn take_end<W, K: PartSink<W>>(
    job: &Job,
    number: u32,
    receiving: &mut Receiving,
    keep: &mut K,
    on: &mut W,
    length: u64,
    sum: Sum,
) -> Result<Verdict, ReplyFault>
    requires at { IsAt (job_of job.now) number receiving.old (K.kept keep.old on.old) }
    requires fits { FitsJob (job_of job.now) }
    requires agrees { K.agrees keep.old on.old }
    ensures later { K.later keep.old on.old keep.new on.new }
    ensures agrees { OnOk result (K.agrees keep.new on.new) }
    ensures verdict { IfOk result (λ v. FrameLeaves v (spell (End length sum.0)) (job_of job.now) number
        receiving.old receiving.new (K.kept keep.old on.old) (K.kept keep.new on.new)) }
    ensures counts { CountsMore result receiving.old 33 receiving.new }
    ensures fault { ItemRefused result K.kept job.now receiving.old keep.old on.old keep.new on.new }
    ensures kept { IfErr result (λ e. ¬ IsUnread e) }
{
    let item = receiving.item;
    let count = receiving.count;
    let received_reply = receiving.received_reply.saturating_add(33);
    let found = receiving.receive_next(received_reply);
    if let Some(cause) = end_fault(job, item, count, length, sum, found, received_reply) {
        return Ok(Verdict::Lost(cause));
    }
    keep.end(on, number, item, &ItemEnd::Whole { length, sum })?;
    Ok(after_end(job, item))
}

/// Takes the message that an item is absent.
fn take_absent<W, K: PartSink<W>>(
    job: &Job,
    number: u32,
    receiving: &mut Receiving,
    keep: &mut K,
    on: &mut W,
) -> Result<Verdict, ReplyFault>
    requires at { IsAt (job_of job.now) number receiving.old (K.kept keep.old on.old) }
    requires fits { FitsJob (job_of job.now) }
    requires agrees { K.agrees keep.old on.old }
    ensures later { K.later keep.old on.old keep.new on.new }
    ensures agrees { OnOk result (K.agrees keep.new on.new) }
    ensures verdict { IfOk result (λ v. FrameLeaves v (spell Vanished) (job_of job.now) number
        receiving.old receiving.new (K.kept keep.old on.old) (K.kept keep.new on.new)) }
    ensures counts { CountsMore result receiving.old 5 receiving.new }
    ensures fault { ItemRefused result K.kept job.now receiving.old keep.old on.old keep.new on.new }
    ensures kept { IfErr result (λ e. ¬ IsUnread e) }
{
    let item = receiving.item;
    let received_reply = receiving.received_reply.saturating_add(5);
    if !may_be_absent(job, receiving) {
        return Ok(Verdict::Lost(LostCause::Form { at: received_reply }));
    }
    receiving.receive_next(received_reply);
    keep.end(on, number, item, &ItemEnd::Vanished)?;
    Ok(after_end(job, item))
}

/// Takes a frame of a reply.
fn take_frame<W, K: PartSink<W>>(
    job: &Job,
    number: u32,
    receiving: &mut Receiving,
    keep: &mut K,
    on: &mut W,
    frame: Received,
) -> Result<Verdict, ReplyFault>
    requires at { IsAt (job_of job.now) number receiving.old (K.kept keep.old on.old) }
    requires fits { FitsJob (job_of job.now) }
    requires received_reply { IsFullyReceived frame }
    requires agrees { K.agrees keep.old on.old }
    ensures later { K.later keep.old on.old keep.new on.new }
    ensures agrees { OnOk result (K.agrees keep.new on.new) }
    ensures verdict { IfOk result (λ v. FrameLeaves v (spell (frame_of frame)) (job_of job.now) number
        receiving.old receiving.new (K.kept keep.old on.old) (K.kept keep.new on.new)) }
    ensures counts { CountsMore result receiving.old (length (spell (frame_of frame))) receiving.new }
    ensures fault { NotTaken result K.kept frame job.now number receiving.old keep.old on.old keep.new on.new }
    ensures unread { IfErr result (λ e. IsUnread e → frame_of frame ≡ Unread) }
{
    match frame {
        Received::Part(bytes) => take_part(job, number, receiving, keep, on, &bytes),
        Received::End { length, sum } => take_end(job, number, receiving, keep, on, length, sum),
        Received::Vanished => take_absent(job, number, receiving, keep, on),
        Received::Unread => Err(ReplyFault::Unread {
            item: receiving.item,
        }),
    }
}

/// Receives a frame of the reply to the job of this number, and takes it. The keeper, which is for the job, gets what
/// it brings.
pub fn receive_reply<L: Link, W, K: PartSink<W>>(
    alloc: Global,
    link: &mut L,
    job: &Job,
    number: u32,
    receiving: &mut Receiving,
    keep: &mut K,
    on: &mut W,
) -> Result<Verdict, ReplyFault>
    requires at { IsReplying (L.link_state link.old) (job_of job.now) number receiving.old (K.kept keep.old on.old) }
    requires fits { FitsJob (job_of job.now) }
    requires agrees { K.agrees keep.old on.old }
    ensures later { K.later keep.old on.old keep.new on.new }
    ensures agrees { OnOk result (K.agrees keep.new on.new) }
    ensures verdict { IfOk result (λ v. ReplyLeaves v (job_of job.now) number receiving.old receiving.new
        (K.kept keep.old on.old) (K.kept keep.new on.new) (L.link_state link.old) (L.link_state link.new)) }
    ensures counts { IfOk result (λ v. KeepsCounts v (L.link_state link.old) (L.link_state link.new)) }
    // How many bytes of the reply are received, and why the link is lost.
    ensures received_reply { ReceivedBy result L.link_state receiving.old link.old receiving.new link.new }
    ensures fault { IfErr result (λ e. ReplyFails e (job_of job.now) number receiving.old
        (K.kept keep.old on.old) (K.kept keep.new on.new) (L.link_state link.old)) }
    // After Unread the last five bytes that the link gave are that frame.
    ensures unread { IfErr result (λ e. IsUnread e → last_five (L.link_state link.new).given ≡ spell Unread) }
{
    match receive_frame(alloc, link, receiving.received_reply) {
        Ok(frame) => take_frame(job, number, receiving, keep, on, frame),
        Err(ReceiveFault::Lost(cause)) => Ok(Verdict::Lost(cause)),
        Err(ReceiveFault::NoMemory) => Err(ReplyFault::NoMemory),
    }
}

/// Whether the reply ends with the end of this item.
fn after_end(job: &Job, item: u32) -> Verdict
    requires { item + 1 < 2 ^ 32 }
    ensures { result ≡ after_end (job_of job.now) item }
{
    if item as usize + 1 == job.items.len() {
        Verdict::Ended
    } else {
        Verdict::More
    }
}
