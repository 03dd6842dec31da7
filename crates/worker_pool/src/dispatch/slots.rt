// The links of a run, each in its slot until it is lost.
ghost use Rattle.std.specs.Prelude.{◌≡◌, ◌<◌, option_map, vec_len, IfOk, IfErr, OnOk};
ghost use Rattle.worker_protocol.specs.Frames.{FitsJob};
ghost use Rattle.worker_protocol.specs.Views.{job_of};
ghost use Rattle.worker_pool.specs.Slots.{SlotSends, SendsAt, Receives, ReceiveFails, SlotReplies, IsReceivingAt, LinkChanges};

use crate::dispatch::job_run::Slots;
use crate::replies::{Receiving, ReplyFault, Verdict, receive_reply};
use base_devices::{DeviceError, Link};
use std::alloc::Global;
use worker_protocol::{Job, LostCause, PartSink};

/// Sends a frame over the link in a slot.
fn send_slot<L: Link>(slot: &mut Option<L>, frame: &[u8]) -> Result<(), DeviceError>
    ensures { SlotSends result frame.now (option_map L.link_state slot.old) (option_map L.link_state slot.new) }
{
    match slot {
        Some(link) => link.send(frame),
        None => Err(DeviceError::Failed),
    }
}

/// Sends a frame over the link of a number.
#[tactic(auto, using(crate::proofs::Changes::changes_at))]
pub(crate) fn send_at<L: Link>(
    slots: &mut Vec<Option<L>>,
    i: u32,
    frame: &[u8],
) -> Result<(), DeviceError>
    requires { i < vec_len slots.old }
    ensures length { vec_len slots.new ≡ vec_len slots.old }
    ensures states { SendsAt result L.link_state frame.now i slots.old.items slots.new.items }
{
    send_slot(&mut slots[i as usize], frame)
}

/// Receives a frame from the link in a slot.
fn receive_slot<L: Link, W, K: PartSink<W>>(
    alloc: Global,
    slot: &mut Option<L>,
    job: &Job,
    number: u32,
    receiving: &mut Receiving,
    keep: &mut K,
    on: &mut W,
) -> Result<Verdict, ReplyFault>
    requires at { SlotReplies L.link_state slot.old (job_of job.now) number receiving.old (K.kept keep.old on.old) }
    requires fits { FitsJob (job_of job.now) }
    requires agrees { K.agrees keep.old on.old }
    ensures later { K.later keep.old on.old keep.new on.new }
    ensures agrees { OnOk result (K.agrees keep.new on.new) }
    ensures verdict { IfOk result
        (λ v. Receives v (job_of job.now) number receiving.old receiving.new (K.kept keep.old on.old) (K.kept keep.new
        on.new)
        (option_map L.link_state slot.old) (option_map L.link_state slot.new)) }
    ensures fault { IfErr result
        (λ e. ReceiveFails e (job_of job.now) number receiving.old (K.kept keep.old on.old) (K.kept keep.new on.new)
        (option_map L.link_state slot.old) (option_map L.link_state slot.new)) }
{
    match slot {
        Some(link) => receive_reply(alloc, link, job, number, receiving, keep, on),
        None => Ok(Verdict::Lost(LostCause::Device)),
    }
}

/// Receives a frame from the link of a number, which has this job.
#[tactic(auto, using(crate::proofs::Changes::received_at))]
pub(crate) fn receive_at<L: Link, W, K: PartSink<W>>(
    alloc: Global,
    links: &mut Slots<L>,
    i: u32,
    job: &Job,
    number: u32,
    keep: &mut K,
    on: &mut W,
) -> Result<Verdict, ReplyFault>
    requires within { i < vec_len links.old.slots }
    requires within_receivings { i < vec_len links.old.receivings }
    requires at { IsReceivingAt L.link_state i (job_of job.now) number links.old (K.kept keep.old on.old) }
    requires fits { FitsJob (job_of job.now) }
    requires agrees { K.agrees keep.old on.old }
    ensures later { K.later keep.old on.old keep.new on.new }
    ensures agrees { OnOk result (K.agrees keep.new on.new) }
    ensures length { vec_len links.new.slots ≡ vec_len links.old.slots }
    ensures verdict { IfOk result (λ v. LinkChanges L.link_state i links.old links.new
        (λ h n. Receives v (job_of job.now) number h n (K.kept keep.old on.old) (K.kept keep.new on.new))) }
    ensures fault { IfErr result (λ e. LinkChanges L.link_state i links.old links.new
        (λ h _. ReceiveFails e (job_of job.now) number h (K.kept keep.old on.old) (K.kept keep.new on.new))) }
{
    receive_slot(
        alloc,
        &mut links.slots[i as usize],
        job,
        number,
        &mut links.receivings[i as usize],
        keep,
        on,
    )
}
