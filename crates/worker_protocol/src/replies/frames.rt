// One frame of a reply.
ghost use Rattle.std.specs.Prelude.{◌≡◌, IfOk, IfErr};
ghost use Rattle.worker_protocol.specs.Takes.{FaultLeaves, Refutes, FormRefutes};
ghost use Rattle.worker_protocol.specs.Receives.{ReceiveReplyLeaves, IsFullyReceived, OffersReply, BeginsReply, is_head};

use crate::replies::cause::{LostCause, ReceiveFault};
use crate::replies::field_reader::{receive_bytes, receive_end, receive_head};
use base_devices::Link;
use base_text::Sum;
use std::alloc::Global;

/// A frame of a worker's reply.
#[derive(Debug, Drop)]
pub enum Received {
    /// The next bytes of an item, 1 to 32,768 of them.
    Part(Vec<u8>),
    /// An item was read to its end.
    End { length: u64, sum: Sum },
    /// The item's file isn't there.
    Vanished,
    /// An item couldn't be read, and the reply has ended.
    Unread,
}

/// The longest part, in bytes.
const PART_SIZE: u32 = 32 << 10;

/// The length of the body of an end, in bytes.
const END_SIZE: u32 = 28;

/// Whether a frame of a reply may have this type and a body of this length.
#[tactic(auto, unfolding(crate::specs::Frames::part_size))]
fn is_head(kind: u8, length: u32) -> bool
    ensures { result ≡ is_head kind length }
{
    match kind {
        b'P' => 0 < length && length <= PART_SIZE,
        b'E' => length == END_SIZE,
        b'V' => length == 0,
        b'U' => length == 0,
        _ => false,
    }
}

/// Receives a frame of a reply, of which this many bytes were received before. Nothing beyond the frame is received.
#[tactic(auto, using(crate::proofs::Heads::short_refutes))]
pub fn receive_frame<L: Link>(
    alloc: Global,
    link: &mut L,
    before: u64,
) -> Result<Received, ReceiveFault>
    ensures takes { ReceiveReplyLeaves result (L.link_state link.old) (L.link_state link.new) }
    ensures received_reply { IfOk result IsFullyReceived }
    ensures lost { IfErr result (λ e. FaultLeaves e before (L.link_state link.old) (L.link_state link.new)) }
    // A steady link whose next bytes are a frame of a reply isn't lost.
    ensures steady { IfErr result (λ e. Refutes e (OffersReply (L.link_state link.old))) }
    // Whether it is steady or not, a link whose next bytes are a frame of a reply isn't lost by their form.
    ensures form { IfErr result (λ e. FormRefutes e (BeginsReply (L.link_state link.old))) }
{
    let (kind, length) = receive_head(link, before)?;
    let before = before.saturating_add(5);
    if !is_head(kind, length) {
        return Err(ReceiveFault::Lost(LostCause::Form { at: before }));
    }
    match kind {
        b'P' => {
            let body = receive_bytes(alloc, link, before, length)?;
            Ok(Received::Part(body))
        }
        b'E' => {
            let (length, sum) = receive_end(link, before)?;
            Ok(Received::End { length, sum })
        }
        b'V' => Ok(Received::Vanished),
        _ => Ok(Received::Unread),
    }
}
