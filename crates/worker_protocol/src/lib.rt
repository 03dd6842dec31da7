//! The protocol of a command and its workers: frames, how they are received, and where the bytes go.
//!
//! - `frames`: a type, a length of four bytes, and a body.
//! - `sinks`: the trait of what takes the bytes that workers read.
//! - `replies`: receives the frames of a worker's reply.
#![tactic(auto)]

mod frames;
mod replies;
mod sinks;

pub use frames::{
    Frame, FrameFault, Item, Job, JobKind, Root, Roots, decode_frame, encode_frame, encode_job,
    encode_setup,
};
pub use replies::{LostCause, ReceiveFault, Received, receive_frame};
pub use sinks::{ItemEnd, PartSink};
