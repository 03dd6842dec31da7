//! Frames between the program and its workers: a type, a length of four bytes, and a body.
//!
//! What is proved, by the contract of the function that is named:
//!
//! - `encode_frame`: the bytes are the frame's one spelling.
//! - `decode_frame`: the frame that the bytes begin with, and its length, and no other; else the first fault with its
//!   place. It is reported as cut short only where the bytes end before the frame does, and every other answer stays,
//!   whatever bytes follow.

mod fault;
mod fields;
mod frame_reader;
mod frame_writer;
mod frames;

pub use fault::FrameFault;
pub use frame_reader::decode_frame;
pub use frame_writer::{encode_frame, encode_job, encode_setup};
pub use frames::{Frame, Item, Job, JobKind, Root, Roots};
