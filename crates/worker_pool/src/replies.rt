//! Takes a worker's reply to one job, a frame at a time, and hands each part on as it is received.
//!
//! What is proved, by the contract of the function that is named:
//!
//! - `receive_reply`: each part goes to the keeper as it is received, within its item's size. At its end each item has
//!   its number and, where its bytes were asked for, its SHA-1. Where the link reads some files, these are the files'
//!   bytes.
//! - A steady worker is never lost. A link that is lost reported two sums that differ, or its count of faults rose, or
//!   its cause has the number of bytes of the reply that were received. These are counted up to their end, or to the
//!   end of a frame that is no part of the reply.
//! - Of a link that reads some files the cause is only that a call failed or that its bytes end.
//! - An item that couldn't be read is reported only where it is absent from the repository, as the link reads it.

mod checks;
mod fault;
mod receiving;
mod reply;

pub use fault::ReplyFault;
pub use receiving::Receiving;
pub use reply::{Verdict, receive_reply};
