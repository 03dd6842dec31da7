//! Receives the frames of a worker's reply.
//!
//! What is proved, by the contract of the function that is named:
//!
//! - `receive_frame`: the bytes that the link gave are those of the frame, and no byte beyond it was taken.
//! - A link is lost only with its cause, and never a steady one whose next bytes are a frame of a reply. The number of
//!   bytes that were received is reported.
//! - Steady or not, a link whose next bytes are such a frame isn't lost by their form.

mod cause;
mod field_reader;
mod frames;

pub use cause::{LostCause, ReceiveFault};
pub use frames::{Received, receive_frame};
