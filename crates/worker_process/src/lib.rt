//! A worker: reads files for the program, and answers each job by its reply.
//!
//! What is proved, by the contract of the function that is named:
//!
//! - `serve`: what a worker does from its setup to the end of its input. Where its objects report their content, it
//!   writes the reply of each job that the input has, in parts of 32,768 bytes, with lengths and digests.
//! - It ends with Ok exactly where the input ends between two frames, and else states the first fault of the input with
//!   its place. Where the output failed, a first part of the replies was written.
//! - A reply breaks off only at an item of whose root the count of faults rose in that job, or which couldn't be
//!   opened.
#![tactic(auto)]

mod frame_output;
mod item_answer;
mod job_reply;
mod job_service;
mod parts;
mod receiving;
mod serve_fault;

pub use job_service::serve;
pub use serve_fault::ServeFault;
