//! What a run of jobs needs, in memory: links, a choice among them, and a keeper.
//!
//! What is proved, by the contract of the function that is named:
//!
//! - `RawLink`, `MemLink`, `MeetLink`, `MemScheduler` and `MemPartSink` meet their traits, so these can be met.
//! - A `RawLink` gives its bytes in order and then ends, whatever it is sent.
//! - The answers of a `MemLink` are known. To a frame that is exactly one job it gives the reply of a worker whose
//!   roots hold its files, made by `serve`, and else nothing. Where no call is to fail it is a steady worker.
//! - Each `MeetLink` of two gives nothing before it was sent a job, and later nothing or what a `MemLink` gives. That
//!   it waits for exactly the other one's job is only tested.
//! - `MemScheduler` picks by its numbers; `MemPartSink` holds all bytes of each item, or counts them.
//! - A call fails exactly where its number is one that is to fail, or where memory is out; of a `MeetLink` none is to
//!   fail.
#![tactic(auto)]

mod failing;
mod keep;
mod meet;
mod mem;
mod raw;
mod scheduler;
mod tape;
mod worker;

pub use keep::{HeldItem, MemPartSink};
pub use meet::MeetLink;
pub use mem::MemLink;
pub use raw::RawLink;
pub use scheduler::MemScheduler;
