//! Has jobs done by workers, whatever the order of their replies and whichever workers are lost.
//!
//! What is proved, by the contract of the function that is named:
//!
//! - `setup`: the links that it leaves, one at least, have nothing to give. Each of the others is reported, and no
//!   steady worker is among them.
//! - `run_jobs`, whatever order the frames come in and whichever workers are lost: at Ok each job has ended, each item
//!   with what the link that ended the job read. The links that weren't lost are left in their order, one at least
//!   where there was one, with nothing to give. Each was sent a job where there were as many jobs as links.
//! - Each lost link has one entry, with its place and its cause, and is no steady worker. Where it reads some files the
//!   cause is only that a call failed, or that its bytes end, after no more of them than its reply to one of the jobs
//!   has.
//! - Where all links handed in read the same files, each item ended as its file is: with its bytes, their number
//!   and their SHA-1, or absent from the data folder.
//! - Where all links are steady workers, and no count is at its end, their counts of read jobs rose together by the
//!   number of read jobs.
//! - Each refusal has its cause. Whatever either call answers, no entry of a lost link is removed, and each further
//!   one is of such a link.
//! - Causes speak of two states of the lost link that no caller sees. So of a known link nothing they bind
//!   nothing; the contract of `receive_reply` binds the link itself.
//! - The keeper's own relation holds from entry to exit after every answer. At Ok the keeper agrees with its device,
//!   and its count of faults is as before. It ends for every input.

mod dispatch_run;
mod fault;
mod job_handout;
mod job_run;
mod jobs;
mod receiving;
mod root_setup;
mod slot_setup;
mod slots;

pub use fault::{DispatchFault, Lost};
pub use jobs::run_jobs;
pub use root_setup::setup;
