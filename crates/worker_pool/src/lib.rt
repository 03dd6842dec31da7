//! Has jobs done by workers, whatever the order of their replies and whichever workers are lost.
//!
//! - `jobs`: which worker has which job, which jobs wait, and which have ended.
//! - `replies`: takes a worker's reply to one job, a frame at a time.
//! - `pool`: the workers of a command.
//! - `dispatch`: gives jobs to workers until each has ended.
//! - `digest_runs`: has workers digest files, and holds in memory what jobs read.
#![tactic(auto)]

mod digest_runs;
mod dispatch;
mod jobs;
mod pool;
mod replies;

pub use digest_runs::{Holder, ReadItem, is_equal, run_digests};
pub use dispatch::{DispatchFault, Lost, run_jobs, setup};
pub use jobs::{JobPlace, JobTable, LinkPlace};
pub use pool::Pool;
pub use replies::{Receiving, ReplyFault, Verdict, receive_reply};
