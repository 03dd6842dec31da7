//! Tests of the spool, and of segments that are fetched ahead, over devices in memory.
//!
//! - `spool`: a run of archive-push:async, what the spool then says, and a file that is queued for it.
//! - `prefetched`: segments that are fetched ahead.
#![tactic(auto)]

mod prefetched;
mod spool;
