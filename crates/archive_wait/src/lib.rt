//! Waits for the segments that an online backup needs. They are looked for in the archive, and while one is missing,
//! other processes take steps. At its end each of them is archived, whatever a crash leaves.
//!
//! What is proved, by the contract of the function that is named:
//!
//! - `await_segments`: at Ok each segment of the part is archived under the id; and so it is in all that a crash
//!   leaves, where the repository kept a log of the stanza before.
//! - After every answer the steps that other processes report are all that was done to the repository and to the spool,
//!   and no more of them were taken than asked for. Where none is missing, none is taken.
//! - Each refusal has its cause: the first segment that is missing after that many steps of others, one that is stored
//!   twice, or what failed.
//! - Lemmas: a wait, and then a backup, are one command of the log.
#![tactic(auto)]

mod fault;
mod missing_segment;
mod segment_wait;

pub use fault::AwaitFault;
pub use segment_wait::await_segments;
