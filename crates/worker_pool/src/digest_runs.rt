//! Has workers digest files, and holds in memory what jobs read.
//!
//! - `Holder` is a keeper in memory: it holds all that is read for its jobs (`specs/Holdings`).
//! - `run_digests` has digest jobs of one item each done, and returns how each ended (`specs/Digests`).
//!
//! What is proved, by the contract of the function that is named:
//!
//! - `Holder` keeps what a keeper has to. It fails for memory alone.
//! - `run_digests`, at Ok: each item ended with a number and a digest of its bytes, or as an absent file, as one of the
//!   links reported. The links that are left are ready for further jobs, no steady worker was lost, and each link that
//!   was has its entry (`specs/Left`).
//! - A refusal has the causes of `run_jobs`.
//! - `is_equal`: whether an end has the number and the digest of a manifest's entry.

mod digest_run;
mod memory_keeper;

pub use digest_run::{is_equal, run_digests};
pub use memory_keeper::{Holder, ReadItem};
