//! Serves segments through the spool: archive-get with `archive-async`, and archive-get:async.
//!
//! What is proved, by the contract of the function that is named:
//!
//! - `get_ahead`: as archive-get, but a whole segment comes from the spool where that has it with the sum that the
//!   repository's name states, by the digest of its bytes; else from the repository. So what is served is the
//!   repository's, as long as no two contents share a SHA-1. After a served segment a fetch is started exactly where
//!   the spool doesn't have the next one; where that fails, a line says so. The segment's names in the spool are
//!   removed.
//! - `fetch_order`: the segment that the argument names, or why it names none.
//! - `fetch_after`: the segments that follow a stored one are in the spool, as many as the queue holds.
//! - Both only read the repository, give no receipt, and keep to their stanza. Each refusal has its cause.

mod async_fetch;
mod async_get;
mod following;
mod served_segment;

pub use async_fetch::{FetchOrder, fetch_after, fetch_order};
pub use async_get::get_ahead;
