//! Fetches segments ahead for a server that recovers. They go from the repository into the spool, and from there into
//! the data folder.
//!
//! What is proved, by the contract of the function that is named:
//!
//! - `fetch_ahead`: the spool's folder of fetched segments then holds the segments that follow the one that is named,
//!   each with the bytes that the repository stores, and nothing else. They are as many as the queue holds, or all up
//!   to the first that the repository doesn't have. It returns how many.
//! - `take_ahead`: the data folder then has the fetched segment, or it is as before, and the spool has none with that
//!   sum. Bytes with another sum are never taken. No name of the segment is left in the spool.
//! - `has_ahead`: whether a segment was fetched.
//! - The repository is as before, and nothing else of the spool changes: no receipt is given.
//! - Each refusal has its cause.
//!
//! Nothing is synced: a crash may leave anything at these names, and the sum shows whether the bytes are whole.

mod fault;
mod names;
mod prefetch;
mod prefetched;
mod prefix_removal;
mod spool_copy;
mod spooled_segment;

pub use prefetch::fetch_ahead;
pub use prefetched::has_ahead;
pub use spooled_segment::take_ahead;
