//! Segments through the spool: `archive-get` with `archive-async`, and `archive-get:async`.
//!
//! - `ahead`: fetches segments ahead for a server that recovers: into the spool, and from there into the data folder.
//! - `command`: the two commands.
#![tactic(auto)]

mod ahead;
mod command;

pub use ahead::{fetch_ahead, has_ahead, take_ahead};
pub use command::{FetchOrder, fetch_after, fetch_order, get_ahead};
