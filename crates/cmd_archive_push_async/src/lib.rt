//! The command `archive-push:async`: stores the files of the log that are ready, and records each result in the spool.
//!
//! - `files`: stores the files, one after the other.
//! - `command`: the command: which files are ready, and under which id they are stored.
#![tactic(auto)]

mod command;
mod files;

pub use command::{drain_stanza, drain_status};
pub use files::{Drained, drain};
