//! archive-push:async, as a command: the files of the log that are ready are stored.
//!
//! What is proved, by the contracts of the trait `Command`:
//!
//! - `ArchivePushAsync` means `drain_meaning`: it takes the archive lock and heals the archive pair. At Ok each file that
//!   is ready is stored or was refused for its content, and each has its mark in the spool. The marks of no use were
//!   removed before.
//! - In the log it is one command that stores some of the files that the data folder has. Where a crash or a refusal
//!   ends it a part of that is done.
//! - Each refusal has its cause, its status and its message.
#![tactic(auto)]

mod drain;

pub use drain::ArchivePushAsync;
