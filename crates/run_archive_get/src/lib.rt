//! archive-get, as two commands: from the repository, and through the spool.
//!
//! What is proved, by the contract of the function that is named:
//!
//! - `ArchiveGet` is a command that means `get_meaning`.
//! - `ArchiveGetThrough` is a command that means `through_meaning`. What it starts is archive-get:async of the segment
//!   that it serves, of the same stanza at the same places.
#![tactic(auto)]

mod background_start;
mod get;
mod get_through;

pub use get::ArchiveGet;
pub use get_through::ArchiveGetThrough;
