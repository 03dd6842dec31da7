//! archive-get:async, as a command.
//!
//! What is proved, by the contract of the function that is named:
//!
//! - `ArchiveGetAsync` is a command that means `fetch_meaning`.
#![tactic(auto)]

mod get_async;

pub use get_async::ArchiveGetAsync;
