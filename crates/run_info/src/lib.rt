//! info, as a command.
//!
//! What is proved, by the contract of the function that is named:
//!
//! - `Info` is a command that only reads the repository, and means `info_meaning`.
#![tactic(auto)]

mod info;

pub use info::Info;
