//! verify, as a command.
//!
//! What is proved, by the contract of the function that is named:
//!
//! - `Verify` is a command that only reads the repository, and means `verify_meaning`.
#![tactic(auto)]

mod verify;

pub use verify::Verify;
