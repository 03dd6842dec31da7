//! expire, as a command.
//!
//! What is proved, by the contract of the function that is named:
//!
//! - `Expire` is a command that means `expire_meaning`.
#![tactic(auto)]

mod expire;

pub use expire::Expire;
