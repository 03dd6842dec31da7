//! restore, as a command.
//!
//! What is proved, by the contract of the function that is named:
//!
//! - `Restore` is a command that means `restore_meaning`.
//! - `Restore::from_options`: it is asked for what the settings say of which the options were made.
//!
//! How a server can recover is a matter of this crate and of those below it: whoever calls it passes the
//! options on.
#![tactic(auto)]

mod options;
mod restore;

pub use restore::Restore;
