//! What a command is, and how each is obeyed: the same for all.
//!
//! What is proved, by the contract of the function that is named:
//!
//! - `Command`: a command says what it means, in one value, and its own part does that.
//! - `Outside::obey`: from its arguments to its status, every command does what it means.
//! - `print`: the lines are written and the status is theirs, or the output failed, or memory ran out.
#![tactic(auto)]

mod command;
mod fault;
mod lines;
mod output;
mod outside;
mod parameters;
mod places;
mod stages;

pub use command::Command;
pub use fault::Fault;
pub use lines::{error_line, unknown_lines};
pub use output::print;
pub use outside::{Modelled, Outside};
pub use parameters::{first_of, second_of};
pub use places::Places;
