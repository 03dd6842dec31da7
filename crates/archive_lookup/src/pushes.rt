//! The trait of other processes: what they push into the archive, step by step, while a command waits.
//!
//! What is proved, by the contract of the function that is named:
//!
//! - `OtherProcesses`, which is what other processes do, says what a step does: its pushes, each whole after every
//!   answer and every crash; a receipt only of a file that it stored; and nothing besides them.
//! - `NotThere` meets it.

mod processes;

pub use processes::{OtherProcesses, TurnError};
