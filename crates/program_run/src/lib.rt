//! The program, from arguments to a status.
//!
//! What is proved, by the contract of the function that is named:
//!
//! - `run`: the theorem, docs/THEOREM.md. `carry`: the same, once the arguments are resolved.
#![tactic(auto)]

mod commands;
mod config;
mod given;
mod refusal;
mod top;

pub use top::{Status, run};
