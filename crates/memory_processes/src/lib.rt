//! Other processes in memory, which push segments while a command waits for their steps, and say what they did.
//!
//! - `MemProcesses` is made of the name of a stanza and of a list of steps of others; each of these pushes a segment or
//!   nothing. After the list its steps push nothing.
//!
//! What is proved, by the contract of the function that is named:
//!
//! - `MemProcesses` meets `OtherProcesses`, and its account is always there: of the stanza that it was made for, with
//!   every step of others so far.
//! - `MemProcesses::new`: the account begins with no steps of others.
#![tactic(auto)]

mod others;
mod pushing;
mod turn;

pub use others::MemProcesses;
pub use turn::{OtherPush, OtherTurn};
