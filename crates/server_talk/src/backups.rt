//! Starts and stops an online backup on the server. It is stopped with the part of the log that a restore of it needs.
//! A talk that is refused or given up is ended with the last message too, and the server then drops the backup.
//!
//! What is proved, by the contract of the function that is named:
//!
//! - `start`: at Ok the server reported this system, the size of its segments and this start; what was sent.
//! - `stop`: at Ok it reported this stop, without a map of tablespaces. The part of the log begins where the backup did
//!   and keeps the rules that a manifest has for it, and the talk is ended.
//! - Each refusal has its cause: a map of tablespaces, a stop that doesn't belong to the start, or what the server
//!   reported. The talk is then ended too, unless its connection failed. `abandon`: the talk is ended.

mod begun;
mod fault;
mod starting;
mod stopping;
mod talk_abort;
mod wal_span;

pub use begun::{Begun, Finished};
pub use fault::OnlineFault;
pub use starting::start;
pub use stopping::stop;
pub use talk_abort::abandon;
