//! The talk with a running PostgreSQL server over a connection: its start, queries of one row each, its end.
//!
//! What is proved, by the contract of the function that is named:
//!
//! - `open`, `ask_row`, `check_system`, `start_backup`, `stop_backup`: the answer that the pending bytes spell, however
//!   the connection cuts them, or the first fault with its place; what was sent.
//! - `close`: what was sent.

mod calls;
mod cells;
mod fault;
mod fields;
mod known;
mod message;
mod phase;
mod queries;
mod rows;
mod sends;
mod session;
mod take;
mod talk;

pub use calls::{ask_row, close, open};
pub use fault::ServerFault;
pub use known::{Started, Stopped};
pub use queries::{check_system, start_backup, stop_backup};
pub use session::Session;
