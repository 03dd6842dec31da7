//! The session with a running PostgreSQL server: its messages, and the start and the stop of an online backup.
//!
//! - `session`: the start of a session, queries of one row each, and its end.
//! - `backups`: starts and stops an online backup.
#![tactic(auto)]

mod backups;
mod session;

pub use backups::{Begun, Finished, OnlineFault, abandon, start, stop};
pub use session::{
    ServerFault, Session, Started, Stopped, ask_row, check_system, close, open, start_backup,
    stop_backup,
};
