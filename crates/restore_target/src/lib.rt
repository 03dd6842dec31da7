//! How far a server is to recover: the targets of a recovery, as a person writes them, and the history of a
//! timeline.
//!
//! What is proved, by the contract of the function that is named:
//!
//! - `read_history`: the ancestors that a timeline's history file states, or the first wrong line of it.
//! - `read_moment`: the second in UTC of the moment that a text states, or that it states none.
//! - `is_transaction`: whether a text is a transaction's number.
//! - `is_restore_point`: whether a text may be the name of a restore point.
#![tactic(auto)]

mod history;
mod moments;
mod targets;

pub use history::{Ancestor, HistoryFault, read_history};
pub use moments::read_moment;
pub use targets::{is_restore_point, is_transaction};
