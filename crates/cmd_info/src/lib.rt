//! The command `info`: the report on a stanza.
//!
//! - `report`: makes the report, as text and as JSON.
//! - `command`: the command.
#![tactic(auto)]

mod command;
mod report;

pub use command::report_stanza;
pub use report::{ArchivedName, Report, report_json, report_text};
