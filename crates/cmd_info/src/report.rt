//! Makes the report on a stanza that the command info prints, as text and as JSON.
//!
//! What is proved, by the contract of the function that is named:
//!
//! - `report_text`, `report_json`: the text is that of the definition, by the values of the two info files and the
//!   names of the archived files.

mod as_json;
mod as_text;
mod backups;
mod bounds;
mod clusters;
mod lines;
mod listed;
mod moments;
mod report;

pub use as_json::report_json;
pub use as_text::report_text;
pub use report::{ArchivedName, Report};
