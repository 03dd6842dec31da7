//! info: the report on a stanza.
//!
//! What is proved, by the contract of the function that is named:
//!
//! - `report_stanza`: the lines are the report on the values of the two pairs and the archive's ends, and on the stanza
//!   that the repository represents. Nothing changes.

mod info;

pub use info::report_stanza;
