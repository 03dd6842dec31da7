//! Info texts: sections of keys with JSON values, between a head and a checksum. Configurations: sections of keys with
//! texts.
//!
//! What is proved, by the contract of the function that is named:
//!
//! - `write_info_text`: the bytes are the one text of the sections, with its checksum.
//! - `read_info_text`: the sections are found exactly where the bytes are their one text. Else the first line with
//!   which no info text continues is reported, or the wrong sum.
//! - `read_config`: the settings of a configuration, each with its section and its line, or the first line that is
//!   none.
//! - `next_piece`, `cut_at`, `trim_start`, `trim_end`: the first line of a text, and the parts of a line.
#![tactic(auto)]

mod config;
mod cuts;
mod fault;
mod names;
mod part;
mod read;
mod row;
mod state;
mod step;
mod values;
mod write;

pub use config::{ConfigLine, read_config};
pub use cuts::{cut_at, next_piece, trim_end, trim_start};
pub use fault::IniFault;
pub use names::is_before;
pub use part::Part;
pub use read::read_info_text;
pub use write::write_info_text;
