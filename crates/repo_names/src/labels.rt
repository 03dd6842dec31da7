//! Labels of backups, and the times in them, as texts.
//!
//! What is proved, by the contract of the function that is named:
//!
//! - `label_text`, `read_label`, `label_time`: a label's name, the label of a name and of no other text, and when its
//!   backup began.
//! - `date_of`, `push_two`: the day of a second, and the two digits of a number.

mod labels;
mod stamp_reader;
mod stamps;

pub use labels::{label_kind, label_text, label_time, read_label};
pub use stamps::{date_of, push_two};
