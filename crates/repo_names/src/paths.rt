//! Which paths below a data folder a backup may hold.
//!
//! What is proved, by the contract of the function that is named:
//!
//! - `check_name`, `check_name_within`: whether a path is one, of at most 1,024 bytes or of the given number; else the
//!   first of its faults.

mod names;

pub use names::{NameFault, check_name, check_name_within};
