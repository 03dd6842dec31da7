//! Writes files of a data folder as workers read them.
//!
//! What is proved, by the contract of the function that is named:
//!
//! - `FileKeeper` meets `PartSink` over any data folder. What is held of a job is what the folder has of its file,
//!   under the temporary name, and from the right end on under the file's own, with the requested time. No other path
//!   is touched. It counts a failure only where the folder failed. No call is faulty where each file has its folder,
//!   and this is none of the files, nor the temporary name of one.
//! - `into_files`, `is_wanted`: how each ended.

mod files;
mod keeper;

pub use files::{Filed, Wanted};
pub use keeper::FileKeeper;
