//! Finds the files that the archive of a stanza holds, and their names.
//!
//! What is proved, by the contract of the function that is named:
//!
//! - `has_sum`: whether a file's stored name has its sum.
//! - `look_synced`, `look_for`, `look_in_folder`: whether a file is stored, and under which names. The first of these
//!   syncs the names of the file's folder before it looks.
//! - `all`: each stored file once. `ends`: stored whole segments of an id that bound all of them.
//! - None of these changes anything, and each answer has its cause.

mod bounds;
mod fault;
mod files;
mod listing;
mod names;
mod paths;
mod stored_lookup;

pub use bounds::ends;
pub use fault::ArchiveFault;
pub use files::Stored;
pub use listing::all;
pub use names::{FileNames, file_names};
pub use paths::{StoredName, has_sum, read_path};
pub use stored_lookup::{HISTORY_LIMIT, Look, StoredFile, look_for, look_in_folder, look_synced};
