//! Makes a data folder ready for the files of a backup.
//!
//! What is proved, by the contract of the function that is named:
//!
//! - `clear`: at Ok all of a whole listing is gone that the manifest doesn't have as a node of its kind, and the
//!   control file, and nothing else has changed.
//! - `make_folders`, `begin_bare`: at Ok the folders, and the files without bytes with their times, are there.
//! - `begin_timed`: at Ok a file of no bytes and of this time is at the path, and nothing else has changed.
//! - After every answer of `clear` only what is listed and may not stay has changed, and after every answer of the
//!   others only their own paths. The first two put no control file where there was none. Each refusal has its cause.
//! - The folder's calls are made as they ask. Of `clear` they are where all that is there is listed in byte order, each
//!   folder on a path among it, and the manifest has each folder on its paths.
//! - Those of `make_folders` are where the folders are in byte order and so complete.
//! - Those of `begin_bare` are where the files' folders are there, and none of them is one of the files.

mod backup_paths;
mod bare_files;
mod folder_setup;

pub use bare_files::{begin_bare, begin_timed};
pub use folder_setup::{clear, is_control, make_folders};
