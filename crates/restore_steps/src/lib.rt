//! What a restore consists of: where a file's bytes are stored, the folders, and the files' contents.
//!
//! - `sources`: where the bytes of a backup's files are in the repository, as items and jobs for workers.
//! - `folders`: makes a data folder ready for the files of a backup.
//! - `contents`: writes files of a data folder as workers read them.
#![tactic(auto)]

mod contents;
mod folders;
mod sources;

pub use contents::{FileKeeper, Filed, Wanted};
pub use folders::{begin_bare, begin_timed, clear, is_control, make_folders};
pub use sources::{source_item, source_job};
