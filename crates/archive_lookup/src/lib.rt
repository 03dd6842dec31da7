//! What the archive of a stanza holds, and what other processes store in it while a command waits.
//!
//! - `stored`: finds the files that the archive holds, and their names.
//! - `pushes`: the trait of other processes, which push into the archive step by step.
#![tactic(auto)]

mod pushes;
mod stored;

pub use pushes::{OtherProcesses, TurnError};
pub use stored::{
    ArchiveFault, FileNames, HISTORY_LIMIT, Look, Stored, StoredFile, StoredName, all, ends,
    file_names, has_sum, look_for, look_in_folder, look_synced, read_path,
};
