//! restore: puts a backup of the stanza into a data folder.
//!
//! The backup is chosen from the stanza's list first. Then the data folder is looked at, which has to be empty, or with
//! delta to hold a cluster's files. The backup's manifest is read, unless the choice has read it. Only then the workers
//! are given their folders, and the files are fetched. The repository is only read.
//!
//! What is proved, by the contract of the function that is named:
//!
//! - `restore_order`: the label that the argument gives, or that it gives none.
//! - `restore_backup`, at Ok: the folder was empty, or with delta had a `PG_VERSION`. It has each file of a manifest
//!   that the repository has, with bytes that the used links read or as delta kept it, and each folder of that
//!   manifest.
//! - It has the settings of the recovery, with the command by which the server fetches the log and with the settings of
//!   one's own, and nothing else.
//! - The manifest is that of the label that was asked for and that the list has, or of the list's last backup with which
//!   the recovery can begin, and it has this label in it. The one line states the label.
//! - Where the repository represents a stanza, and all used links read that very repository, the folder is the restored
//!   tree of the stanza's backup of that label, or of its last with which the recovery can begin.
//! - At Ok no path of the folder is unsynced, so a crash leaves all of it.
//! - The repository is only read, and the folder's calls are made as they ask. After a refusal there is no control
//!   file, unless nothing was changed. Nothing was changed by a refusal before the workers, or where the repository
//!   failed.
//! - Each refusal has its cause, in what was there before, with its status and its message.
#![tactic(auto)]

mod fault;
mod folder_fill;
mod folder_listing;
mod log_fetch;
mod order;
mod restore_command;
mod target_lines;
mod texts;
mod worker_start;

pub use fault::RestoreCommandFault;
pub use order::{
    Configuration, FetchArguments, InfoValues, LogRecovery, RecoverOrder, RecoveryEnd,
    RecoveryTarget, RecoveryType, TargetAction, TargetKind, Timeline, restore_order,
};
pub use restore_command::restore_backup;
pub use texts::{restore_message, restore_status};
