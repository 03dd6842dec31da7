//! An expiry: removes the backups that the retention rules expire, and what only they needed. It takes them out of
//! `backup.info`, then drops the folders of labels that it doesn't list, and then removes the files of the archive that
//! the remaining backups don't need.
//!
//! `expire` promises that after every answer, and in all that a crash leaves at any moment of it, the repository is as
//! before, or without the expired backups and without some of the files that aren't needed. At `Ok` it is without all
//! of these. What it holds at a time is the list of backups and the names of one folder.
//!
//! What is proved, by the contract of the function that is named:
//!
//! - `expire`, and `expire_list`, which is handed the list: of a sound repository a part of the expiry is done after
//!   every answer and at each moment after a crash, and all of it at Ok. The labels that it gives are those that the
//!   rules condemn, and it returns how many files of the archive were removed.
//! - At each moment each backup that stays, and each file that it needs, have the bytes that they had.
//! - Nothing changes but the backup pair, folders of labels, and files of the archive that aren't timeline histories.
//!   Whatever else lies in the repository, no folder of a label that stays in the list changes, and no file that the
//!   backups left need. Where the pairs have no list nothing changes. It keeps to its stanza, and its calls are made as
//!   they ask.
//! - Each refusal has its cause. Where one of the pairs has no value, or their histories differ, only was read.
//! - At Ok both members of the backup pair are alike, on the disk and in all that a crash leaves.
#![tactic(auto)]

mod archive_removal;
mod backup_list;
mod expiry_plan;
mod expiry_run;
mod expiry_steps;
mod fault;
mod labels;
mod log_folders;
mod unlisted_folders;
mod unneeded;

pub use expiry_run::{Expired, expire, expire_list};
pub use fault::ExpireFault;
