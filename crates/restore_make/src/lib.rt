//! Puts the files of a backup into a data folder.
//!
//! - `write_files` has files read by workers and written, each under its temporary name until its bytes are those that
//!   are requested. It names a file that is damaged, or that a worker couldn't read (`specs/Written`,
//!   `specs/Faults`).
//! - `restore_files` restores a whole backup into a folder that was listed immediately before (`specs/Finished`). The
//!   old control file is removed and synced first, and the new one comes last, after all else was synced. So after a
//!   refusal there is none, unless nothing was changed.
//! - At its end each file of the manifest is there, with bytes that a link read at its place, each folder, and nothing
//!   else; over links that read the repository this is the restored tree of the backup. Each file has the time that the
//!   backup has of it. With delta a file keeps its bytes where a link reports that they are the backup's (`specs/Kept`).
//!   With a recovery its settings are added (`specs/Settings`).
//!
//! What is proved, by the contract of the function that is named:
//!
//! - `write_files`: at Ok each file has the requested number, SHA-1 and time, of bytes that one of the links read, and
//!   nothing lies at its temporary name. Whatever it answers, only these paths and their temporary names have changed,
//!   and each further entry of a lost link is of one that is no steady worker.
//! - `restore_files`, at Ok: each file of the manifest is there, of the number, the SHA-1 and the time that it gives. It
//!   has bytes read by a link at its place or, with delta, those that it had, where a link reported their number and
//!   SHA-1.
//! - The settings of the recovery are there, where one is asked for, after what the backup's `postgresql.auto.conf`
//!   held, with an empty `recovery.signal`; so are the manifest's folders, and nothing else.
//! - The control file and, with a recovery, `postgresql.auto.conf` never stay. Where all links read the folder as it
//!   was, each other file with bytes that was as its entry says has stayed, except for its time.
//! - Where all links read a repository that holds the manifest's backup, this is the backup's restored tree. With delta
//!   that rests on links that read the folder as it was, and on no file there having the number and the SHA-1 of the
//!   backup's and other bytes.
//! - At Ok no path of the folder is unsynced, so a crash leaves all of it. What one in the middle leaves is said by the
//!   order of the calls alone.
//! - After a refusal there is no control file, unless nothing was changed. Each refusal has its cause. A file is
//!   damaged only where a link read bytes of another number or SHA-1 at its place.
//! - A file is unread only where the one link that is left gave that frame last, and one of the links couldn't read the
//!   bytes at its place. Workers are lost where each link has its entry, and none is a steady worker. The folder failed
//!   where its count rose.
//! - The folder's calls are made as they ask: by `restore_files` whatever it answers, and by `write_files` where the
//!   files have their folders.
#![tactic(auto)]

mod candidates;
mod control;
mod data_files;
mod digesting;
mod fault;
mod file_jobs;
mod file_results;
mod file_writes;
mod folder_restore;
mod kept_files;
mod kept_times;
mod options;
mod restore_plan;
mod settings;

pub use fault::FillFault;
pub use file_jobs::FileJobs;
pub use file_writes::write_files;
pub use folder_restore::restore_files;
pub use options::{LogFetch, Recovery, Restoration, RestoreOptions};
