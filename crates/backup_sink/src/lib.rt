//! What a backup keeps in the folder of its label. These are the bytes that workers read, each job's at a name of its
//! own, and from when on a crash leaves them there.
//!
//! What is proved, by the contract of the function that is named:
//!
//! - `BackupKeeper` meets `PartSink` over any disk: each job's bytes lie at its name, item after item, a job that
//!   begins anew has none, and no other name is touched. It counts its disk's failures.
//! - That a job of which nothing was received leaves no file is only tested.
//! - `seal`: after it a crash leaves each stored name with what it holds. `store_file`: bytes at a name, in place of
//!   what it had, which a crash then leaves.
//! - `into_ends`: how each item of each job ended, and with how many bytes.
#![tactic(auto)]

mod backup_seal;
mod keeper;
mod parts;
mod single_file;

pub use backup_seal::seal;
pub use keeper::{BackupKeeper, EndedItem};
pub use single_file::store_file;
