//! Puts bytes on a disk so that a crash leaves the old ones or the new.
//!
//! What is proved, by the contract of the function that is named:
//!
//! - `stage`, `publish`, `replace`, `save_both`: what the disk then holds, and what a crash leaves. `replace` and
//!   `save_both` change their names alone.
//! - `start_stage`, `add_stage`, `end_stage`: the same for bytes that come in pieces.
//! - `drop_folder`: no name below the folder is there, and a crash leaves none but an unsynced one.
//! - `begin`: what is synced, and that a disk that keeps a log then represents one repository in all that a crash
//!   leaves.
//! - `read_whole`: all the bytes, within the limit.
#![tactic(auto)]

mod fault;
mod folder_removal;
mod initial_sync;
mod publication;
mod replacement;
mod staging;
mod two_names;
mod whole_read;

pub use fault::StoreFault;
pub use folder_removal::drop_folder;
pub use initial_sync::begin;
pub use publication::publish;
pub use replacement::replace;
pub use staging::{Staged, Staging, add_stage, end_stage, stage, start_stage};
pub use two_names::save_both;
pub use whole_read::read_whole;
