//! What both kinds of backup share: the plan, what precedes the first change, and how the command ends.
//!
//! - `drafts`: plans a backup: its label, the backup that it is based on, and which files are copied.
//! - `parts`: what precedes the first change of the repository, and how the command ends.
#![tactic(auto)]

mod drafts;
mod parts;

pub use drafts::{
    DraftOrder, SecondFault, current_cluster, draft_of, draft_ordered, kind_line, made_label,
    next_second, none_equal, prior_of,
};
pub use parts::{
    BackupFault, Begun, KnownStanza, TakeOrder, backup_message, backup_status, begin, check_room,
    count_of, finish, fit, label_line, of_make, of_plan, of_second, start_workers,
};
