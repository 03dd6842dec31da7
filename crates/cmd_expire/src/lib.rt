//! expire: removes the backups that the retention rules expire, and what only they needed. The same follows a backup.
//!
//! The stanza's list is validated against the archive pair's history first, and the clock is read where the rules count
//! days. Only then is anything written.
//!
//! What is proved, by the contract of the function that is named:
//!
//! - `expire_stanza`, while the backup lock is held: in the log it is an `Expire` by the rules at one moment. A part of
//!   it is done after every answer and at each moment, all of it at Ok, and nothing where it is refused.
//! - At Ok, and wherever anything changes, that moment is the second that the clock showed where the rules count days,
//!   and else 0. Where they don't, the clock isn't used.
//! - At Ok the lines state the labels that the rules condemn, in the list's order, and how many files of the archive
//!   were removed. Both members of the backup pair are alike, on the disk and in all that a crash leaves.
//! - At each moment each backup that stays, and each file that it needs, have the bytes that they had. Nothing changes
//!   but the backup pair, folders of labels, and files of the archive that aren't timeline histories. Whatever else
//!   lies in the repository, no folder of a label that stays in the list changes, and no file that is needed then.
//! - Each refusal has its cause in what was there before, and each object that failed counted it.
//! - `rules_of`: the rules are those of the options.
//! - `expire_after`, after a backup and under its lock, does the same, and reports what was removed after the backup's
//!   lines. It reads both pairs anew. Each of its faults has its cause in what the backup left.
//! - Lemmas (`proofs/Followed`): a backup that reached its end and such an expiry after it are one command of the log,
//!   of which a part is done at each moment. A sound repository has to be sound with the backup for that.
#![tactic(auto)]

mod expire_command;
mod fault;
mod following;
mod lines;
mod moment;
mod rules;
mod texts;

pub use expire_command::{InfoValues, expire_stanza};
pub use fault::{ExpireCommandFault, FollowUpFault};
pub use following::expire_after;
pub use rules::{kind_by, rules_of};
pub use texts::{after_message, after_status, expire_message, expire_status};
