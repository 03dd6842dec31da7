//! Which backup of a stanza is restored: the one of a label, or the last one that qualifies.
//!
//! A backup qualifies for a moment if it had ended before. It qualifies for a position of the log if its part of the log
//! ends there or before. It qualifies for a timeline if it ends on it, or on one that this goes back to, before that was
//! left. A manifest states the backup's part of the log, and a history file in the archive what a timeline goes back to.
//! Neither is read where the choice doesn't need it. The repository is only read.
//!
//! What is proved, by the contract of the function that is named:
//!
//! - `choose`: the label that is asked for and that the list has; or that of the last backup of the list that
//!   qualifies. Each later one has ended too late, or its manifest was read, and states that it doesn't qualify.
//! - Each refusal has its cause, in what was there before, with its status and its message.
//! - `load`: the manifest of a label, which has this label in it.
//! - Where the repository represents a stanza, the label is that of the stanza's chosen backup, as a lemma.
#![tactic(auto)]

mod ancestry;
mod backup_choice;
mod choice;
mod fault;
mod manifest_load;
mod qualifying;
mod texts;

pub use backup_choice::{Chosen, choose};
pub use choice::{Bounds, Choice, Deadline};
pub use fault::{ChoiceFault, DamagedManifest};
pub use manifest_load::load;
pub use texts::{choice_message, choice_status, damaged_message};
