//! A stanza: what its cluster is, how it is created, and how it is upgraded.
//!
//! What is proved, by the contract of the function that is named:
//!
//! - `read_control`: what 16 bytes and a version text state, and each refusal.
//! - `create`: the stanza is made, or as before, after every answer and every crash. It is new only where the
//!   repository had no stanza, no archive file of it and nothing in the folder of a label, and the same where there was
//!   a stanza of this system identifier and version. Both members of both pairs then agree.
//! - `upgrade`: after every answer and every crash the stanza is as before, or the cluster is its current one. It is
//!   added only where the current one is another, under the next number, and to fewer than 1,000 others. Both members of
//!   both pairs then agree.
//! - Each refusal has its cause, and one for what was found or for a limit changes nothing.
#![tactic(auto)]

mod control;
mod creation;
mod fault;
mod keeping;
mod making;
mod names;
mod pair_read;
mod pair_rules;
mod pair_texts;
mod stanza_save;
mod stanza_upgrade;
mod text_save;
mod unused;
mod upgrade_fault;

pub use control::{Control, ControlFault, NEWEST_VERSION, OLDEST_VERSION, read_control};
pub use creation::{Created, create};
pub use fault::{Identity, StanzaFault};
pub use names::{archive_info_name, backup_info_name};
pub use pair_rules::{fit_list, validate_list};
pub use stanza_upgrade::{Upgraded, upgrade};
pub use upgrade_fault::UpgradeFault;
