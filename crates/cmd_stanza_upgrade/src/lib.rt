//! stanza-upgrade: gives a stanza a further cluster, that of the data folder, or keeps the current one.
//!
//! What is proved, by the contract of the function that is named:
//!
//! - `upgrade_stanza`, while both locks are held: the stanza gets the cluster of the data folder as its current one, or
//!   is kept and mended where it has it already. All of it is done at Ok, a part after every answer and every crash, and
//!   nothing changes where it is refused.
//! - At Ok the line says which of the two it was, and under which id the log of a further cluster is archived. Both
//!   members of both pairs are alike, and have the texts of the longer values where a cluster was added.
//! - No name but the members of its two pairs and temporary ones changes. Where a server is asked, it is of the
//!   cluster's system at Ok, and the talk is ended. Each refusal has its cause, with its status and its message.
#![tactic(auto)]

mod fault;
mod lines;
mod texts;
mod upgrade_command;

pub use fault::UpgradeCommandFault;
pub use texts::{upgrade_message, upgrade_status};
pub use upgrade_command::{StanzaValues, upgrade_stanza};
