//! stanza-upgrade, as a command.
//!
//! What is proved, by the contract of the function that is named:
//!
//! - `StanzaUpgrade` is a command that means `upgrade_meaning`.
#![tactic(auto)]

mod upgrade;

pub use upgrade::StanzaUpgrade;
