//! The command `verify`: reports what deviates in a stanza's repository.
//!
//! - `findings`: finds what deviates.
//! - `command`: the command, with a line for each finding.
#![tactic(auto)]

mod command;
mod findings;

pub use command::{VerifyCommandFault, verify_message, verify_stanza, verify_status};
pub use findings::{Finding, FindingKind, VerifyFault, verify};
