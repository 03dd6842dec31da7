//! stanza-create, as a command.
//!
//! What is proved, by the contract of the function that is named:
//!
//! - `StanzaCreate` is a command that means `create_meaning`.
#![tactic(auto)]

mod create;

pub use create::StanzaCreate;
