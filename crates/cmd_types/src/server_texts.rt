//! The status and the message of each refusal of a server's answer, for each command that talks with a server.
//!
//! What is proved, by the contract of the function that is named:
//!
//! - `server_status`, `server_message`: the status and the message of each refusal. No status is that of a command that
//!   succeeded, as a lemma.

mod texts;

pub use texts::{server_message, server_status};
