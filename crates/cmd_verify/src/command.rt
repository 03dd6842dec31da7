//! verify: reports what deviates in a stanza's repository, a line a finding.
//!
//! What is proved, by the contract of the function that is named:
//!
//! - `verify_stanza`: the lines are those of exactly the findings that `verify` of cmd_verify defines, one each, in
//!   their order; with none the command ends as a report without lines does. Of a sound repository whose members agree
//!   there is none. Nothing changes, and each refusal has its cause.
//! - `verify_status`, `verify_message`: the status and the message of each refusal, as defined.

mod fault;
mod texts;
mod verify_command;

pub use fault::VerifyCommandFault;
pub use texts::{verify_message, verify_status};
pub use verify_command::verify_stanza;
