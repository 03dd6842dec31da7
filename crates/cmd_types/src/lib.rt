//! Terms that the commands share: how a call ends, which object failed, what a command does, and texts of messages.
//!
//! - `stages`: how a call ends, and what a command does at each stage.
//! - `server_texts`: the status and the message of each refusal of a server's answer.
#![tactic(auto)]

mod server_texts;
mod stages;

pub use server_texts::{server_message, server_status};
pub use stages::{
    ControlFile, Halt, Object, Outcome, Pairs, Plan, StageFault, SyncScope, bytes_of, damage_text,
    damaged_text, halted, history_text, long_text, mismatch_text, object_message, object_status,
    push_shown, quoted, read_prefix, stage_message, stage_status, twice_text,
};
