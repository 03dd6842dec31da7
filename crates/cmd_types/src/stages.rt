//! What all commands share: how a call ends, which object failed, what a command does, texts of messages.
//!
//! What is proved, by the contract of the function that is named:
//!
//! - `stage_status`, `stage_message`, `object_status`, `object_message`: the status and the message of each, as
//!   defined.
//! - `read_prefix`: the first bytes of a known file.
//! - Lemmas: after stages that leave what the disk represents, from one repository on or image by image, the whole
//!   command does the same, from any disk on, as its own part.

mod fault;
mod halt;
mod object;
mod outcome;
mod plan;
mod prefix_read;
mod texts;

pub use fault::{ControlFile, StageFault};
pub use halt::{Halt, halted};
pub use object::Object;
pub use outcome::Outcome;
pub use plan::{Pairs, Plan, SyncScope};
pub use prefix_read::read_prefix;
pub use texts::{
    bytes_of, damage_text, damaged_text, history_text, long_text, mismatch_text, object_message,
    object_status, push_shown, quoted, stage_message, stage_status, twice_text,
};
