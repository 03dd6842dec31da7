//! What the arguments of a command line and a configuration ask for, with the value of each option.
//!
//! What is proved, by the contract of the function that is named:
//!
//! - `config_path`: where the arguments say that the configuration lies, or their fault.
//! - `resolve_arguments`: the command that arguments and configuration resolve to, with the value in force in each
//!   option's field, and the unknown keys; or the first fault, in the definition's order.
#![tactic(auto)]

mod arguments;
mod options;
mod path;
mod resolve;
mod rules;
mod source;
mod text;
mod usage;

pub use options::{
    ActionWord, KindWord, LogWord, Options, OutputWord, RestoreWord, RetentionWord, TimelineWord,
};
pub use path::{ConfigPath, config_path};
pub use resolve::{Command, resolve_arguments};
pub use usage::Usage;
