//! archive-push: stores a file of the data folder's log in the archive.
//!
//! What is proved, by the contract of the function that is named:
//!
//! - `push_order`: the file that the path names, or why it names none.
//! - `push_file`, while the archive lock is held: the file is stored under the id of the current cluster, or was. At Ok
//!   its bytes are put at its path and no other file but temporary ones changes, or none does, whatever else lies in
//!   the repository.
//! - All of its steps are done at Ok, a part after every answer and every crash, and nothing changes where it is
//!   refused. At Ok each crash leaves the file alike. The archive pair's members are left alone, also in what a crash
//!   leaves.
//! - `open_log_file`: a file of the log, its first bytes and their number, where it isn't too long.
//! - Each refusal has its cause, with its status and its message. `content_text`: the message, where a file is refused
//!   for its content.
#![tactic(auto)]

mod current;
mod fault;
mod log_file;
mod order;
mod push_command;
mod texts;

pub use current::id_of;
pub use fault::{PushFault, of_store};
pub use log_file::{LogFile, open_log_file};
pub use order::{PushOrder, push_order};
pub use push_command::{limit_of, push_file};
pub use texts::{content_text, push_message, push_status};
