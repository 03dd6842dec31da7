//! `archive-push` in the background: queues a file of the log for archive-push:async, and waits until it is stored.
//!
//! What is proved of `queue_file`:
//!
//! - It asks the spool first. Where that has the file's receipt, or says that the file was refused, no other process is
//!   started and no step is taken.
//! - Else it starts a drain once, and after each step of other processes it asks again, for this many steps at most.
//!   The steps are all that is done to the repository; in the log they are one command.
//! - It succeeds only after a receipt of the file with this sum. Either the spool had it as the call began, and then a
//!   repository of the log has stored such a file; or one of the steps has stored it. Then the repository and all that
//!   a crash leaves of it have a file of this name and sum as the call ends.
//! - A refusal is reported with the status and the line that its mark has; that mark was there as the call began, or
//!   a step put it there.
//! - That the file isn't stored yet is reported only after that many steps, of which none left a mark of the file.
//! - It gives no receipt, and removes the marks of the file.
//! - Each refusal has its cause.
//!
//! `queue_push` reads the file that the server names, and queues it with the sum of its bytes. It proves too that the
//! wait is one command of the log, whatever is known of the disks before, and that it keeps to its stanza.
#![tactic(auto)]

mod background_push;
mod fault;
mod log_file_sum;
mod mark_lookup;
mod queued_file;
mod texts;
mod turn_wait;

pub use background_push::queue_push;
pub use fault::QueueFault;
pub use queued_file::queue_file;
pub use texts::{queue_message, queue_status};
