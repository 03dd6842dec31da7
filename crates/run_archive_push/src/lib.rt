//! archive-push, as a command: a file of the log is stored, or it is queued for archive-push:async.
//!
//! What is proved, by the contracts of the trait `Command`:
//!
//! - `ArchivePush` means `push_meaning`: it takes the archive lock and heals the archive pair, and at Ok the file that
//!   the server names is stored. No crash removes it then.
//! - `ArchivePushQueued` means `queued_push_meaning`: only its places are opened. It starts archive-push:async with
//!   arguments that name all places (`drain_arguments`), and it succeeds only where a step of other processes, now or
//!   before, has stored a file of that name with the bytes that the data folder has.
//! - Each refusal has its cause, its status and its message.
#![tactic(auto)]

mod arguments;
mod fault;
mod push;
mod queue;

pub use fault::QueuedPushFault;
pub use push::ArchivePush;
pub use queue::ArchivePushQueued;
