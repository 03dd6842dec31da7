//! A drain: stores the files of the log that are ready, and marks the result of each in the spool.
//!
//! What is proved of `drain`:
//!
//! - At Ok the files that are ready were gone through in byte order of their names. Each that the data folder has is
//!   stored, or is refused for its content; a refused one is passed over. `pushed` and `refused` count them.
//! - The spool then has a receipt with its sum of each stored file, and a refusal with its status and its line of each
//!   refused one. The marks of no use were removed before, and no other name changes but a temporary one.
//! - Under the id of the stanza's current cluster it is one command of the log, which stores these files: all of them
//!   at Ok, the first of them after every answer and every crash, on both disks. To a command that waits for it, it is
//!   a step of other processes, which pushes these files.
//! - Each receipt that the spool has at any moment, or that a crash leaves, is an earlier one or of a file that the
//!   repository has as the drain ends, and that all that a crash then leaves has. So a receipt comes after its push.
//! - At Ok a crash leaves the marks unchanged: their folder is synced once, at the end.
//! - It changes names below the stanza's folders of the archive and of the spool alone. Members of the archive pair
//!   that have the same bytes stay so, in all that a crash leaves too.
//! - Each end before all files are gone through has its cause.
//!
//! A stored segment costs three syncs where its folder is there: its bytes, its name and its receipt.

mod file_loop;
mod mark_sync;
mod marked_store;
mod push_marks;
mod pushing;
mod ready;
mod target;
mod whole;

pub use push_marks::Drained;
pub use whole::drain;
