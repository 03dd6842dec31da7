//! archive-push:async: stores the files of the data folder's log that are ready. They are stored under the id of the
//! stanza's current cluster.
//!
//! What is proved of `drain_stanza`, while the archive lock is held:
//!
//! - It is one command of the log, which stores these files under the id of the current cluster: all of them at Ok, and
//!   the first of them after every other answer and every crash, on both disks.
//! - At Ok each file that is ready and that the data folder has is stored, or is refused for its content; and the spool
//!   has its receipt, or its refusal. A crash leaves the marks unchanged.
//! - Where the current cluster isn't the data folder's, nothing is done.
//! - It only reads the data folder, and keeps to its stanza. Each refusal has its cause.

mod ready_files;
mod texts;

pub use ready_files::drain_stanza;
pub use texts::drain_status;
