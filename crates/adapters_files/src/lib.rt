//! The system's devices: its files, its output and its sockets, as the commands and a worker are handed them.
//!
//! What is proved, by the contract of the function that is named:
//!
//! - `RealDisk`, `RealDataFolder`, `RealFiles`, `RealInputFiles`, `RealInput`, `RealOutput`, `RealReplies`,
//!   `RealLocks`, `RealClock` and `RealConnection` meet their traits: that Failed comes only where the count of faults
//!   rose, which path a name means, and the like.
//! - Nothing is proved about content, nor about the note of synced folders.
#![tactic(auto)]

mod clock;
mod connection;
mod control;
mod disk;
mod files;
mod filesystem_sync;
mod handles;
mod input;
mod lock_files;
mod locks;
mod mounts;
mod noted;
mod phase;
mod place;
mod progress;
mod replies;
mod restore_sync;
mod sink;
mod socket_call;
mod source;
mod sync_directories;
mod total;
mod tree;
mod walk;

pub use clock::RealClock;
pub use connection::RealConnection;
pub use disk::RealDisk;
pub use files::RealFiles;
pub use input::RealInput;
pub use locks::RealLocks;
pub use replies::RealReplies;
pub use sink::RealOutput;
pub use source::RealInputFiles;
pub use tree::RealDataFolder;
