//! Devices in memory, which meet the traits of base_devices: tests run the program over them.
//!
//! What is proved, by the contract of the function that is named:
//!
//! - `MemDisk`, `MemDataFolder`, `MemInputFiles`, `MemFiles`, `MemConnection`, `MemClock`, `MemLocks` and `MemOutput`
//!   meet their traits and all of their contents are known. So the traits can be met.
//! - `MemDisk::unsynced`, `kept`: which names are unsynced at a moment, and what a name keeps there.
//! - `MemDisk::image`: what a crash then leaves, by a choice. It is one of the contents that a crash may leave, and a
//!   choice that can't be is refused.
#![tactic(auto)]

mod below;
mod change;
mod clock;
mod connection;
mod copy;
mod disk;
mod failing;
mod files;
mod held;
mod image;
mod locks;
mod named;
mod nodes;
mod replay;
mod sink;
mod source;
mod trace;
mod tree;

pub use clock::MemClock;
pub use connection::MemConnection;
pub use disk::MemDisk;
pub use files::MemFiles;
pub use image::ImageFault;
pub use locks::MemLocks;
pub use named::named_bytes;
pub use nodes::MemNode;
pub use sink::MemOutput;
pub use source::MemInputFiles;
pub use tree::{MemDataFolder, TreeFault};
