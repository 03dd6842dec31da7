//! The stages that each command goes through before its own part: places, locks, and what is read under the locks.
//!
//! What is proved, by the contract of the function that is named:
//!
//! - `open_tree`, `open_disk`: only the place that is named is opened.
//! - `take_locks`: at Ok exactly the plan's locks were taken, in their order, and are held; else the first at most. A
//!   held one is refused only where the count of held locks rose. `release_locks`: no lock is held.
//! - `prepare`, which asks that they are held: what the disk represents, and all that a crash leaves of it, is as
//!   before. At Ok it is steady, where the plan syncs the whole stanza, and else all that a crash leaves has the same
//!   archive pair.
//! - What the plan asks for was read: the data folder's cluster, and the values that the pairs have. Members of a pair
//!   that is healed agree, and each crash leaves both as the disk has them, where no name that is looked at was
//!   unsynced. Where none is healed the disk is unchanged.
//! - Each refusal has its cause, the control file first.
#![tactic(auto)]

mod cluster;
mod command_locks;
mod opened_places;
mod pairs;
mod preparation;
mod ready;

pub use command_locks::{LockNames, lock_names, release_locks, take_locks};
pub use opened_places::{open_disk, open_tree};
pub use preparation::prepare;
pub use ready::Ready;
