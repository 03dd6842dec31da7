//! The headline theorem as functions: calls and crashes of the program, over any devices and over devices in memory.
//!
//! - `called` calls the program, and says of the call what `base_crash_lists`'s `Does` says.
//! - `play_one` plays one call over devices in memory, and its crash at any moment where it has one; `play` a list of
//!   them. They hand back what each call left of all objects.
//! - `Disks` are the two disks on which they begin: empty ones, or any that hold what some calls made.
//!
//! What is proved, by the contract of the function that is named:
//!
//! - `called`: what `run` does is a call of a trace, or its arguments were refused and nothing was done. From disks
//!   that keep a list of calls it leads to disks that keep it with this one, whether the call ends or is stopped.
//! - The same clause: a call that succeeded kept its promise, of a repository that the calls before it made. And each
//!   file is there of which a call was an acknowledged push, or a later step has removed it.
//! - `play_one`: the same over devices in memory, with a crash at any moment of each disk, on which both are opened
//!   anew. `play`: a list of these. Where a call waits for steps of other processes, these have to push for the stanza
//!   that its arguments ask for.
//! - `Disks::holding`: disks keep each list of calls of which what they hold is; `Disks::empty` those of none.
#![tactic(auto)]

mod call_list;
mod call_or_crash;
mod disks;
mod program_call;
mod workers;

pub use call_list::play;
pub use call_or_crash::{Act, CrashPoint, Ended, Left, PlayFault, play_one};
pub use disks::Disks;
pub use program_call::called;
pub use workers::Workers;
