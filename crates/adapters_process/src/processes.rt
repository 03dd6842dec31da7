//! Other processes of the system: a real step, and a real start.
//!
//! A step is a second that this process waits while others work. What they do meanwhile is unknown. A start runs
//! this program again, with none of its streams, and doesn't wait for it.
//!
//! What is proved, by the contract of the function that is named:
//!
//! - `Others` meets `OtherProcesses`; it says nothing about what others do.

mod others;

pub use others::Others;
