//! The system's objects: what all of them share, the connection to a worker process, and the choice among workers.
//!
//! What is proved, by the contract of the function that is named:
//!
//! - `Faults::known`: Failed comes only where the count rose, and being out of memory isn't counted.
//! - `RealLink` meets `Link`: its counts of jobs and of read jobs, the last five bytes that it gave, and that Failed
//!   comes only where its count of faults rose. It says nothing about a worker's answers.
//! - `RoundRobin` meets `Scheduler`: it picks the place after the last one that it picked.

mod ended;
mod faults;
mod link;
mod pieces;
mod ready;
mod scheduler;
mod scratch;
mod tail;

pub use ended::end_workers;
pub use faults::{Call, Faults};
pub use link::RealLink;
pub use pieces::read_some;
pub use scheduler::RoundRobin;
pub use scratch::Scratch;
