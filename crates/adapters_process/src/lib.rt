//! Real processes: the connection to a worker, the choice among workers, and what other processes do meanwhile.
//!
//! - `workers`: what the system's objects share, the connection to a worker process, and the choice among workers.
//! - `processes`: other processes: a real step, and a real start.
#![tactic(auto)]

mod processes;
mod workers;

pub use processes::Others;
pub use workers::{Call, Faults, RealLink, RoundRobin, Scratch, end_workers, read_some};
