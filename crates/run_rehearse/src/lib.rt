//! rehearse, as a command.
//!
//! What is proved, by the contract of the function that is named:
//!
//! - `Rehearse` is a command that means `rehearse_meaning`.
#![tactic(auto)]

mod rehearsal;
mod sample_order;

pub use rehearsal::Rehearse;
pub use sample_order::SampleOrder;
