//! Tests of what a backup takes of a data folder, and of the sample cluster, by values from outside.
//!
//! - `plans`: what a backup takes, and the jobs that copy it.
//! - `sample`: the data folder of a sample cluster, over a data folder in memory.
#![tactic(auto)]

mod plans;
mod sample;
