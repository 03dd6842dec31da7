//! Tests of verification over a disk in memory: a full backup and an incremental one with their log, of which each part
//! is lost or broken in turn, or contradicts another. By values from outside.
#![tactic(auto)]

#[cfg(test)]
mod contradictions;
#[cfg(test)]
mod findings;
#[cfg(test)]
mod fixture;
#[cfg(test)]
mod same;
