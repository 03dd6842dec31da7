//! Retention: which backups, and which files of the archive, an expiry removes.
//!
//! - `expired` gives the labels that expire (`specs/Condemned`): the full backups before the last n, or before the last
//!   one that is n days old, and the differentials before the last n full and differential backups. So does every
//!   backup that depends on one of these.
//! - `spans` gives what the backups that are left keep of one cluster's part of the archive, and `keeps` whether one
//!   file is kept (`specs/Needed`).
//!
//! Nothing is read and nothing is written here: all three go over values.
//!
//! What is proved, by the contract of the function that is named:
//!
//! - `expired`: the labels are exactly those that the definition condemns, by the rules, the moment and the list; of
//!   the backups of a repository, those that the rules on full and differential backups name, and all that descend from
//!   them.
//! - `spans`, `keeps`: what is kept of a cluster's part of the archive, and whether one file is, are what the
//!   definition says.
#![tactic(auto)]

mod condemned;
mod counted_spans;
mod counting_rules;
mod dependents;
mod labels;
mod needed;
mod rules;

pub use condemned::expired;
pub use labels::has_label;
pub use needed::{keeps, spans};
pub use rules::{FullRule, KeptFiles, Rules};
