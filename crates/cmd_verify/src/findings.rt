//! Finds what deviates in a stanza's repository.
//!
//! `verify` reads the two pairs, every stored segment, and of each listed backup the manifest, the files and the
//! segments that it needs. It answers exactly the deviations that `specs/Findings` defines, each once, by name, then
//! by kind, then by line; and none of a sound repository whose members agree. Nothing is written. A file that several
//! backups share is read once, in the turn of the one in whose folder it lies.
//!
//! What is proved, by the contract of the function that is named:
//!
//! - `verify`, of a stanza whose backup pair has this value: at Ok the findings are exactly the ways in which the disk
//!   deviates, each once, by name, kind and line. There is none where the repository is sound and the members of its
//!   pairs agree.
//! - What may deviate: members of pairs, stored segments, files of listed backups, segments that they need, labels that
//!   they refer to, and manifests unlike their entries. Besides, the two histories may differ, a file may be of no cluster
//!   of the history, and a prior of another cluster.
//! - It only reads. `Disk` comes only where the disk's count of faults rose, and `TooMany` only where more files are
//!   archived than can be listed.

mod archive;
mod backups;
mod contradictions;
mod entries;
mod files;
mod finding;
mod gaps;
mod order;
mod pairs;
mod place_sum;
mod priors;
mod references;
mod seconds;
mod shared_files;
mod whole_check;

pub use finding::{Finding, FindingKind, VerifyFault};
pub use whole_check::verify;
