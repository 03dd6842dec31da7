//! Records a backup: makes its manifest from the plan and what workers read, and the stanza's list with it.
//!
//! - `names_of` gives each job of a plan its name below the label's folder (`specs/Naming`).
//! - `places_of` and `went` state how the jobs went: how each item ended, and how many bytes lie before it.
//! - `entries_of` gives the manifest's files in the order of the listing, each by its choice (`specs/Entries`). It is
//!   what was received, with its number and sum; or a file of the prior backup, which refers to the label that has its
//!   bytes; none for a file that had vanished.
//! - `record_of` makes the manifest of these files, with a further one where there is one (`specs/Further`), and the
//!   list with its backup (`specs/Making`), both within the rules of their texts, and refuses a backup whose control
//!   file vanished.
//!
//! The lemmas say what such a manifest is: each entry has its bytes (`Rows`), and the manifest keeps its rules
//! (`Rules`). The result of a plan keeps the bounds that this needs (`Coming`). There is a backup of which it is the
//! manifest (`Adding`), where the items lie in their places (`Recorded`).
//!
//! What is proved, by the contract of the function that is named:
//!
//! - `entries_of`: the files of the manifest, each by its choice and by how its item ended. `places_of`: how many bytes
//!   lie before each item of a job. `names_of`: the name of each job, below the folder of the label.
//! - `record_of`: of a head, a plan and what was received, the manifest of these files and no others, and the list as
//!   it was with this backup last. A further file is in its place where there is one.
//! - The labels that the backup refers to are the listed ones that its files refer to. Its sizes are the sums over all
//!   its files and over those of its own. Both values keep the rules of their texts. It is refused where `PG_VERSION`
//!   or the control file had vanished.
//! - Lemmas: each entry with its bytes. The manifest keeps its rules, and is that of the backup wherever the items lie
//!   in their places and the prior backup's manifest is the one that was read.
//! - Lemmas: what `record_of` asks for follows from the plan and from what was received, and the list is that of the
//!   repository with the backup.
#![tactic(auto)]

mod entries;
mod further_file;
mod manifest_record;
mod names;
mod places;
mod ran;
mod references;
mod run_view;
mod sizes;

pub use entries::entries_of;
pub use manifest_record::{Head, Record, RecordFault, record_of};
pub use names::names_of;
pub use places::places_of;
pub use ran::Ran;
pub use run_view::went;
