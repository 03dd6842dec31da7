//! What a backup takes of a data folder, and which jobs copy it.
//!
//! - `filter` takes every file and folder of a listing that isn't left out (`specs/Omitted`), or reports the first
//!   reason why there can be no backup (`specs/Filter`). These are, in their order, a link or a path that can't be in
//!   one, a listing out of order, a missing control file, and too many files or bytes. What it takes is in order and
//!   keeps a manifest's rules, whatever it was shown.
//! - `plan` gives each file its choice and each job its files, exactly as `specs/Layout` has it: which files the prior
//!   backup has already, which go alone, which into which bundle, and the control file last.
//! - `digests` gives the jobs that find out, file by file, whether the bytes are those of the prior backup
//!   (`specs/Digests`).
//!
//! What is proved, by the contract of the function that is named:
//!
//! - `filter`: all files and folders of a listing that a backup doesn't leave out, in order and by a manifest's rules,
//!   whatever was listed; or the first refusal with its cause. Nothing is passed over silently, and a true listing is
//!   never refused for its order.
//! - `plan`: the choice of each file and the jobs are those of the layout. `digests`: the jobs whose digests say
//!   whether files are those of the prior backup.
//! - Lemmas: each file that is read is an item of its job, at the place that its choice gives; one job is the last;
//!   each job keeps a frame's rules.
#![tactic(auto)]

mod copy_plan;
mod digest_plan;
mod fault;
mod file_kind;
mod file_limits;
mod listing_filter;
mod listing_order;
mod listing_walk;
mod omissions;
mod prior_entry;
mod server_running;
mod values;

pub use copy_plan::plan;
pub use digest_plan::digests;
pub use fault::PlanFault;
pub use listing_filter::filter;
pub use prior_entry::find_entry;
pub use server_running::is_running;
pub use values::{BackupPlan, Choice, Listing, PlanSettings, Taken};
