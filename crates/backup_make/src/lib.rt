//! Makes a backup: stores what workers read, durably, and then saves its manifest and the stanza's list.
//!
//! - `make` makes that of a stopped server.
//! - That of a running one is made in parts: `fetch` while the server is in its backup, and `close_online` once it has
//!   stopped it, which stores its label file. `publish` comes once the archive has the part of the log that the backup
//!   needs. Others may push to the archive meanwhile.
//!
//! What is proved, by the contract of the function that is named:
//!
//! - `store`: only names below the label's `pg_data` and `bundle` are touched, after every answer. At Ok each job's
//!   bytes lie at its name, item after item; they are what the links read, as `run_jobs` says it; and so they lie
//!   there in all that a crash leaves. Each refusal has its cause.
//! - `make`, of a draft, which has a listing, its plan and the stanza's list: the bytes are stored durably, then the
//!   manifest's two members are saved, and then those of the list.
//! - The list is unchanged, or the backup is listed, of bytes that the links read and that lie at the places that the
//!   manifest gives. This holds of what the disk holds and of what a crash leaves at each moment.
//! - At Ok the backup is listed, with a second of its stop that the clock showed, and both members of both pairs are
//!   alike, on the disk and in all that a crash leaves. A refusal may come after its listing only by a failure of the
//!   disk, or where memory ran out.
//! - Nothing changes but names in the folder of its label, and the pair of the list, whatever else the repository
//!   holds. Each refusal has its cause, and names the file that a worker couldn't read.
//! - `fetch`, of a running server: the jobs are done and the result of them lies in the label's folder, durably.
//!   `close_online`: so does the server's label file, where no listed file or folder has its path; the stop's second
//!   is one that the clock showed. Both leave the stanza's list, in what a crash leaves too.
//! - `publish`: the manifest, with the label file in its place and the part of the log, and then the list are saved,
//!   with the crash clause of `make` from its own start on. What lies in the label's folder lies there still, whatever
//!   others push to the archive meanwhile.
//! - Lemmas: whatever a crash leaves represents the repository, or the repository with the backup; at Ok all of it
//!   represents the latter. All that is looked at lies apart from what a backup changes. References hold in each
//!   content that a crash leaves.
//! - Lemma: each listed file has an entry in the manifest, unless a link reported that it is absent.
//! - Lemma: the files of a full backup are the data folder's, where all links read what it holds. The lemmas take as
//!   premises that a text of `backup.info` and one of a manifest is that of one value.
#![tactic(auto)]

mod backup_bytes;
mod backup_close;
mod backup_run;
mod closing_record;
mod draft;
mod draft_jobs;
mod fault;
mod list_entry;
mod online;

pub use backup_bytes::store;
pub use backup_close::{Closed, close, close_online};
pub use backup_run::make;
pub use draft::Draft;
pub use draft_jobs::{Fetched, fetch};
pub use fault::MakeFault;
pub use list_entry::publish;
pub use online::Online;
