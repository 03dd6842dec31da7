//! Plans a backup: its label, the backup that it is based on, and which files are copied.
//!
//! - `next_second` gives the second by which its label is named: one that the clock shows, later than each second that
//!   the label of a listed backup states, and later than the folders of labels that lie in the stanza's folder. A clock
//!   that is more than ten seconds behind these is refused.
//! - `prior_of` states the listed backup that one of a kind is based on, and `made_label` the label that it then gets.
//!   Without one it is a full backup, which `kind_line` states.
//! - `draft_ordered` plans what `backup_make` makes: a file that is as the prior backup has it is left, and refers to
//!   the backup that has its bytes.
//! - `draft_of` plans a full backup: every file that was taken, each read anew. What is taken of a running
//!   server leaves the path of its label file free (`proofs/Free`).
//!
//! What is proved, by the contract of the function that is named:
//!
//! - `next_second`: a second that the clock showed, past each that the label of a listed backup states, or a folder's
//!   among those of the backups. Where the clock is refused, the two seconds that are reported lie more than ten apart.
//! - That the later one is a label's, and that no other clock is refused, is only tested.
//! - `prior_of`: of the listed backups of the cluster that belong to the latest full one, the last on which one of the
//!   kind may be based. `made_label`, `kind_line`: the label that it then gets, and the line of one that becomes full.
//! - `draft_ordered`: a draft of the files and folders that were taken, based on that backup, in which a file is left
//!   that is as that backup's manifest states it: by its size and its time, or its digest. It is one that `make` makes.
//! - `draft_of`: a draft of the files and folders that were taken, each file read anew, named by that second, with no
//!   prior backup. It is one that `make` makes. `current_cluster`: the list's current one.

mod any_draft;
mod fault;
mod full_draft;
mod prior_backup;
mod seconds;

pub use any_draft::{DraftOrder, draft_ordered};
pub use fault::SecondFault;
pub use full_draft::{current_cluster, draft_of, none_equal};
pub use prior_backup::{kind_line, made_label, prior_of};
pub use seconds::next_second;
