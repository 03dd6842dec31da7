//! rehearse: makes, backs up, expires, damages, restores and verifies a sample cluster.
//!
//! The cluster is made in an empty data folder, with its stanza and two segments for each unit of its number. It is
//! backed up in full, once it has grown incrementally, and again in full. What one full backup doesn't need is
//! expired. Then the data folder is damaged, the last backup restored by digests, and the repository verified.
//!
//! What is proved, by the contract of the function that is named:
//!
//! - `rehearse`, while both locks are held: in the log it is one command, which is those that it makes, one after
//!   another. A part of it is done after every answer and at each moment, also in all that a crash leaves, all of it at
//!   Ok, and nothing where it is refused before its first step.
//! - At Ok the lines are what a verification found, and then the summary. It says how many files and segments were
//!   made. Of each backup, which was made after the steps before it and is of its kind, it states the files that it
//!   stored itself and their bytes, as its manifest stated them. Then come the backups that the expiry removed, the
//!   files that the archive has, the files and bytes of the last backup, which is in the data folder, and the findings.
//! - The findings are those that the repository has: none where it is sound and its members agree.
//! - Each refusal has its cause: of the first two in what was there before, of a step in what the repository held as
//!   the step began. `rehearse_status`, `rehearse_message`: for a step those of the command that it makes.
//! - It keeps to its stanza, is handed no server, and its calls on the repository are made as they ask. A data folder that
//!   isn't empty is left unchanged.
//! - The lemmas for that, of any two commands: a part of the first is a part of both, and so are all of the first and a
//!   part of the second (`proofs/Thens`, `proofs/Advanced`). A command that syncs what it looks at alone does the
//!   same where the whole stanza was synced (`proofs/Settled`). What drains have stored stays stored by any command
//!   (`proofs/Spools`).
//!
//! Each backup, and the restore, has links of its own, since a worker is given its folders once.
#![tactic(auto)]

mod backup_step;
mod backup_totals;
mod cluster_life;
mod fault;
mod final_restore;
mod links;
mod order;
mod rehearsal;
mod segment_pushes;
mod stanza_setup;
mod telling;
mod texts;

pub use backup_totals::Amount;
pub use fault::{RehearseFault, StepFault};
pub use order::RehearseOrder;
pub use rehearsal::rehearse;
pub use telling::Summary;
pub use texts::{rehearse_message, rehearse_status};
