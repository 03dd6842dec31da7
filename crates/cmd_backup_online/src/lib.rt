//! backup of a running server, of any kind.
//!
//! The stanza's list is validated, the workers are given their folders, the manifest of the backup that the kind asks
//! for is read, and a label is named (`prepare`). Then the server is asked to start its backup, the data folder is
//! listed and read (`gather`), and the server is asked to stop; its talk is ended where one of these is refused
//! (`talk`). The label file is stored (`end_backup`), the segments of the log that the backup needs are waited for
//! (`wait`), and the backup is listed (`conclude`).
//!
//! A file that is as that manifest states it isn't read again. So that its time shows each change, files are read
//! in a later second than the folder is listed (`pass_listing`): what the server writes from then on has a later time.
//! With delta the digest decides, for which the workers are asked first, while the server is in its backup
//! (`draft_running`): what the server changes after it is in the log that the backup needs.
//!
//! By types the folder is listed, digested and read while the server is in its backup, and in this order. What does so
//! borrows the backup that the server has started (`Begun`), which its stop consumes. No draft is made but of a listing
//! whose second is over (`PastListing`), and nothing reads for that draft but `fetch_running`.
//!
//! What is proved, by the contract of the function that is named:
//!
//! - `back_up_online`, while the backup lock is held: in the log it is `MakeBackup` of what the used links read, and,
//!   unless it is a full one, of what the prior backup has. It has the label file that the server reported, and comes
//!   after the steps of its stanza that other processes report. A part of it is done after every answer and at each
//!   moment, all of it at Ok, and no more than those steps where it is refused.
//! - At Ok the server, of the system that is given, reported the start and the stop of a backup. The new backup has
//!   that part of the log and that label file, and each segment of the part is archived. The pairs fit together and are
//!   of the cluster that was given, fewer than 10,000 backups were listed, each of an earlier second, and both members
//!   of the backup pair are alike.
//! - At Ok the backup is based on the one of them that its kind asks for, and is a full one without one; the lines
//!   state its label, and that it became full.
//! - At Ok it began in the second of its label. The clock showed that second and the one in which it stopped.
//! - At Ok the disk has its manifest, where it was known. Except for the label file, an entry refers to another backup
//!   exactly where the prior's manifest has its file with the listed size and, without delta, the listed time. With
//!   delta it does where a link reported the digest that this manifest has. So the control file is always stored. Each
//!   such entry has the listed time. What the backup refers to is listed, and is its prior or one before that.
//! - At Ok each file of the listing that a backup takes has an entry in that manifest, or a link reported that the file
//!   is absent. The manifest's folders are those of the listing that a backup takes. What is listed of the backup,
//!   besides the backups that it refers to, is what the manifest states, or follows from it, as its sizes.
//! - At Ok each listed file whose bytes are the backup's own lies as the order's settings lay the files out
//!   (`IsLaidBy`), as in a stopped server's backup.
//! - At Ok the server was sent one talk, whose last message is the end. Where a talk began and the backup is refused,
//!   the last that was sent is the end, unless the connection failed or memory ran out.
//! - Whatever the repository holds, it changes nothing but names in the folder of its label, the backup pair, and what
//!   others change in the archive, where their steps are known. Its label states a later second than each that was listed.
//! - It waits for this many steps at most, keeps to its stanza, only reads the data folder, and the least second that
//!   the clock may show doesn't fall. Each refusal has its cause in what was there before, in what the server reported,
//!   and, where a segment isn't archived, in what the repository holds; each object that failed counted it.
//! - `online_backup_status`, `online_backup_message`: the status and the message of each refusal.
#![tactic(auto)]

mod backup_finish;
mod fault;
mod listing;
mod online_backup;
mod online_checks;
mod online_read;
mod order;
mod past_listing;
mod running_draft;
mod server_session;
mod texts;

pub use fault::OnlineBackupFault;
pub use online_backup::back_up_online;
pub use order::{OnlineOrder, OnlineTask};
pub use texts::{online_backup_message, online_backup_status};
