//! backup, of any kind: makes a backup of a stopped server's data folder, and lists it as the stanza's last.
//!
//! As for a full backup the stanza's list is validated first, the data folder is listed and the workers are given their
//! folders. Then the manifest of the backup that the kind asks for is read. A file that is as that states isn't stored
//! again, and its entry refers to the backup that has its bytes: its time says so, or with delta its digest, for which
//! the workers are asked first. Without such a backup all is read, and the kind becomes full, which a line states.
//!
//! What is proved, by the contract of the function that is named:
//!
//! - `back_up_offline`, while the backup lock is held: in the log it is `MakeBackup` of what the used links read, and,
//!   unless a full one is asked for, of what the prior backup has. A part of it is done after every answer and at each
//!   moment, all of it at Ok, and nothing where it is refused.
//! - At Ok the folder had no `postmaster.pid`, and the pairs fit together and are of the cluster that was given. Fewer
//!   than 10,000 backups were listed.
//! - At Ok the backup is based on the one of them that its kind asks for, and is a full one without one; the lines
//!   state its label, and that it became full.
//! - At Ok it began in the second of its label. The clock showed that second and the one in which it stopped.
//! - At Ok the disk has its manifest, where it was known. An entry refers to another backup exactly where the prior's
//!   manifest has its file with the listed size and, without delta, the listed time; with delta where a link reported
//!   the digest that this manifest has. So the control file is always stored. Each entry has the listed time. Each
//!   listed file has an entry, unless a link reported that it is absent, and the folders are those of the listing. The
//!   manifest has no part of the log, and the list states the sizes that add up from it.
//! - At Ok each file whose bytes are the backup's own lies as the order's settings lay the files out (`IsLaidBy`): in a
//!   bundle, or at its own name. The files before it in the order of paths, and their sizes, give it its bundle.
//! - At Ok, whatever the disk held, the list that was validated is there with the backup after its backups. The manifest
//!   lies in both members of its pair, and the bytes of each file that isn't an earlier backup's lie at their place.
//!   Both members of both pairs are alike in all that a crash leaves.
//! - Where all links read the folder that was listed, the backup has that folder's files and folders, and nothing else.
//!   With a prior backup that rests on the files' times or digests. With delta no file has the number and SHA-1 of the
//!   prior's file and other bytes, and without delta none has its number and its time and other bytes.
//! - Whatever the repository holds, it changes nothing but names in the folder of its label and the backup pair. Its
//!   label states a later second than each that was listed. It only reads the data folder. Each refusal has its cause
//!   in what was there before.
//! - `find_equal`, `draft_listed`: the parts of it that a backup of a running server can share.
#![tactic(auto)]

mod backup_command;
mod backup_messages;
mod base_manifest;
mod equal;
mod fault;
mod offline_backup;
mod offline_draft;
mod order;
mod texts;

pub use backup_command::{back_up_offline, files_of};
pub use base_manifest::load_base;
pub use equal::find_equal;
pub use fault::{OfflineFault, of_backup};
pub use offline_draft::{draft_listed, draft_offline};
pub use order::{BackupBasis, OfflineOrder, OfflineTask};
pub use texts::{offline_message, offline_status};
