//! Lemmas: a backup as one command of the log.
//!
//! - `specs/Backups` says which command of the log a backup is, that a repository has one more backup, and when a
//!   backup holds a data folder.
//! - `proofs/Based` says what a backup is based on: the manifest of a listed backup, which the disk holds, whose files
//!   are left where they are unchanged; or nothing. `proofs/Prior` has the bytes of these files.
//! - `proofs/Full` has what `backup_make::make` does as that command, and `proofs/Added` what is known of the backup
//!   once it is listed. A full backup is the case of one that is based on nothing.
//! - `proofs/Online` has the same for a running server's, of `fetch`, `close_online` and `publish` with steps of others
//!   before the last (`proofs/Waited`).
//! - `proofs/Again` has that a sound repository is sound with the backup, whichever of the allowed backups it is.
//! - `proofs/Reading` has that the backup's files have the bytes that its links read, or those of the prior backup, and
//!   `proofs/Folders` that a full one holds the data folder where the links are honest.
//!
//! No function: lemmas on drafts. They take as premises that a text of `backup.info` and one of a manifest is that
//! of one value.
//! - What `make` leaves is `MakeBackup` of a backup of which each file with bytes has what a link read in the data
//!   folder at its path, or refers to the prior backup's, and has the bytes that this has. A part of it is done after
//!   every answer, all of it at Ok, and none where `make` refuses early.
//! - At Ok the stanza has one backup more, of the draft's label. Where all links read the very folder that was listed,
//!   a full one holds that folder.
//! - What `fetch`, `close_online` and `publish` leave, with steps of others before the last, is `MakeBackup` of these
//!   steps and of such a backup, whose label file has what the server reported. A part of it is done at each moment,
//!   all of it at Ok, and none but the steps where it is refused early.
//! - Whatever a crash leaves is sound where each segment of the part of the log is archived as `publish` begins.
#![tactic(auto)]
