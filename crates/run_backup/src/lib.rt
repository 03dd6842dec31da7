//! backup, as two commands: of a stopped server, and of a running one. An expiry may follow each under the same lock.
//!
//! What is proved, by the contract of the function that is named:
//!
//! - `BackupOffline` is a command that means `backup_offline_meaning`, and `BackupOnline` one that means
//!   `backup_online_meaning`.
//! - After every answer one of a stopped server has changed nothing but the folder of one new label and the backup pair,
//!   whatever the repository holds; and an expiry after it no more than an expiry may change.
//! - `expire_next`: where rules are given, and the backup succeeded, the expiry follows it, and reports after its lines
//!   what was removed. Otherwise nothing is done, and the command ends as the backup did.
//! - Lemmas (`proofs/Backups`), once for both kinds: a backup and such an expiry after it are what the command means.
#![tactic(auto)]

mod backup_offline;
mod backup_online;
mod fault;
mod following;
mod order;

pub use backup_offline::BackupOffline;
pub use backup_online::BackupOnline;
pub use fault::BackupCommandFault;
